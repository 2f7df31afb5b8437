// The port that a line may begin with, and lines that are passed over, as docs/FORMATS.md fixes them.
#![tactic(auto)]

ghost use Rattle.std.specs.Prelude.{◌≡◌};
ghost use Rattle.addressing.specs.Addressing.{port_word, port_number, port_meant, behind_port, passed_over};

// Whether a line is passed over: it is empty, or a comment.
#[tactic(auto, unfolding(crate::specs::Addressing::passed_over))]
pub fn is_passed_over(line: &[u8]) -> bool
    ensures { result ≡ passed_over line.now }
{
    line.is_empty() || octets::octet(line, 0) == b'#'
}

// The port that a line names: its first word, where that is a number up to 255.
#[tactic(auto, using(crate::specs::AddressingLaws::port_found), unfolding(crate::specs::Addressing::port_word))]
pub fn port_of(line: &[u8]) -> Option<u8>
    ensures { result ≡ port_word (port_number line.now) }
{
    let n = words::read_number(words::word(line), 255)?;
    Some(words::low(n))
}

// The port that a line is for: the one that it names, or port 1.
#[tactic(auto, unfolding(crate::specs::Addressing::port_meant))]
pub fn port_meant(port: Option<u8>) -> u8
    ensures { result ≡ port_meant port }
{
    port.unwrap_or(1)
}

// What a line says at its port: all of it where no port is given, or where it is too long.
#[tactic(auto, unfolding(crate::specs::Addressing::behind_port))]
pub fn behind_port(line: &[u8], port: Option<u8>) -> &[u8]
    ensures { result.now ≡ behind_port port line.now }
{
    match port {
        Some(_) if line.len() <= words::LONGEST => words::trim(words::behind(line)),
        _ => line,
    }
}
