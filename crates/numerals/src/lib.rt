// Counters of 64 bits, and numbers in decimal.
#![tactic(auto)]

ghost use Rattle.std.specs.Prelude.{◌≡◌, [], ◌∷◌, ◌++◌, ◌+◌, ◌≤◌, length};
ghost use Rattle.numerals.specs.Numerals.{more, decimal};
ghost use Rattle.numerals.specs.NumeralLaws.{Laid, Spelled};

// One more, but no more than a counter holds.
pub fn more(n: u64) -> u64
    ensures { result ≡ more n }
{
    n.saturating_add(1)
}

// Puts the digits of a number, and answers how many there are.
fn spell(n: u64, digits: &mut [u8; 20]) -> usize
    ensures { Spelled n result digits.new }
{
    io::decimal(n, digits)
}

// Puts a number in decimal, and an octet behind it. The caller has seen to the room; hence the `requires`.
pub fn put_number(out: &mut [u8], at: usize, n: u64, end: u8) -> usize
    requires { at + 21 ≤ length out.old }
    ensures { Laid out.old at (decimal n ++ (end ∷ [])) 21 result out.new }
{
    let mut digits = [0u8; 20];
    let k = spell(n, &mut digits);
    octets::numbers::put(out, at, &digits[..k]);
    out[at + k] = end;
    at + k + 1
}
