// Numbers of four octets, high octet first.
ghost use Rattle.std.specs.Prelude.{◌≡◌, ◌+◌, ◌≤◌, ◌<◌, length};
ghost use Rattle.std.proofs.lemmas.List.Edits.{sets};
ghost use Rattle.octets.specs.Octets.{number4, octets4};

// The number at `at`; octets past the end count as 0. The caller's places are below a million, so that
// `at + 3` cannot wrap: hence the `requires`.
pub fn number4(s: &[u8], at: usize) -> u32
    requires { at ≤ 1000000 }
    ensures { result ≡ number4 s.now at }
{
    let a = crate::octet(s, at);
    let b = crate::octet(s, at + 1);
    let c = crate::octet(s, at + 2);
    let d = crate::octet(s, at + 3);
    u32::from_be_bytes([a, b, c, d])
}

// Writes the number at `at`. The caller has refused a short output before; hence the `requires`.
pub fn put4(out: &mut [u8], at: usize, n: u32)
    requires { at + 4 ≤ length out.old }
    ensures { out.new ≡ sets out.old at (octets4 n) }
{
    out[at..at + 4].copy_from_slice(&n.to_be_bytes());
}

// Writes the octets `s` at `at`. The caller has refused a short output before; hence the `requires`.
pub fn put(out: &mut [u8], at: usize, s: &[u8])
    requires { at + length s.now ≤ length out.old }
    ensures { out.new ≡ sets out.old at s.now }
{
    out[at..at + s.len()].copy_from_slice(s);
}
