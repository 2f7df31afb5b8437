// A configuration's octets, written.
ghost use Rattle.std.specs.Prelude.{◌≡◌, ◌+◌, ◌≤◌, length};
ghost use Rattle.std.proofs.lemmas.List.Edits.{sets};
ghost use Rattle.parameters.specs.Parameters.{content};
ghost use Rattle.parameters.specs.WritingLaws.{Size};

use crate::Parameters;

// How many octets the configuration has.
#[tactic(auto, using(crate::specs::WritingLaws::size_of))]
pub fn size(p: Parameters) -> usize
    ensures { Size p result }
{
    p.content().len()
}

// Writes them at `at`. The caller has refused a short output before; hence the `requires`.
pub fn put(out: &mut [u8], at: usize, p: Parameters)
    requires { at + length (content p) ≤ length out.old }
    ensures { out.new ≡ sets out.old at (content p) }
{
    octets::numbers::put(out, at, p.content());
}
