// Priority flow control: a mask, bit p for priority p, and the number of classes.
ghost use Rattle.std.specs.Prelude.{◌≡◌};
ghost use Rattle.parameters.specs.Parameters.{compatible, local_values, ones, valid};
ghost use Rattle.parameters.specs.declared.Feature.TheVariants.{Flow};

// Valid: 2 octets, and at most 8 classes.
#[tactic(auto, unfolding(crate::specs::Parameters::valid, crate::specs::Parameters::valid_flow))]
pub fn valid(p: &[u8]) -> bool
    ensures { result ≡ valid Flow p.now }
{
    p.len() == 2 && p[1] <= 8
}

// The number of ones in a mask.
#[tactic(auto, using(crate::specs::FlowLaws::ones_counted))]
pub fn ones(mask: u8) -> u8
    ensures { result ≡ ones 8 mask }
{
    mask.count_ones() as u8
}

// Whether the mask has no more ones than the number of classes, as a local setting must.
#[tactic(auto, unfolding(crate::specs::Parameters::local_values))]
pub fn local_values(p: &[u8]) -> bool
    ensures { result ≡ local_values Flow p.now }
{
    ones(octets::octet(p, 0)) <= octets::octet(p, 1)
}

// Whether the masks are equal; the number of classes may differ.
#[tactic(auto, unfolding(crate::specs::Parameters::compatible))]
pub fn compatible(p: &[u8], q: &[u8]) -> bool
    ensures { result ≡ compatible Flow p.now q.now }
{
    octets::octet(p, 0) == octets::octet(q, 0)
}
