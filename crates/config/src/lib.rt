// The configuration of any of the three features: what is valid, what is compatible, and how it is stored.
#![tactic(auto)]

ghost use Rattle.std.specs.Prelude.{◌≡◌, true};
ghost use Rattle.parameters.specs.declared.Feature.TheVariants.{Applications};
ghost use Rattle.parameters.specs.Parameters.{compatible, local_values, ours, stored, valid, valid_local};

use parameters::{Feature, Parameters};

// Whether parameters that came in a frame are valid (01, TLV layout); a wrong length is not.
#[inline(always)]
pub fn valid(f: Feature, p: &[u8]) -> bool
    ensures { result ≡ valid f p.now }
{
    match f {
        Feature::Groups => parameters::groups::valid(p),
        Feature::Flow => parameters::flow::valid(p),
        Feature::Applications => applications::valid(p),
    }
}

// Whether they have the values that a local setting may have.
#[tactic(auto, unfolding(parameters::specs::Parameters::local_values))]
fn local_values(f: Feature, p: &[u8]) -> bool
    ensures { result ≡ local_values f p.now }
{
    match f {
        Feature::Groups => true,
        Feature::Flow => parameters::flow::local_values(p),
        Feature::Applications => applications::local_values(p),
    }
}

// Whether they are valid as a local setting.
#[tactic(auto, unfolding(parameters::specs::Parameters::valid_local))]
pub fn valid_local(f: Feature, p: &[u8]) -> bool
    ensures { result ≡ valid_local f p.now }
{
    valid(f, p) && local_values(f, p)
}

// Whether the parameters of two ends are compatible (01, Outcome rules).
pub fn compatible(f: Feature, p: &[u8], q: &[u8]) -> bool
    ensures { result ≡ compatible f p.now q.now }
{
    match f {
        Feature::Groups => parameters::groups::compatible(p, q),
        Feature::Flow => parameters::flow::compatible(p, q),
        Feature::Applications => applications::compatible(p, q),
    }
}

// The same of applications, where the other end's are valid: valid ones suit themselves, so that the same octets need no walk over
// pairs of entries.
#[tactic(auto, using(crate::specs::CompatibleLaws::compatible_same))]
#[inline(always)]
fn suits_entries(own: &[u8], theirs: &[u8]) -> bool
    requires { valid Applications theirs.now ≡ true }
    ensures { result ≡ compatible Applications own.now theirs.now }
{
    octets::same_octets(own, theirs) || applications::compatible(own, theirs)
}

// Whether parameters that came in a frame are compatible with the end's own, where they are valid; hence the `requires`.
#[inline(always)]
pub fn suits(f: Feature, own: &[u8], theirs: &[u8]) -> bool
    requires { valid f theirs.now ≡ true }
    ensures { result ≡ compatible f own.now theirs.now }
{
    match f {
        Feature::Groups => parameters::groups::compatible(own, theirs),
        Feature::Flow => parameters::flow::compatible(own, theirs),
        Feature::Applications => suits_entries(own, theirs),
    }
}

// The parameters as a state holds them: of applications the entries that are ours.
#[tactic(auto, unfolding(parameters::specs::Parameters::ours))]
pub fn store(f: Feature, p: &[u8]) -> Parameters
    ensures { result ≡ stored (ours f p.now) }
{
    match f {
        Feature::Groups | Feature::Flow => parameters::store_all(p),
        Feature::Applications => applications::store(p),
    }
}
