// The parameters of the three features: their layout, priority groups and flow control, and how they are stored and written. The rules of
// applications and those of any feature are crates `applications` and `config`.
#![tactic(auto)]

ghost use Rattle.std.specs.Prelude.{◌≡◌, Some};
ghost use Rattle.parameters.specs.Parameters.{content, feature_name, feature_number, stored};
ghost use Rattle.parameters.specs.Features.{Numbers, of_feature};

use std::fmt;

pub mod flow;
pub mod groups;
pub mod writing;

// The three features; `feature_number` in specs/ gives the type of each one's sub-TLV.
#[derive(Clone, Copy, Debug, PartialEq, Eq)]
pub enum Feature {
    Groups,
    Flow,
    Applications,
}

// The type of the feature's sub-TLV.
#[tactic(auto, unfolding(crate::specs::Parameters::feature_number))]
impl From<Feature> for u8 {
    ghost from_gives = { λ f n. n ≡ feature_number f };

    fn from(f: Feature) -> u8 {
        match f {
            Feature::Groups => 2,
            Feature::Flow => 3,
            Feature::Applications => 4,
        }
    }
}

// A number that is no feature's.
#[derive(Clone, Copy, Debug, PartialEq, Eq)]
pub struct UnknownFeature;

// The feature with a number.
#[tactic(auto, unfolding(crate::specs::Parameters::feature_number))]
impl TryFrom<u8> for Feature {
    type Error = UnknownFeature;

    ghost try_from_gives = { Numbers };

    fn try_from(number: u8) -> Result<Self, UnknownFeature> {
        match number {
            2 => Ok(Feature::Groups),
            3 => Ok(Feature::Flow),
            4 => Ok(Feature::Applications),
            _ => Err(UnknownFeature),
        }
    }
}

// The name of a feature in every answer that is printed (docs/FORMATS.md).
impl fmt::Display for Feature {
    ghost output = { λ f. Some (feature_name f) };

    fn fmt<W: fmt::Write>(&self, f: &mut fmt::Formatter<W>) -> fmt::Result {
        f.write_str(match self {
            Feature::Groups => "groups",
            Feature::Flow => "flow",
            Feature::Applications => "applications",
        })
    }
}

// One value for each feature.
#[derive(Clone, Copy, Debug, PartialEq, Eq)]
pub struct Each<T> {
    pub groups: T,
    pub flow: T,
    pub applications: T,
}

impl<T: Copy> Each<T> {
    // The value for a feature.
    pub fn of(&self, f: Feature) -> T
        ensures { result ≡ of_feature self.now f }
    {
        match f {
            Feature::Groups => self.groups,
            Feature::Flow => self.flow,
            Feature::Applications => self.applications,
        }
    }
}

// A configuration: the octets of a feature's parameters, zero past `length`. Two are the same (`==`, and `same_parameters` in specs/) where all of
// it is: order of application entries and number of classes included. Octets with a length beside them: no heap, fixed memory.
#[derive(Clone, Copy, Debug, PartialEq, Eq)]
pub struct Parameters {
    pub length: u8,
    pub octets: [u8; 96],
}

impl Parameters {
    // The octets that the length tells.
    #[tactic(auto, unfolding(crate::specs::Parameters::content))]
    pub fn content(&self) -> &[u8]
        ensures { result.now ≡ content self.now }
    {
        octets::first(&self.octets, usize::from(self.length))
    }
}

// Octets as a state holds them: at most 96, and zero behind them.
pub fn store_all(p: &[u8]) -> Parameters
    ensures { result ≡ stored p.now }
{
    let s = octets::first(p, 96);
    let mut kept = [0; 96];
    octets::numbers::put(&mut kept, 0, s);
    Parameters {
        length: s.len() as u8,
        octets: kept,
    }
}
