// Priority groups: eight 4-bit group numbers in four octets, eight percentages, number of classes.
ghost use Rattle.std.specs.Prelude.{◌≡◌, ◌≤◌, length};
ghost use Rattle.parameters.specs.Parameters.{compatible, good_group, good_halves, sum, valid};
ghost use Rattle.parameters.specs.StepsLaws.{two_groups};
ghost use Rattle.parameters.specs.declared.Feature.TheVariants.{Groups};

// Whether the group number is 0 to 7 or 15.
pub fn good_group(g: u8) -> bool
    ensures { result ≡ good_group g }
{
    matches!(g, 0..=7 | 15)
}

// Whether an octet's halves are group numbers.
fn two_groups(x: u8) -> bool
    ensures { result ≡ two_groups x }
{
    good_group(x / 16) && good_group(x % 16)
}

// Whether the halves of each octet are.
fn good_halves(s: &[u8]) -> bool
    ensures { result ≡ good_halves s.now }
{
    s.iter().all(|x| two_groups(*x))
}

// The sum of the percentages; of at most eight octets, which the `requires` asks for, it fits.
#[tactic(auto, using(crate::specs::GroupsLaws::sum_by_one))]
pub fn sum(s: &[u8]) -> usize
    requires { length s.now ≤ 8 }
    ensures { result ≡ sum s.now }
{
    s.iter().map(|x| usize::from(*x)).sum()
}

// Valid: 13 octets, good group numbers, percentages that sum to 100, and at most 8 classes.
#[tactic(auto, unfolding(crate::specs::Parameters::valid, crate::specs::Parameters::valid_groups))]
pub fn valid(p: &[u8]) -> bool
    ensures { result ≡ valid Groups p.now }
{
    p.len() == 13 && good_halves(&p[..4]) && sum(&p[4..12]) == 100 && p[12] <= 8
}

// Whether group numbers and percentages, the first twelve octets, are equal; the number of classes may differ.
#[tactic(auto, unfolding(crate::specs::Parameters::compatible))]
pub fn compatible(p: &[u8], q: &[u8]) -> bool
    ensures { result ≡ compatible Groups p.now q.now }
{
    octets::same_octets(octets::first(p, 12), octets::first(q, 12))
}
