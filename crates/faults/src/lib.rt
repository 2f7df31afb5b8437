// Why a local setting is refused with 9: the first of document 01's rules that its parameters break, with the numbers that say so.
#![tactic(auto)]

ghost use Rattle.std.specs.Prelude.{◌≡◌, ◌<◌, IfSome, position, length};
ghost use Rattle.parameters.specs.Parameters.{group_of, entry_count, same_name};
ghost use Rattle.faults.specs.Faults.{bad_priority, foreign_entry, again, high_selector, groups_fault, flow_fault, applications_fault, fault_of};

use applications::Entry;
use parameters::Feature;

// What is wrong. Entries are counted from 1, priorities from 0.
#[derive(Clone, Copy, Debug, PartialEq, Eq)]
pub enum Fault {
    // How many octets there are, and are due.
    Length(usize, usize),
    // How many octets there are, which are no whole entries.
    Ragged(usize),
    // A priority, and its group.
    Group(usize, u8),
    // The sum of the percentages.
    Sum(usize),
    // The number of classes.
    Classes(u8),
    // How many ones the mask has, and the number of classes.
    Ones(u8, u8),
    // How many entries there are.
    Entries(usize),
    // An entry that is not ours.
    Foreign(usize),
    // Two entries with the same selector and id.
    Again(usize, usize),
    // An entry, and its selector.
    Selector(usize, u8),
}

// The group of a priority.
fn group_of(p: &[u8], priority: usize) -> u8
    ensures { result ≡ group_of p.now priority }
{
    let both = octets::octet(p, priority / 2);
    if priority % 2 == 0 {
        return both / 16;
    }
    both % 16
}

// The first priority whose group is 8 to 14.
fn bad_priority(p: &[u8]) -> Option<usize>
    ensures { result ≡ bad_priority p.now }
{
    (0..8).find(|i| !parameters::groups::good_group(group_of(p, *i)))
}

#[tactic(auto, unfolding(crate::specs::Faults::groups_fault))]
fn groups(p: &[u8]) -> Option<Fault>
    ensures { result ≡ groups_fault p.now }
{
    let n = p.len();
    if n != 13 {
        return Some(Fault::Length(n, 13));
    }
    if let Some(priority) = bad_priority(p) {
        return Some(Fault::Group(priority, group_of(p, priority)));
    }
    let sum = parameters::groups::sum(&p[4..12]);
    if sum != 100 {
        return Some(Fault::Sum(sum));
    }
    let classes = p[12];
    if 8 < classes {
        return Some(Fault::Classes(classes));
    }
    None
}

#[tactic(auto, unfolding(crate::specs::Faults::flow_fault))]
fn flow(p: &[u8]) -> Option<Fault>
    ensures { result ≡ flow_fault p.now }
{
    let n = p.len();
    if n != 2 {
        return Some(Fault::Length(n, 2));
    }
    let classes = p[1];
    if 8 < classes {
        return Some(Fault::Classes(classes));
    }
    let ones = parameters::flow::ones(p[0]);
    if classes < ones {
        return Some(Fault::Ones(ones, classes));
    }
    None
}

// The place of the first entry that is not ours.
fn foreign_entry(p: &[u8]) -> Option<usize>
    ensures place { result ≡ foreign_entry p.now }
    ensures within { IfSome result (λ i. i < entry_count p.now) }
{
    applications::entries(p)
        .iter()
        .position(|e| !applications::is_ours(e))
}

// The place of the first of some entries with the selector and id of another.
fn same_entry(before: &[Entry], e: &Entry) -> Option<usize>
    ensures place { result ≡ position (λ o. same_name e.now 0 o 0) before.now }
    ensures within { IfSome result (λ i. i < length before.now) }
{
    before.iter().position(|o| applications::same_name(e, o))
}

// The first entry whose selector and id an entry before it has, with the first such.
fn again(p: &[u8]) -> Option<Fault>
    ensures { result ≡ again p.now }
{
    let all = applications::entries(p);
    for (i, e) in all.iter().enumerate() {
        if let Some(first) = same_entry(&all[..i], e) {
            return Some(Fault::Again(first + 1, i + 1));
        }
    }
    None
}

// The place of the first entry whose selector is 2 or 3.
fn high_selector(p: &[u8]) -> Option<usize>
    ensures place { result ≡ high_selector p.now }
    ensures within { IfSome result (λ i. i < entry_count p.now) }
{
    applications::entries(p)
        .iter()
        .position(|e| 2 <= applications::selector_of(e))
}

#[tactic(auto, using(applications::specs::EntriesLaws::entries_length, crate::specs::FaultsLaws::selector_at), unfolding(crate::specs::Faults::applications_fault))]
fn applications(p: &[u8]) -> Option<Fault>
    ensures { result ≡ applications_fault p.now }
{
    let n = p.len();
    if n % 6 != 0 {
        return Some(Fault::Ragged(n));
    }
    if let Some(i) = foreign_entry(p) {
        return Some(Fault::Foreign(i + 1));
    }
    let all = applications::entries(p);
    if 16 < all.len() {
        return Some(Fault::Entries(all.len()));
    }
    if let Some(fault) = again(p) {
        return Some(fault);
    }
    let i = high_selector(p)?;
    Some(Fault::Selector(i + 1, applications::selector_of(&all[i])))
}

// The first fault of parameters as a local setting; none exactly where they are valid.
#[tactic(auto, unfolding(crate::specs::Faults::fault_of))]
pub fn fault_of(f: Feature, p: &[u8]) -> Option<Fault>
    ensures { result ≡ fault_of f p.now }
{
    match f {
        Feature::Groups => groups(p),
        Feature::Flow => flow(p),
        Feature::Applications => applications(p),
    }
}
