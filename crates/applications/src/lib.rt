// Applications: entries of six octets, each a protocol id (2), an octet with OUI bits 23-18 above a 2-bit selector, OUI 1b 21 and a priority
// map. Those under another OUI are not ours, and are passed over.
#![tactic(auto)]

ghost use Rattle.std.specs.Prelude.{◌≡◌};
ghost use Rattle.std.specs.List.{list_all};
ghost use Rattle.parameters.specs.Parameters.{clash, compatible, id_of, is_ours, local_values, map_of, ours, same_name, selector_of, stored, valid};
ghost use Rattle.applications.specs.Entries.{entries, other_name};
ghost use Rattle.parameters.specs.declared.Feature.TheVariants.{Applications};

use parameters::Parameters;

// At most so many entries are ours.
const MOST: usize = 16;

// An application entry.
pub type Entry = [u8; 6];

// The whole entries of parameters.
#[tactic(auto, unfolding(crate::specs::Entries::entries))]
pub fn entries(p: &[u8]) -> &[Entry]
    ensures { result.now ≡ entries p.now }
{
    p.as_chunks().0
}

fn id_of(e: &Entry) -> u16
    ensures { result ≡ id_of e.now 0 }
{
    u16::from_be_bytes([e[0], e[1]])
}

// The selector of an entry.
pub fn selector_of(e: &Entry) -> u8
    ensures { result ≡ selector_of e.now 0 }
{
    e[2] % 4
}

fn map_of(e: &Entry) -> u8
    ensures { result ≡ map_of e.now 0 }
{
    e[5]
}

// Whether an entry is ours: OUI 00 1b 21.
#[tactic(auto, unfolding(parameters::specs::Parameters::is_ours))]
pub fn is_ours(e: &Entry) -> bool
    ensures { result ≡ is_ours e.now 0 }
{
    e[2] < 4 && e[3] == 0x1b && e[4] == 0x21
}

// Whether two entries name the same selector and id.
#[tactic(auto, unfolding(parameters::specs::Parameters::same_name))]
pub fn same_name(e: &Entry, o: &Entry) -> bool
    ensures { result ≡ same_name e.now 0 o.now 0 }
{
    id_of(e) == id_of(o) && selector_of(e) == selector_of(o)
}

// Whether none of some entries has the name of an entry.
fn new_name(e: &Entry, own: &[Entry]) -> bool
    ensures { result ≡ list_all (other_name e.now) own.now }
{
    own.iter().all(|o| !same_name(e, o))
}

// Valid: whole entries, of which at most `MOST` are ours, no two of these with the same name. One walk gathers our own.
pub fn valid(p: &[u8]) -> bool
    ensures { result ≡ valid Applications p.now }
{
    if p.len() % 6 != 0 {
        return false;
    }
    let mut own = [[0; 6]; MOST];
    let mut count = 0;
    let all = entries(p);
    for e in all {
        if !is_ours(e) {
            continue;
        }
        if MOST <= count || !new_name(e, &own[..count]) {
            return false;
        }
        own[count] = *e;
        count += 1;
    }
    true
}

// Whether each entry is ours and has selector 0 or 1, as in a local setting.
pub fn local_values(p: &[u8]) -> bool
    ensures { result ≡ local_values Applications p.now }
{
    entries(p).iter().all(|e| is_ours(e) && selector_of(e) < 2)
}

// Whether two entries are both ours and have the same name with different maps.
#[tactic(auto, unfolding(parameters::specs::Parameters::clash))]
fn clash(e: &Entry, o: &Entry) -> bool
    ensures { result ≡ clash e.now 0 o.now 0 }
{
    same_name(e, o) && is_ours(e) && is_ours(o) && map_of(e) != map_of(o)
}

// Whether no selector and id is named by both with different maps: the walk is left at the first clash.
#[tactic(auto, using(crate::specs::EntriesLaws::walk_left, crate::specs::EntriesLaws::walk_end), unfolding(crate::specs::Entries::no_clash))]
#[inline(always)]
pub fn compatible(p: &[u8], q: &[u8]) -> bool
    ensures { result ≡ compatible Applications p.now q.now }
{
    let others = entries(q);
    let mut clear = true;
    'walk: for e in entries(p) {
        for o in others {
            if clash(e, o) {
                clear = false;
                break 'walk;
            }
        }
    }
    clear
}

// Our own entries as a state holds them: one walk copies each, at most 16.
pub fn store(p: &[u8]) -> Parameters
    ensures { result ≡ stored (ours Applications p.now) }
{
    let mut octets = [0; 96];
    let mut size = 0;
    let all = entries(p);
    for entry in all {
        if !is_ours(entry) {
            continue;
        }
        if 96 <= size {
            return Parameters { length: 96, octets };
        }
        octets::numbers::put(&mut octets, size, entry);
        size += 6;
    }
    Parameters {
        length: size as u8,
        octets,
    }
}
