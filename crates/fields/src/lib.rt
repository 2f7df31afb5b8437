// The words of a setting, read, and the parameters that they give.
#![tactic(auto)]

ghost use Rattle.std.specs.Prelude.{◌≡◌, ◌≤◌, ◌<◌, eqb, length, MatchResult};
ghost use Rattle.octets.specs.Octets.{at, same};
ghost use Rattle.words.specs.Text.{words, listed, held};
ghost use Rattle.grammar.specs.Grammar.{may_end};
ghost use Rattle.fields.specs.Fields.{name_text, ended, said, selector, field_number, values_of, parameter_count, entry_octet, groups_octet, parameter_at};

use grammar::{Field, Form, Name};
use words::Held;

// Words of a line that are what is due: how many they are, and the numbers that they say, zero past them.
#[derive(Clone, Copy, Debug, PartialEq, Eq)]
pub struct Values {
    pub place: usize,
    pub numbers: [usize; 58],
}

// The words before the first that is not what is due, and what is due there.
#[derive(Clone, Copy, Debug, PartialEq, Eq)]
pub struct Undue {
    pub read: Values,
    pub due: Field,
}

// The number at `i`, and 0 past the end.
fn number_at(v: &[usize], i: usize) -> usize
    ensures { result ≡ at v.now i }
{
    v.get(i).copied().unwrap_or(0)
}

#[tactic(auto, unfolding(crate::specs::Fields::field_number))]
fn bit(w: &[u8]) -> Option<usize>
    ensures { result ≡ field_number Field.Bit w.now }
{
    if w.len() == 1 {
        words::read_number(w, 1)
    } else {
        None
    }
}

// hex2 and hex4 stand apart: one function of the length would walk over one pair or two, which is no plainer.
#[tactic(auto, unfolding(crate::specs::Fields::field_number))]
fn hex2(w: &[u8]) -> Option<usize>
    ensures { result ≡ field_number Field.Hex2 w.now }
{
    if w.len() != 2 || !words::hex_digits(w) {
        return None;
    }
    Some(usize::from(words::pair_at(w, 0)))
}

#[tactic(auto, unfolding(crate::specs::Fields::field_number))]
fn hex4(w: &[u8]) -> Option<usize>
    ensures { result ≡ field_number Field.Hex4 w.now }
{
    if w.len() != 4 || !words::hex_digits(w) {
        return None;
    }
    let high = usize::from(words::pair_at(w, 0));
    let low = usize::from(words::pair_at(w, 1));
    Some(high * 256 + low)
}

// A word that stands as it is.
#[tactic(auto, unfolding(crate::specs::Fields::name_text))]
pub fn name_text(n: Name) -> &'static [u8]
    ensures { result.now ≡ name_text n }
{
    match n {
        Name::Control => b"control",
        Name::Groups => b"groups",
        Name::Flow => b"flow",
        Name::Applications => b"applications",
        Name::Max => b"max",
        Name::Advertise => b"advertise",
        Name::Enable => b"enable",
        Name::Willing => b"willing",
        Name::Priorities => b"priorities",
        Name::Percentages => b"percentages",
        Name::Mask => b"mask",
        Name::Classes => b"classes",
        Name::Revision => b"revision",
    }
}

// Whether a word is one of those that stand as they are.
pub fn is_name(n: Name, w: &[u8]) -> bool
    ensures { result ≡ same w.now (name_text n) }
{
    octets::same_octets(w, name_text(n))
}

#[tactic(auto, unfolding(crate::specs::Fields::selector))]
fn selector(w: &[u8]) -> Option<usize>
    ensures { result ≡ selector w.now }
{
    if octets::same_octets(w, b"ethertype") {
        Some(0)
    } else if octets::same_octets(w, b"port") {
        Some(1)
    } else if octets::same_octets(w, b"selector-2") {
        Some(2)
    } else if octets::same_octets(w, b"selector-3") {
        Some(3)
    } else {
        None
    }
}

// A word that says no number is 0 where it is what is due.
#[tactic(auto, unfolding(crate::specs::Fields::said))]
fn said(due: bool) -> Option<usize>
    ensures { result ≡ said due }
{
    due.then_some(0)
}

// What a word says, if it is what is due.
#[tactic(auto, unfolding(crate::specs::Fields::field_number))]
pub fn read_field(f: Field, w: &[u8]) -> Option<usize>
    ensures { result ≡ field_number f w.now }
{
    match f {
        Field::Word(n) => said(is_name(n, w)),
        Field::Bit => bit(w),
        Field::Decimal(limit) => words::read_number(w, limit),
        Field::Hex2 => hex2(w),
        Field::Hex4 => hex4(w),
        Field::Selector => selector(w),
        Field::Parameters => said(octets::same_octets(w, b"parameters")),
        Field::Octets => said(words::is_octets(w, 507)),
        Field::End => None,
    }
}

// Whether there is no word.
#[tactic(auto, using(words::specs::WordsLaws::none_left))]
pub fn is_over(s: &[u8]) -> bool
    ensures { result ≡ eqb (length (words s.now)) 0 }
{
    words::word(s).is_empty()
}

// Reads the words of a setting, which ends where a line may. Every form has ended at place 57.
pub fn read_form(f: Form, s: &[u8]) -> Result<Values, Undue>
    ensures value { result ≡ values_of f (words s.now) }
    ensures place { MatchResult result (λ v. v.place ≤ 57) (λ u. u.read.place ≤ 57) }
{
    let mut numbers = [0; 58];
    let mut left = s;
    for place in 0..58 {
        let read = Values { place, numbers };
        let due = grammar::due(f, place);
        let w = words::word(left);
        if w.is_empty() {
            return ended(read, due);
        }
        let Some(n) = read_field(due, w) else {
            return Err(Undue { read, due });
        };
        numbers[place] = n;
        left = words::behind(left);
    }
    unreachable!()
}

// The words of a line that ends where a field is due.
#[tactic(auto, unfolding(crate::specs::Fields::ended))]
fn ended(read: Values, due: Field) -> Result<Values, Undue>
    ensures { result ≡ ended (may_end due) read due }
{
    if grammar::may_end(due) {
        Ok(read)
    } else {
        Err(Undue { read, due })
    }
}

// Six octets for each entry of three words.
#[tactic(auto, unfolding(crate::specs::Fields::parameter_count))]
fn entries_length(n: usize) -> usize
    requires { n ≤ 57 }
    ensures { (result ≡ parameter_count Form.Applications n) × (result ≤ 102) }
{
    n.saturating_sub(6) / 3 * 6
}

// How many octets the parameters have, of as many words as a form can have, which the `requires` bounds.
#[tactic(auto, unfolding(crate::specs::Fields::parameter_count))]
pub fn parameter_count(f: Form, n: usize) -> usize
    requires { n ≤ 57 }
    ensures { (result ≡ parameter_count f n) × (result ≤ 102) }
{
    match f {
        Form::Groups => 13,
        Form::Flow => 2,
        Form::Applications => entries_length(n),
        Form::Plain => 0,
    }
}

// Octet `k` of the entry whose selector, id and map stand from place `j` on.
#[tactic(auto, unfolding(crate::specs::Fields::entry_octet))]
fn entry_octet(v: &[usize], j: usize, k: usize) -> u8
    requires { j < 1024 }
    ensures { result ≡ entry_octet v.now j k }
{
    match k {
        0 => words::low(number_at(v, j + 1) / 256),
        1 => words::low(number_at(v, j + 1)),
        2 => (number_at(v, j) % 4) as u8,
        3 => 27,
        4 => 33,
        _ => words::low(number_at(v, j + 2)),
    }
}

// Octet `i` of the group numbers, two an octet, and of the percentages and the number of classes.
#[tactic(auto, unfolding(crate::specs::Fields::groups_octet))]
fn groups_octet(v: &[usize], i: usize) -> u8
    requires { i < 1024 }
    ensures { result ≡ groups_octet v.now i }
{
    match i {
        0..=3 => {
            let high = number_at(v, 7 + 2 * i) % 16;
            let low = number_at(v, 8 + 2 * i) % 16;
            (high * 16 + low) as u8
        }
        4..=11 => words::low(number_at(v, 12 + i)),
        _ => words::low(number_at(v, 13 + i)),
    }
}

// Octet `i` of the parameters.
#[tactic(auto, unfolding(crate::specs::Fields::parameter_at))]
fn parameter_at(f: Form, v: &[usize], i: usize) -> u8
    requires { i < 1024 }
    ensures { result ≡ parameter_at f v.now i }
{
    match f {
        Form::Groups => groups_octet(v, i),
        Form::Flow => words::low(number_at(v, 7 + 2 * i)),
        Form::Applications => entry_octet(v, 6 + i / 6 * 3, i % 6),
        Form::Plain => 0,
    }
}

// The `n` octets of the parameters.
pub fn parameters(f: Form, n: usize, v: &[usize]) -> Held<513>
    requires { n ≤ 513 }
    ensures { result ≡ held 513 (listed n 0 (parameter_at f v.now)) }
{
    let mut octets = [0; 513];
    for i in 0..n {
        octets[i] = parameter_at(f, v, i);
    }
    Held { n, octets }
}
