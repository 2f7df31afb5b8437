// What each word of a setting is to be, behind `max N` or behind `set` and its feature.
#![tactic(auto)]

ghost use Rattle.std.specs.Prelude.{◌≡◌, ◌≤◌, ◌<◌, get_or};
ghost use Rattle.grammar.specs.Grammar.{switches, due, may_end};

// The words of settings that stand as they are.
#[derive(Clone, Copy, Debug, PartialEq, Eq)]
pub enum Name {
    Control,
    Groups,
    Flow,
    Applications,
    Max,
    Advertise,
    Enable,
    Willing,
    Priorities,
    Percentages,
    Mask,
    Classes,
    Revision,
}

// What a word is to be: a fixed word, a bit, a number up to a limit, two or four hex digits, or the octets of parameters. Where
// a selector or `parameters` is due the line may also end, and nothing stands behind its end.
#[derive(Clone, Copy, Debug, PartialEq, Eq)]
pub enum Field {
    Word(Name),
    Bit,
    Decimal(u16),
    Hex2,
    Hex4,
    Selector,
    Parameters,
    Octets,
    End,
}

// The words of a setting: those of each feature, or its parameters as octets.
#[derive(Clone, Copy, Debug, PartialEq, Eq)]
pub enum Form {
    Groups,
    Flow,
    Applications,
    Plain,
}

// `advertise B enable B willing B`
#[tactic(auto, using(crate::specs::GrammarLaws::due_bit), unfolding(crate::specs::Grammar::switches))]
fn due_switch(i: usize) -> Field
    requires { i < 6 }
    ensures { result ≡ get_or switches i Field.End }
{
    match i {
        0 => Field::Word(Name::Advertise),
        2 => Field::Word(Name::Enable),
        4 => Field::Word(Name::Willing),
        _ => Field::Bit,
    }
}

#[tactic(auto, using(crate::specs::GrammarLaws::due_switch, crate::specs::GrammarLaws::due_group, crate::specs::GrammarLaws::due_percentage, crate::specs::GrammarLaws::due_behind), unfolding(crate::specs::Grammar::due, crate::specs::Grammar::fields, crate::specs::Grammar::switches))]
fn due_groups(i: usize) -> Field
    ensures { result ≡ due Form.Groups i }
{
    match i {
        0..=5 => due_switch(i),
        6 => Field::Word(Name::Priorities),
        7..=14 => Field::Decimal(15),
        15 => Field::Word(Name::Percentages),
        16..=23 => Field::Decimal(255),
        24 => Field::Word(Name::Classes),
        25 => Field::Decimal(255),
        _ => Field::End,
    }
}

#[tactic(auto, using(crate::specs::GrammarLaws::due_switch, crate::specs::GrammarLaws::due_flow_behind), unfolding(crate::specs::Grammar::due, crate::specs::Grammar::fields, crate::specs::Grammar::switches))]
fn due_flow(i: usize) -> Field
    ensures { result ≡ due Form.Flow i }
{
    match i {
        0..=5 => due_switch(i),
        6 => Field::Word(Name::Mask),
        7 => Field::Hex2,
        8 => Field::Word(Name::Classes),
        9 => Field::Decimal(255),
        _ => Field::End,
    }
}

#[tactic(auto, using(crate::specs::GrammarLaws::due_switch, crate::specs::GrammarLaws::due_entries_behind))]
fn due_applications(i: usize) -> Field
    ensures { result ≡ due Form.Applications i }
{
    match i {
        0..=5 => due_switch(i),
        6..=56 => due_entry(i),
        _ => Field::End,
    }
}

// `SELECTOR HHHH HH` for each entry.
#[tactic(auto, using(crate::specs::GrammarLaws::due_selector, crate::specs::GrammarLaws::due_id, crate::specs::GrammarLaws::due_map))]
fn due_entry(i: usize) -> Field
    requires { (6 ≤ i) × (i < 57) }
    ensures { result ≡ due Form.Applications i }
{
    match i % 3 {
        0 => Field::Selector,
        1 => Field::Hex4,
        _ => Field::Hex2,
    }
}

#[tactic(auto, using(crate::specs::GrammarLaws::due_switch, crate::specs::GrammarLaws::due_plain_behind), unfolding(crate::specs::Grammar::due, crate::specs::Grammar::fields, crate::specs::Grammar::switches))]
fn due_plain(i: usize) -> Field
    ensures { result ≡ due Form.Plain i }
{
    match i {
        0..=5 => due_switch(i),
        6 => Field::Parameters,
        7 => Field::Octets,
        _ => Field::End,
    }
}

// What the word at place `i` of a setting is to be.
pub fn due(f: Form, i: usize) -> Field
    ensures { result ≡ due f i }
{
    match f {
        Form::Groups => due_groups(i),
        Form::Flow => due_flow(i),
        Form::Applications => due_applications(i),
        Form::Plain => due_plain(i),
    }
}

// Whether a line may end where a field is due.
#[tactic(auto, unfolding(crate::specs::Grammar::may_end))]
pub fn may_end(f: Field) -> bool
    ensures { result ≡ may_end f }
{
    matches!(f, Field::Selector | Field::Parameters | Field::End)
}
