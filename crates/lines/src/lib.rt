// What a line says, or why it cannot be read; and the words that settings and events share, as docs/FORMATS.md fixes them.
#![tactic(auto)]

ghost use Rattle.std.specs.Prelude.{◌≡◌, ◌≤◌, ◌<◌, ◌+◌};
ghost use Rattle.words.specs.Text.{words};
ghost use Rattle.lines.specs.Lines.{returned, bare, undue, setting_kind, feature, plain, alone};

use feature::Switches;
use fields::Undue;
use grammar::{Field, Form};
use port::Flag;
use tlv::Revision;
use words::Held;

// What is due at a word: a field of the line's form, an event's first word, the feature behind `set`, the frame behind `B`, or the
// name of a revision.
#[derive(Clone, Copy, Debug, PartialEq, Eq)]
pub enum Due {
    Field(Field),
    Event,
    Feature,
    Frame,
    Revision,
}

// Why a line cannot be read: it is too long, it ends with a carriage return, or a word is not what is due. That is the first such
// word, counted from 1; a word that is missing has the number behind the last.
#[derive(Clone, Copy, Debug, PartialEq, Eq)]
pub enum Unread {
    Long,
    Return,
    Word(usize, Due),
}

// What a line says. `number` is the highest version in a line of the settings, and the feature's number in an event.
#[derive(Clone, Copy)]
pub enum Kind {
    Control(u8, Revision),
    Setting { number: u8, switches: Switches },
    Frame,
    Gone,
    Flag(Flag, bool),
    Write(usize),
    Take,
    Show,
}

// A line that was read: what it says, and the octets of its frame or parameters.
#[derive(Clone, Copy)]
pub struct Line {
    pub kind: Kind,
    pub octets: Held<513>,
}

// A line, or why it cannot be read.
pub type Parsed = Result<Line, Unread>;

// A line without octets.
#[tactic(auto, unfolding(crate::specs::Lines::line_of))]
pub fn bare(kind: Kind) -> Line
    ensures { result ≡ bare kind }
{
    Line {
        kind,
        octets: Held::none(),
    }
}

#[tactic(auto, unfolding(crate::specs::Lines::setting_kind))]
fn setting_kind(number: u8, v: &[usize; 58]) -> Kind
    ensures { result ≡ setting_kind number v.now }
{
    let switches = Switches {
        advertise: v[1] == 1,
        enable: v[3] == 1,
        willing: v[5] == 1,
    };
    Kind::Setting { number, switches }
}

// The word of a setting that is not what is due, where `advertise` is the word with a number.
fn undue(word: usize, u: Undue) -> Unread
    requires { word + u.read.place < 1000 }
    ensures { result ≡ undue word u }
{
    Unread::Word(word + u.read.place, Due::Field(u.due))
}

// The words of a setting from `advertise` on, which is the word with a number: the fifth at most, hence the `requires`, so that no
// place wraps.
#[tactic(auto, unfolding(crate::specs::Lines::feature, crate::specs::Lines::setting_with, crate::specs::Lines::line_of, fields::specs::Fields::parameters_of))]
pub fn feature(f: Form, word: usize, number: u8, s: &[u8]) -> Parsed
    requires { word ≤ 4 }
    ensures { result ≡ feature f word number (words s.now) }
{
    let v = match fields::read_form(f, s) {
        Ok(v) => v,
        Err(u) => return Err(undue(word, u)),
    };
    let n = fields::parameter_count(f, v.place);
    Ok(Line {
        kind: setting_kind(number, &v.numbers),
        octets: fields::parameters(f, n, &v.numbers),
    })
}

// The words behind `set NUMBER`, the parameters as octets, which may be missing.
#[tactic(auto, unfolding(crate::specs::Lines::plain, crate::specs::Lines::setting_with, crate::specs::Lines::line_of))]
pub fn plain(number: u8, s: &[u8]) -> Parsed
    ensures { result ≡ plain number (words s.now) }
{
    let v = match fields::read_form(Form::Plain, s) {
        Ok(v) => v,
        Err(u) => return Err(undue(3, u)),
    };
    Ok(Line {
        kind: setting_kind(number, &v.numbers),
        octets: words::octets_of(words::word_at(s, 7)),
    })
}

// A line that ends before the word with a number.
#[tactic(auto, unfolding(crate::specs::Lines::alone))]
pub fn alone(kind: Kind, word: usize, s: &[u8]) -> Parsed
    ensures { result ≡ alone kind word (words s.now) }
{
    if fields::is_over(s) {
        Ok(bare(kind))
    } else {
        Err(Unread::Word(word, Due::Field(Field::End)))
    }
}

// Whether the last octet is a carriage return.
#[tactic(auto, unfolding(crate::specs::Lines::returned))]
pub fn is_returned(line: &[u8]) -> bool
    ensures { result ≡ returned line.now }
{
    line.last() == Some(&13)
}
