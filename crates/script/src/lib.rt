// Lines of events, as docs/FORMATS.md fixes them.
#![tactic(auto)]

ghost use Rattle.std.specs.Prelude.{◌≡◌};
ghost use Rattle.words.specs.Text.{words, first};
ghost use Rattle.script.specs.Events.{numbered, keyword, flag_word, flag, write, form_of, change_of, event_of, is_frame, event_line};

use grammar::{Field, Form, Name};
use lines::{Due, Kind, Line, Parsed, Unread};
use port::Flag;

// The first word of an event that is no frame.
#[derive(Clone, Copy)]
pub enum Keyword {
    Gone,
    Take,
    Show,
    Set,
    Write,
    Flag(Flag),
    Frame,
    Other,
}

#[tactic(auto, unfolding(crate::specs::Events::keyword))]
fn keyword_of(w: &[u8]) -> Keyword
    ensures { result ≡ keyword w.now }
{
    if octets::same_octets(w, b"gone") {
        Keyword::Gone
    } else if octets::same_octets(w, b"take") {
        Keyword::Take
    } else if octets::same_octets(w, b"show") {
        Keyword::Show
    } else if octets::same_octets(w, b"set") {
        Keyword::Set
    } else if octets::same_octets(w, b"write") {
        Keyword::Write
    } else {
        flag_of(w)
    }
}

#[tactic(auto, unfolding(crate::specs::Events::flag_word))]
fn flag_of(w: &[u8]) -> Keyword
    ensures { result ≡ flag_word w.now }
{
    if octets::same_octets(w, b"admin") {
        Keyword::Flag(Flag::Admin)
    } else if octets::same_octets(w, b"receive") {
        Keyword::Flag(Flag::Receive)
    } else if octets::same_octets(w, b"transmit") {
        Keyword::Flag(Flag::Transmit)
    } else if octets::same_octets(w, b"several") {
        Keyword::Flag(Flag::Several)
    } else if octets::same_octets(w, b"B") {
        Keyword::Frame
    } else {
        Keyword::Other
    }
}

// A flag and its bit, which is the second word.
#[tactic(auto, using(words::specs::WordsLaws::first_word_lem, words::specs::WordsLaws::other_words), unfolding(crate::specs::Events::flag, crate::specs::Events::flag_bit))]
fn flag_line(x: Flag, s: &[u8]) -> Parsed
    ensures { result ≡ flag x (words s.now) }
{
    let due = Due::Field(Field::Bit);
    let on = fields::read_field(Field::Bit, words::word(s)).ok_or(Unread::Word(2, due))?;
    lines::alone(Kind::Flag(x, on == 1), 3, words::behind(s))
}

// `write ROOM`
#[tactic(auto, using(words::specs::WordsLaws::first_word_lem, words::specs::WordsLaws::other_words), unfolding(crate::specs::Events::write, crate::specs::Events::write_room))]
fn write_line(s: &[u8]) -> Parsed
    ensures { result ≡ write (words s.now) }
{
    let due = Due::Field(Field::Decimal(1000));
    let room = words::read_number(words::word(s), 1000).ok_or(Unread::Word(2, due))?;
    lines::alone(Kind::Write(room), 3, words::behind(s))
}

// The feature that `set` names; any other word is its number.
#[tactic(auto, unfolding(crate::specs::Events::form_of))]
fn form_of(w: &[u8]) -> Form
    ensures { result ≡ form_of w.now }
{
    if fields::is_name(Name::Groups, w) {
        Form::Groups
    } else if fields::is_name(Name::Flow, w) {
        Form::Flow
    } else if fields::is_name(Name::Applications, w) {
        Form::Applications
    } else {
        Form::Plain
    }
}

// `set NUMBER` and the words behind it.
#[tactic(auto, unfolding(crate::specs::Events::numbered))]
fn numbered(number: Option<usize>, s: &[u8]) -> Parsed
    ensures { result ≡ numbered number (words s.now) }
{
    let n = number.ok_or(Unread::Word(2, Due::Feature))?;
    lines::plain(words::low(n), s)
}

#[tactic(auto, using(words::specs::WordsLaws::first_word_lem, words::specs::WordsLaws::other_words), unfolding(crate::specs::Events::change_of))]
fn change(s: &[u8]) -> Parsed
    ensures { result ≡ change_of (form_of (first (words s.now))) (words s.now) }
{
    let w = words::word(s);
    let more = words::behind(s);
    match form_of(w) {
        Form::Groups => lines::feature(Form::Groups, 3, 2, more),
        Form::Flow => lines::feature(Form::Flow, 3, 3, more),
        Form::Applications => lines::feature(Form::Applications, 3, 4, more),
        Form::Plain => numbered(words::read_number(w, 255), more),
    }
}

// An event that is no frame, by its first word.
#[tactic(auto, unfolding(crate::specs::Events::event_of))]
fn event_of(k: Keyword, s: &[u8]) -> Parsed
    ensures { result ≡ event_of k (words s.now) }
{
    match k {
        Keyword::Gone => lines::alone(Kind::Gone, 2, s),
        Keyword::Take => lines::alone(Kind::Take, 2, s),
        Keyword::Show => lines::alone(Kind::Show, 2, s),
        Keyword::Set => change(s),
        Keyword::Write => write_line(s),
        Keyword::Flag(x) => flag_line(x, s),
        Keyword::Frame => Err(Unread::Word(2, Due::Frame)),
        Keyword::Other => Err(Unread::Word(1, Due::Event)),
    }
}

// Whether a line is a capture's, of an arriving frame.
#[tactic(auto, unfolding(crate::specs::Events::is_frame))]
pub fn is_frame(s: &[u8]) -> bool
    ensures { result ≡ is_frame s.now }
{
    octets::same_octets(octets::first(s, 2), b"B ") && words::is_octets(octets::from(s, 2), 513)
}

// An event of `desk` (docs/FORMATS.md, Events).
#[tactic(auto, using(words::specs::WordsLaws::first_word_lem, words::specs::WordsLaws::other_words), unfolding(crate::specs::Events::event_line, lines::specs::Lines::line_of))]
pub fn parse_event(line: &[u8]) -> Parsed
    ensures { result ≡ event_line line.now }
{
    if words::LONGEST < line.len() {
        return Err(Unread::Long);
    }
    if lines::is_returned(line) {
        return Err(Unread::Return);
    }
    if is_frame(line) {
        return Ok(Line {
            kind: Kind::Frame,
            octets: words::frame_of(line),
        });
    }
    event_of(keyword_of(words::word(line)), words::behind(line))
}
