// Lines of an end's settings, as docs/FORMATS.md fixes them.
#![tactic(auto)]

ghost use Rattle.std.specs.Prelude.{◌≡◌};
ghost use Rattle.words.specs.Text.{words};
ghost use Rattle.setup.specs.Setup.{settings_word, begins_settings, part_name, named, named_revision, control_of, setting_of, behind_max, behind_name, setting_line};

use grammar::{Field, Form, Name};
use lines::{Due, Kind, Parsed, Unread};
use tlv::Revision;

// The lines of an end's settings, the last of them for Rev 1.01 alone.
#[derive(Clone, Copy, Debug, PartialEq, Eq)]
pub enum Part {
    Control,
    Groups,
    Flow,
    Applications,
}

// The first word of a line of the settings.
#[tactic(auto, unfolding(crate::specs::Setup::part_name))]
pub fn part_name(p: Part) -> Name
    ensures { result ≡ part_name p }
{
    match p {
        Part::Control => Name::Control,
        Part::Groups => Name::Groups,
        Part::Flow => Name::Flow,
        Part::Applications => Name::Applications,
    }
}

// The words behind `control max N revision`.
#[tactic(auto, using(words::specs::WordsLaws::first_word_lem, words::specs::WordsLaws::other_words), unfolding(crate::specs::Setup::named_revision))]
fn named_revision(max: u8, s: &[u8]) -> Parsed
    ensures { result ≡ named_revision max (words s.now) }
{
    let w = words::word(s);
    let more = words::behind(s);
    if octets::same_octets(w, b"1.0") {
        lines::alone(Kind::Control(max, Revision::Rev10), 6, more)
    } else if octets::same_octets(w, b"1.01") {
        lines::alone(Kind::Control(max, Revision::Rev101), 6, more)
    } else {
        Err(Unread::Word(5, Due::Revision))
    }
}

// The words behind `control max N`. Where no revision is named it is 1.01.
#[tactic(auto, using(words::specs::WordsLaws::first_word_lem, words::specs::WordsLaws::other_words), unfolding(crate::specs::Setup::control_of))]
fn control_of(max: u8, s: &[u8]) -> Parsed
    ensures { result ≡ control_of max (words s.now) }
{
    if fields::is_over(s) {
        return Ok(lines::bare(Kind::Control(max, Revision::Rev101)));
    }
    named(Name::Revision, 4, words::word(s))?;
    named_revision(max, words::behind(s))
}

// The word at a place, which is to be a name.
fn named(n: Name, place: usize, w: &[u8]) -> Result<(), Unread>
    ensures { result ≡ named n place w.now }
{
    if fields::is_name(n, w) {
        Ok(())
    } else {
        Err(Unread::Word(place, Due::Field(Field::Word(n))))
    }
}

// The words behind `NAME max N`.
#[tactic(auto, unfolding(crate::specs::Setup::setting_of))]
fn setting_of(p: Part, max: u8, s: &[u8]) -> Parsed
    ensures { result ≡ setting_of p max (words s.now) }
{
    match p {
        Part::Control => control_of(max, s),
        Part::Groups => lines::feature(Form::Groups, 4, max, s),
        Part::Flow => lines::feature(Form::Flow, 4, max, s),
        Part::Applications => lines::feature(Form::Applications, 4, max, s),
    }
}

#[tactic(auto, using(words::specs::WordsLaws::first_word_lem, words::specs::WordsLaws::other_words), unfolding(crate::specs::Setup::behind_max, crate::specs::Setup::setting_max))]
fn behind_max(p: Part, s: &[u8]) -> Parsed
    ensures { result ≡ behind_max p (words s.now) }
{
    let due = Due::Field(Field::Decimal(255));
    let max = words::read_number(words::word(s), 255).ok_or(Unread::Word(3, due))?;
    setting_of(p, words::low(max), words::behind(s))
}

#[tactic(auto, using(words::specs::WordsLaws::first_word_lem, words::specs::WordsLaws::other_words), unfolding(crate::specs::Setup::behind_name))]
fn behind_name(p: Part, s: &[u8]) -> Parsed
    ensures { result ≡ behind_name p (words s.now) }
{
    named(Name::Max, 2, words::word(s))?;
    behind_max(p, words::behind(s))
}

// The line of the settings that is due (docs/FORMATS.md, Settings of one port).
#[tactic(auto, using(words::specs::WordsLaws::first_word_lem, words::specs::WordsLaws::other_words), unfolding(crate::specs::Setup::setting_line))]
pub fn parse_setting(due: Part, line: &[u8]) -> Parsed
    ensures { result ≡ setting_line due line.now }
{
    if words::LONGEST < line.len() {
        return Err(Unread::Long);
    }
    if lines::is_returned(line) {
        return Err(Unread::Return);
    }
    named(part_name(due), 1, words::word(line))?;
    behind_name(due, words::behind(line))
}

// Whether a word can begin a line behind a port's settings that is no event.
#[tactic(auto, unfolding(crate::specs::Setup::settings_word))]
fn is_settings_word(w: &[u8]) -> bool
    ensures { result ≡ settings_word w.now }
{
    fields::is_name(Name::Control, w) || fields::is_name(Name::Applications, w)
}

// Whether a line behind a port's settings, which may be an event, is one of settings.
#[tactic(auto, using(words::specs::WordsLaws::first_word_lem, words::specs::WordsLaws::other_words), unfolding(crate::specs::Setup::begins_settings, addressing::specs::Addressing::words_behind, addressing::specs::Addressing::port_word))]
pub fn begins_settings(line: &[u8]) -> bool
    ensures { result ≡ begins_settings line.now }
{
    match addressing::port_of(line) {
        Some(_) => is_settings_word(words::word(words::behind(line))),
        None => is_settings_word(words::word(line)),
    }
}
