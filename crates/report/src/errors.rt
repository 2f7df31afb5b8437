// What is wrong with a line: the word that is not what is due, or the reason of refusal 9.
use faults::Fault;
use grammar::{Field, Name};
use lines::{Due, Unread};
use printing::Output;

// `WHAT is due`, of a word of a setting
fn field_due(page: &mut Output, f: Field) {
    match f {
        Field::Word(n) => {
            page.text(fields::name_text(n));
            page.text(b" is due\n");
        }
        Field::Bit => page.text(b"a bit is due\n"),
        Field::Decimal(limit) => {
            page.field(b"a number up to ", u64::from(limit));
            page.text(b" is due\n");
        }
        Field::Hex2 => page.text(b"two hex digits are due\n"),
        Field::Hex4 => page.text(b"four hex digits are due\n"),
        Field::Selector => page.text(b"a selector is due\n"),
        Field::Parameters => page.text(b"parameters is due\n"),
        Field::Octets => page.text(b"octets are due\n"),
        Field::End => page.text(b"the end of the line is due\n"),
    }
}

// `WHAT is due`
fn due(page: &mut Output, d: Due) {
    match d {
        Due::Field(f) => field_due(page, f),
        Due::Event => page.text(b"an event is due\n"),
        Due::Feature => page.text(b"a feature is due\n"),
        Due::Frame => page.text(b"a frame is due\n"),
        Due::Revision => page.text(b"1.0 or 1.01 is due\n"),
    }
}

// `error N`, or `bad settings: line N` for a line of the settings
fn line_head(page: &mut Output, setting: bool, line: u64) {
    if setting {
        page.field(b"bad settings: line ", line);
    } else {
        page.field(b"error ", line);
    }
}

// `error N: word W: `, or `bad settings: line N, word W: `
fn word_head(page: &mut Output, setting: bool, line: u64, word: u64) {
    line_head(page, setting, line);
    page.text(if setting { b", " } else { b": " });
    page.field(b"word ", word);
    page.text(b": ");
}

// Why a line, an event or a setting, cannot be read. A port in front is a word more.
pub fn unread(page: &mut Output, setting: bool, line: u64, port: Option<u8>, why: Unread) {
    match why {
        Unread::Long => {
            line_head(page, setting, line);
            page.text(b": longer than 1100 octets\n");
        }
        Unread::Return => {
            line_head(page, setting, line);
            page.text(b": ends with a carriage return\n");
        }
        Unread::Word(n, d) => {
            let word = (n as u64).wrapping_add(u64::from(port.is_some()));
            word_head(page, setting, line, word);
            due(page, d);
        }
    }
}

// A line of the settings that is missing.
pub fn missing(page: &mut Output, line: u64, name: Name) {
    word_head(page, true, line, 1);
    due(page, Due::Field(Field::Word(name)));
}

// A line of the settings for another port than the one due.
pub fn port_due(page: &mut Output, line: u64, port: u8) {
    line_head(page, true, line);
    page.field(b", word 1: port ", u64::from(port));
    page.text(b" is due\n");
}

// The settings of a port that had them before.
pub fn another_due(page: &mut Output, line: u64) {
    line_head(page, true, line);
    page.text(b", word 1: another port is due\n");
}

// Why a setting is invalid.
fn reason(page: &mut Output, f: Fault) {
    match f {
        Fault::Length(n, due) => {
            page.number(n as u64);
            page.field(b" octets, not ", due as u64);
        }
        Fault::Ragged(n) => {
            page.number(n as u64);
            page.text(b" octets, not a multiple of 6");
        }
        Fault::Group(p, g) => {
            page.field(b"priority ", p as u64);
            page.field(b" has group ", u64::from(g));
        }
        Fault::Sum(n) => page.field(b"the percentages sum to ", n as u64),
        Fault::Classes(n) => {
            page.number(u64::from(n));
            page.text(b" classes");
        }
        Fault::Ones(n, m) => {
            page.number(u64::from(n));
            page.field(b" ones in the mask, ", u64::from(m));
            page.text(b" classes");
        }
        Fault::Entries(n) => {
            page.number(n as u64);
            page.text(b" entries");
        }
        Fault::Foreign(i) => {
            page.field(b"entry ", i as u64);
            page.text(b" is foreign");
        }
        Fault::Again(i, j) => {
            page.field(b"entries ", i as u64);
            page.field(b" and ", j as u64);
            page.text(b" have the same selector and id");
        }
        Fault::Selector(i, x) => {
            page.field(b"entry ", i as u64);
            page.field(b" has selector ", u64::from(x));
        }
    }
    page.text(b"\n");
}

// `refused 9 invalid-setting: WHY`
pub fn invalid(page: &mut Output, f: Fault) {
    page.text(b"refused 9 invalid-setting: ");
    reason(page, f);
}

// `bad settings: line N: refused 9 invalid-setting: WHY`
pub fn invalid_setting(page: &mut Output, line: u64, f: Fault) {
    line_head(page, true, line);
    page.text(b": ");
    invalid(page, f);
}
