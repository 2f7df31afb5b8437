// What a line of one end's capture says, and what is judged behind it (02, E12).
#![tactic(auto)]

ghost use Rattle.std.specs.Prelude.{◌≡◌};
ghost use Rattle.capture.specs.Capture.{frame_of};
ghost use Rattle.numerals.specs.Numerals.{more};
ghost use Rattle.script.specs.Events.{event_line};
ghost use Rattle.judgement.specs.Entries.{told_by, change_on};
ghost use Rattle.judgement.specs.Courses.{since_by, taken_by, sent_on, given_on, changed_on, passed_on};
ghost use Rattle.judgement.specs.Steps.{rejected_with, unjudged, with_entry, with_line as judged_with_line};
ghost use Rattle.judgement.specs.Clips.{with_clipped};

use capture::{Form, Lines};
use lines::Kind;
use port::{Answer, Port};
use recorder::Change;
use words::Held;

// Lines by their kind: frames that the end sent and was given, changes, and lines that are passed over. `since` is the last line
// behind which the port wrote otherwise than before, `taken` the last whose frame or change it took; 0 stands for its creation. No
// number goes above 2^64 - 1: it stays there.
#[derive(Clone, Copy, Debug, PartialEq, Eq)]
pub struct Course {
    pub lines: u64,
    pub sent: u64,
    pub given: u64,
    pub changes: u64,
    pub passed: u64,
    pub since: u64,
    pub taken: u64,
}

// The port, and what was judged. Where a frame is rejected it is kept; the port and the course are those before its line, and no
// line behind it is looked at.
#[derive(Clone, Copy)]
pub struct Judged {
    pub port: Port,
    pub course: Course,
    pub rejected: Option<Rejected>,
}

// A frame that is not due, with the place of its first difference.
#[derive(Clone, Copy, Debug, PartialEq, Eq)]
pub struct Rejected {
    pub place: usize,
    pub frame: Held<513>,
}

// ---- changes

// What a line of `desk` changes, if it does.
#[tactic(auto, unfolding(crate::specs::Entries::told_by))]
pub fn told_by(k: Kind) -> Option<Change>
    ensures { result ≡ told_by k }
{
    match k {
        Kind::Gone => Some(Change::PeerGone),
        Kind::Flag(f, on) => Some(Change::Flag(f, on)),
        Kind::Setting { number, switches } => Some(Change::Setting(number, switches)),
        Kind::Control(_, _) | Kind::Frame | Kind::Write(_) | Kind::Take | Kind::Show => None,
    }
}

// ---- the course of the lines

#[tactic(auto, unfolding(crate::specs::Courses::since_by))]
fn since(a: Answer, line: u64, before: u64) -> u64
    ensures { result ≡ since_by a line before }
{
    match a {
        Ok(true) => line,
        _ => before,
    }
}

#[tactic(auto, unfolding(crate::specs::Courses::taken_by))]
fn taken(a: Answer, line: u64, before: u64) -> u64
    ensures { result ≡ taken_by a line before }
{
    match a {
        Ok(_) => line,
        Err(_) => before,
    }
}

#[tactic(auto, unfolding(crate::specs::Courses::sent_on))]
pub fn with_sent(c: Course) -> Course
    ensures { result ≡ sent_on more c }
{
    Course {
        lines: numerals::more(c.lines),
        sent: numerals::more(c.sent),
        ..c
    }
}

#[tactic(auto, unfolding(crate::specs::Courses::given_on))]
pub fn with_given(c: Course, a: Answer) -> Course
    ensures { result ≡ given_on more a c }
{
    let lines = numerals::more(c.lines);
    Course {
        lines,
        given: numerals::more(c.given),
        since: since(a, lines, c.since),
        taken: taken(a, lines, c.taken),
        ..c
    }
}

#[tactic(auto, unfolding(crate::specs::Courses::changed_on))]
pub fn with_change(c: Course, a: Answer) -> Course
    ensures { result ≡ changed_on more a c }
{
    let lines = numerals::more(c.lines);
    Course {
        lines,
        changes: numerals::more(c.changes),
        since: since(a, lines, c.since),
        taken: taken(a, lines, c.taken),
        ..c
    }
}

#[tactic(auto, unfolding(crate::specs::Courses::passed_on))]
pub fn with_passed(c: Course) -> Course
    ensures { result ≡ passed_on more c }
{
    Course {
        lines: numerals::more(c.lines),
        passed: numerals::more(c.passed),
        ..c
    }
}

// ---- what was judged

// Before the first line.
#[tactic(auto, unfolding(crate::specs::Steps::unjudged))]
pub fn unjudged(port: Port) -> Judged
    ensures { result ≡ unjudged port }
{
    Judged {
        port,
        course: Course {
            lines: 0,
            sent: 0,
            given: 0,
            changes: 0,
            passed: 0,
            since: 0,
            taken: 0,
        },
        rejected: None,
    }
}

// Keeps the frame of a line, which is not due.
#[tactic(auto, unfolding(crate::specs::Steps::rejected_with))]
pub fn reject(t: &mut Judged, place: usize, line: &[u8])
    ensures { t.new ≡ rejected_with t.old place (frame_of line.now) }
{
    let frame = words::frame_of(line);
    t.rejected = Some(Rejected { place, frame });
}

// A line that is no frame: a change, or passed over.
fn take_other(t: &mut Judged, line: &[u8])
    ensures { t.new ≡ with_entry t.old (change_on (event_line line.now)) }
{
    if let Ok(l) = script::parse_event(line) {
        if let Some(x) = told_by(l.kind) {
            let e = inspection::change(t.port, x, &l);
            t.course = with_change(t.course, e.answer);
            t.port = e.port;
            return;
        }
    }
    t.course = with_passed(t.course);
}

// ---- lines as they end

// The port stays where it is: only a line that is given to it moves it.
impl Lines for Judged {
    ghost with_line = { judged_with_line };

    fn take_line(&mut self, line: &[u8]) {
        if self.rejected.is_some() {
            return;
        }
        match capture::form_of(line) {
            Form::FromA => match comparison::compare(&self.port, line) {
                None => self.course = with_sent(self.course),
                Some(place) => reject(self, place, line),
            },
            Form::FromB => {
                let e = inspection::handle(self.port, line);
                self.course = with_given(self.course, e.answer);
                self.port = e.port;
            }
            Form::Other => take_other(self, line),
        }
    }

    ghost long = { with_clipped };
}
