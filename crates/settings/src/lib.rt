// The settings of ports, four lines each, three for Rev 1.0, which make a recorder; and programs that begin with settings.
#![tactic(auto)]

ghost use Rattle.std.specs.Prelude.{◌≡◌, IfOk, is_some};
ghost use Rattle.tlv.specs.Revisions.{has_applications};

pub mod captures;
pub mod program;
pub mod wrong;

use console::Input;
use faults::Fault;
use feature::Switches;
use grammar::{Field, Name};
use lines::{Due, Kind, Line, Unread};
use parameters::Feature;
use port::{Event, Port, Versions};
use printing::Output;
use recorder::Recorder;
use setup::Part;
use tlv::{Refusal, Revision};
use words::Held;
use wrong::{Invalid, Wrong};

// A feature's setting, with the number of its line.
#[derive(Clone, Copy)]
pub struct Setting {
    pub number: u64,
    pub max: u8,
    pub switches: Switches,
    pub octets: Held<513>,
}

// What a control line says: the port that it begins with, if it does, the highest version and the revision; with the number of the
// line.
#[derive(Clone, Copy)]
pub struct Head {
    pub number: u64,
    pub port: Option<u8>,
    pub max: u8,
    pub revision: Revision,
}

// The settings of a port, for Rev 1.0 without applications.
#[derive(Clone, Copy)]
pub struct Settings {
    pub control: Head,
    pub groups: Setting,
    pub flow: Setting,
    pub applications: Option<Setting>,
}

// The settings of two ends.
#[derive(Clone, Copy)]
pub struct Pair {
    pub a: Settings,
    pub b: Settings,
}

// A line that was read as the one due: its number, the port that it begins with, and what it says.
#[derive(Clone, Copy)]
struct Read {
    number: u64,
    port: Option<u8>,
    line: Line,
}

impl Head {
    // What a control line says, which is of no other kind.
    fn of(read: Read) -> Head {
        let (max, revision) = match read.line.kind {
            Kind::Control(max, revision) => (max, revision),
            _ => (0, Revision::Rev101),
        };
        Head {
            number: read.number,
            port: read.port,
            max,
            revision,
        }
    }
}

const OFF: Switches = Switches {
    advertise: false,
    enable: false,
    willing: false,
};

impl Setting {
    // What a feature's line sets, which is of no other kind.
    fn of(read: Read) -> Setting {
        let (max, switches) = match read.line.kind {
            Kind::Setting { number, switches } => (number, switches),
            _ => (0, OFF),
        };
        Setting {
            number: read.number,
            max,
            switches,
            octets: read.line.octets,
        }
    }

    // Why the setting of a feature is invalid.
    fn invalid(&self, f: Feature) -> Option<Invalid> {
        let why = faults::fault_of(f, self.octets.as_slice())?;
        Some(Invalid {
            line: self.number,
            why,
        })
    }
}

// A line behind the control has to name its port, `of`.
fn check_port(of: Option<u8>, port: Option<u8>, line: u64) -> Result<(), Wrong> {
    match of {
        Some(due) if due != addressing::port_meant(port) => Err(Wrong::OtherPort { line, due }),
        _ => Ok(()),
    }
}

// The next line, read as the one that is due. What is wrong with it as a whole is said first, then its port, then its words.
fn read_line(input: &mut Input, due: Part, ports: bool, of: Option<u8>) -> Result<Read, Wrong> {
    let Some(found) = input.next_line() else {
        return Err(Wrong::missing(input, due));
    };
    let number = found.number;
    let line = input.line(found);
    let port = if ports {
        addressing::port_of(line)
    } else {
        None
    };
    let said = setup::parse_setting(due, addressing::behind_port(line, port));
    if !matches!(said, Err(Unread::Long | Unread::Return)) {
        check_port(of, port, number)?;
    }
    let line = said.map_err(|why| Wrong::Unread {
        line: number,
        port,
        why,
    })?;
    Ok(Read { number, port, line })
}

fn read_control(input: &mut Input, ports: bool) -> Result<Head, Wrong> {
    let read = read_line(input, Part::Control, ports, None)?;
    Ok(Head::of(read))
}

fn read_setting(input: &mut Input, due: Part, ports: bool, of: u8) -> Result<Setting, Wrong> {
    let read = read_line(input, due, ports, Some(of))?;
    Ok(Setting::of(read))
}

// The lines behind the control, applications for Rev 1.01 alone.
fn read_rest(input: &mut Input, control: Head, ports: bool) -> Result<Settings, Wrong>
    ensures { IfOk result (λ s. is_some s.applications ≡ has_applications s.control.revision) }
{
    let port = addressing::port_meant(control.port);
    let groups = read_setting(input, Part::Groups, ports, port)?;
    let flow = read_setting(input, Part::Flow, ports, port)?;
    let applications = if tlv::has_applications(control.revision) {
        Some(read_setting(input, Part::Applications, ports, port)?)
    } else {
        None
    };
    Ok(Settings {
        control,
        groups,
        flow,
        applications,
    })
}

// Reads the lines of a port, up to one that cannot be read. Lines may begin with their port only where `ports` says so.
pub fn read_port(input: &mut Input, ports: bool) -> Result<Settings, Wrong>
    ensures { IfOk result (λ s. is_some s.applications ≡ has_applications s.control.revision) }
{
    let control = read_control(input, ports)?;
    read_rest(input, control, ports)
}

// What is wrong where a port may not have had its settings before: of one that had, that is said of its control line, unless that
// line as a whole or its first word is not the one that is due.
fn but_again(wrong: Wrong, seen: &[bool; 256]) -> Wrong {
    match wrong {
        Wrong::Unread {
            line,
            port,
            why: Unread::Word(word, _),
        } if word != 1 && seen[usize::from(addressing::port_meant(port))] => Wrong::Again { line },
        _ => wrong,
    }
}

// Reads the lines of a port that had none before.
fn read_new_port(input: &mut Input, seen: &[bool; 256]) -> Result<Settings, Wrong>
    ensures { IfOk result (λ s. is_some s.applications ≡ has_applications s.control.revision) }
{
    let control = read_control(input, true).map_err(|wrong| but_again(wrong, seen))?;
    let read = read_rest(input, control, true);
    if !seen[usize::from(addressing::port_meant(control.port))] {
        return read;
    }
    match read {
        Err(Wrong::Failed) => Err(Wrong::Failed),
        _ => Err(Wrong::Again {
            line: control.number,
        }),
    }
}

// The first line whose setting is invalid.
pub fn first_invalid(s: Settings) -> Option<Invalid> {
    let of_groups = s.groups.invalid(Feature::Groups);
    let of_flow = s.flow.invalid(Feature::Flow);
    let of_applications = s
        .applications
        .and_then(|a| a.invalid(Feature::Applications));
    of_groups.or(of_flow).or(of_applications)
}

// Creates the port of the settings in the place of `p`.
pub fn create(p: Port, s: Settings) -> Event {
    let none = Setting {
        number: 0,
        max: 0,
        switches: OFF,
        octets: Held::none(),
    };
    let applications = s.applications.unwrap_or(none);
    let versions = Versions {
        revision: s.control.revision,
        control: s.control.max,
        groups: s.groups.max,
        flow: s.flow.max,
        applications: applications.max,
    };
    recorder::create(
        addressing::port_meant(s.control.port),
        p,
        versions,
        s.groups.switches,
        s.groups.octets.as_slice(),
        s.flow.switches,
        s.flow.octets.as_slice(),
        applications.switches,
        applications.octets.as_slice(),
    )
}

// What is wrong with the settings of a port that is refused: its first line where no port has its number.
fn refusal_of(s: Settings, why: Refusal) -> Wrong {
    let line = s.control.number;
    match first_invalid(s) {
        Some(invalid) if why != Refusal::NoPort => Wrong::Invalid(invalid),
        _ => Wrong::Refused { line, why },
    }
}

// Whether the settings of another port follow: the line that begins them, or the first event, is looked at, and stays the next.
// Where settings stand alone, no line behind them is an event.
fn more_follow(input: &mut Input, alone: bool) -> bool {
    let Some(found) = input.next_line() else {
        return false;
    };
    let begins = setup::begins_settings(input.line(found));
    input.put_back(found);
    alone || begins
}

// What is wrong with a line where none may stand: what is as a whole, or else its first word.
fn not_due(line: &[u8]) -> Unread {
    match setup::parse_setting(Part::Control, line) {
        Err(Unread::Long) => Unread::Long,
        Err(Unread::Return) => Unread::Return,
        _ => Unread::Word(1, Due::Field(Field::Word(Name::Control))),
    }
}

// Where settings stand alone, only comments and empty lines may stand behind them.
fn check_end(input: &mut Input, alone: bool) -> Result<(), Wrong> {
    if !alone {
        return Ok(());
    }
    match input.next_line() {
        Some(found) => Err(Wrong::Unread {
            line: found.number,
            port: None,
            why: not_due(input.line(found)),
        }),
        None if input.has_failed() => Err(Wrong::Failed),
        None => Ok(()),
    }
}

fn check(s: Settings) -> Result<(), Wrong> {
    match first_invalid(s) {
        Some(invalid) => Err(Wrong::Invalid(invalid)),
        None => Ok(()),
    }
}

// Reads the settings of one end. `alone` says that nothing may stand behind them.
pub fn read_single(input: &mut Input, alone: bool) -> Result<Settings, Wrong>
    ensures { IfOk result (λ s. is_some s.applications ≡ has_applications s.control.revision) }
{
    let end = read_port(input, false)?;
    check_end(input, alone)?;
    check(end)?;
    Ok(end)
}

// Reads the settings of A, and then of B. `alone` says that nothing may stand behind them.
pub fn read_pair(input: &mut Input, alone: bool) -> Result<Pair, Wrong> {
    let a = read_port(input, false)?;
    let b = read_port(input, false)?;
    check_end(input, alone)?;
    check(a)?;
    check(b)?;
    Ok(Pair { a, b })
}

// The port of the settings, just created; they are valid.
pub fn port_with(s: Settings) -> Port {
    create(creation::blank(), s).port
}

// Reads the settings of ports, creates them and puts the answers, none of which has a notice; behind the settings the events begin.
// All lines are read, and what is wrong with one counts before a port that is refused. A port comes once, so 257 turns are enough.
pub fn read_recorder(input: &mut Input, page: &mut Output, alone: bool) -> Result<Recorder, Wrong> {
    let mut made = recorder::blank();
    let mut seen = [false; 256];
    let mut refused = None;
    for _ in 0..257 {
        let s = read_new_port(input, &seen)?;
        let port = addressing::port_meant(s.control.port);
        seen[usize::from(port)] = true;
        let e = create(made.ports[recorder::place_of(port)], s);
        made = recorder::store(made, port, e);
        match e.answer {
            Ok(send) => {
                report::ports::first(page, s.control.port);
                report::answers::done(page, send, 0);
            }
            Err(rejection) => refused = refused.or(Some(refusal_of(s, rejection.why))),
        }
        if !more_follow(input, alone) {
            break;
        }
    }
    if input.has_failed() {
        return Err(Wrong::Failed);
    }
    match refused {
        Some(wrong) => Err(wrong),
        None => Ok(made),
    }
}
