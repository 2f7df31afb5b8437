// Will two ends agree? Reads the settings of A and of B, runs rounds until both ends are settled, and reports (docs/FORMATS.md).
#![tactic(auto)]

use console::Input;
use console::streams::Streams;
use feature::State;
use notices::Log;
use parameters::Feature;
use port::Port;
use printing::Output;
use rounds::Pair;
use settings::program;
use settings::program::Program;
use settings::wrong::Wrong;
use std::fmt;
use tlv::Revision;

// Six rounds are always enough (02, E5; exchange/specs/Demand3.antt).
const ROUNDS: u64 = 6;

// The number of the port at each end.
const PORT: u8 = 1;

// An end of a cable, with a log of its own.
#[derive(Clone, Copy)]
struct End {
    port: Port,
    log: Log,
}

// Two ends of a cable after so many rounds.
#[derive(Clone, Copy)]
struct Ends {
    a: End,
    b: End,
    rounds: u64,
}

// One round between the two ends.
fn round(a: Port, b: Port) -> Pair {
    let mut from_a = [0; 147];
    let mut from_b = [0; 147];
    rounds::round(a, b, &mut from_a, &mut from_b)
}

// The ends after one more round; what each raised stands in its log.
fn behind_round(a: End, b: End, rounds: u64) -> Ends {
    let p = round(a.port, b.port);
    Ends {
        a: End {
            port: p.left,
            log: logging::keep(a.log, PORT, p.of_left),
        },
        b: End {
            port: p.right,
            log: logging::keep(b.log, PORT, p.of_right),
        },
        rounds,
    }
}

fn created(port: Port) -> End {
    End {
        port,
        log: notices::empty(),
    }
}

// Rounds until both ends are settled; both settled means agreed (exchange/specs/Demand3.antt, `agrees`).
fn settle(a: Port, b: Port) -> Ends {
    let mut ends = Ends {
        a: created(a),
        b: created(b),
        rounds: 0,
    };
    for before in 0..ROUNDS {
        if rounds::settled(ends.a.port, ends.b.port) {
            break;
        }
        ends = behind_round(ends.a, ends.b, before + 1);
    }
    ends
}

// The ends that do not advertise a feature.
#[derive(Clone, Copy, Debug, PartialEq, Eq)]
enum Silent {
    A,
    B,
    Both,
}

impl fmt::Display for Silent {
    fn fmt<W: fmt::Write>(&self, f: &mut fmt::Formatter<W>) -> fmt::Result {
        match self {
            Silent::A => write!(f, "A"),
            Silent::B => write!(f, "B"),
            Silent::Both => write!(f, "A and B"),
        }
    }
}

// What came of a feature between two ends: it is exchanged and agreed, or exchanged and still open; or some end does not advertise
// it, and then what the ends run fits or not.
#[derive(Clone, Copy, Debug, PartialEq, Eq)]
enum Told {
    Agreed,
    Open,
    Silent { at: Silent, fits: bool },
}

fn silent_ends(a: bool, b: bool) -> Option<Silent> {
    match (a, b) {
        (true, true) => None,
        (false, true) => Some(Silent::A),
        (true, false) => Some(Silent::B),
        (false, false) => Some(Silent::Both),
    }
}

fn fits(f: Feature, x: State, y: State) -> bool {
    let p = feature::configuration(x);
    let q = feature::configuration(y);
    config::compatible(f, p.content(), q.content())
}

fn outcome(f: Feature, x: State, y: State) -> Told {
    match silent_ends(x.setting.advertise, y.setting.advertise) {
        Some(at) => Told::Silent {
            at,
            fits: fits(f, x, y),
        },
        None if x.outcome.mode && y.outcome.mode => Told::Agreed,
        None => Told::Open,
    }
}

// Of applications there is nothing to tell between two ends of Rev 1.0.
fn on_applications(a: Port, b: Port) -> Told {
    if tlv::has_applications(a.revision) || tlv::has_applications(b.revision) {
        return outcome(Feature::Applications, a.applications, b.applications);
    }
    Told::Agreed
}

// ` FEATURE at ENDS (FITS)`, for each feature that is not exchanged, parted by commas.
fn silent_features(page: &mut Output, told: &[(Feature, Told); 3]) {
    let mut part = "";
    for (feature, t) in told {
        if let Told::Silent { at, fits } = t {
            let fits = if *fits { "fits" } else { "does not fit" };
            write!(page, "{part} {feature} at {at} ({fits})");
            part = ",";
        }
    }
}

// `agreed after N rounds`, `not agreed after N rounds: FEATURES`, and behind it or alone the features that are not exchanged
fn first_line(page: &mut Output, rounds: u64, told: &[(Feature, Told); 3]) {
    let open = told.iter().any(|(_, t)| *t == Told::Open);
    let silent = told.iter().any(|(_, t)| matches!(t, Told::Silent { .. }));
    if open {
        page.field(b"not agreed after ", rounds);
        page.text(b" rounds:");
        for (feature, t) in told {
            if *t == Told::Open {
                write!(page, " {feature}");
            }
        }
        if silent {
            write!(page, "; not exchanged:");
        }
    } else if silent {
        page.field(b"not exchanged after ", rounds);
        page.text(b" rounds:");
    } else {
        page.field(b"agreed after ", rounds);
        page.text(b" rounds");
    }
    silent_features(page, told);
    writeln!(page);
}

// The first line on two ends.
fn compare(page: &mut Output, rounds: u64, a: Port, b: Port) {
    let told = [
        (
            Feature::Groups,
            outcome(Feature::Groups, a.groups, b.groups),
        ),
        (Feature::Flow, outcome(Feature::Flow, a.flow, b.flow)),
        (Feature::Applications, on_applications(a, b)),
    ];
    first_line(page, rounds, &told);
}

// What an end has come to; each line begins with its name. An end of Rev 1.0 has no line on applications.
fn end_lines(page: &mut Output, name: &str, e: End) {
    let p = e.port;
    let lead = name.as_bytes();
    page.text(lead);
    page.field(b"control version ", u64::from(p.control.oper));
    writeln!(page, "{}", report::states::revision_words(p.revision));
    report::states::feature_line(page, lead, Feature::Groups, &p.groups);
    report::states::feature_line(page, lead, Feature::Flow, &p.flow);
    if tlv::has_applications(p.revision) {
        report::states::feature_line(page, lead, Feature::Applications, &p.applications);
    }
    report::states::notice_lines(page, lead, &e.log, PORT);
}

// The whole report.
fn report_on(page: &mut Output, e: Ends) {
    compare(page, e.rounds, e.a.port, e.b.port);
    end_lines(page, "A ", e.a);
    end_lines(page, "B ", e.b);
}

struct Comparing;

impl Program for Comparing {
    const NAME: &'static str = "pair";

    const USAGE: &'static str = "usage: pair [FILE]

Will two boxes agree? The settings of A, then those of B, are read from FILE, or
without it from standard input.

Example:
control max 0
groups max 0 advertise 1 enable 1 willing 0 priorities 0 0 0 1 0 0 0 0 percentages 50 50 0 0 0 0 0 0 classes 2
flow max 0 advertise 1 enable 1 willing 0 mask 08 classes 8
applications max 0 advertise 1 enable 1 willing 0 ethertype 8906 08
control max 0
groups max 0 advertise 1 enable 1 willing 0 priorities 0 0 0 1 0 0 0 0 percentages 50 50 0 0 0 0 0 0 classes 2
flow max 0 advertise 1 enable 1 willing 0 mask 10 classes 8
applications max 0 advertise 1 enable 1 willing 0 ethertype 8906 08

docs/FORMATS.md describes the settings and the report.
";

    // Reads both ends, creates them, lets them exchange frames, and reports. Lines behind the settings are not read.
    fn serve(
        streams: Streams,
        input: &mut Input,
        page: &mut Output,
        _alone: bool,
    ) -> Result<(), Wrong> {
        let s = settings::read_pair(input, false)?;
        report_on(
            page,
            settle(settings::port_with(s.a), settings::port_with(s.b)),
        );
        let _ = streams.write(page.as_slice());
        Ok(())
    }

    fn refuse(streams: Streams, why: &[u8], _alone: bool) {
        streams.answer(why);
    }
}

fn main(rt: HostRuntime) {
    program::run::<Comparing>(&rt);
}
