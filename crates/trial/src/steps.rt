// The steps of a script.
use buffer::Writer;
use feature::{State, Switches};
use logging::Taken;
use notices::{Log, Notice};
use port::{Answer, Control, Event, Flag, Notices, Port, Versions, Written};
use recorder::{Change, Recorder};
use repeating::Repetition;
use tlv::{Refusal, Revision};

// What a step asks for, with the octets that belong to it.
#[derive(Clone, Copy)]
enum Step<'a> {
    Create(&'a [u8]),
    Frame(&'a [u8]),
    Change(Change, &'a [u8]),
    Write(usize),
    Take,
    Numbers(&'a [u8]),
    Dropped(u32),
    Look,
}

// What is written of an answer before the state, octet by octet for the C tests: hence numbers, 0 for none. `raised` has those of
// the notices raised, of the port and of features 2 to 4.
#[derive(Clone, Copy)]
struct Told {
    refusal: u8,
    place: usize,
    wish: bool,
    length: usize,
    notice: u8,
    feature: u8,
    raised: [u8; 4],
}

// What a step that lends no output gives: what is told of it, and the port and the log behind it.
#[derive(Clone, Copy)]
struct Given {
    told: Told,
    port: Port,
    log: Log,
}

// ---- what stands in a step

// Whether a number is one of the four ports'.
fn is_port(n: u8) -> bool {
    (1..=4).contains(&n)
}

// The switches of an octet.
fn switches(x: u8) -> Switches {
    Switches {
        advertise: 4 <= x % 8,
        enable: 2 <= x % 4,
        willing: 1 <= x % 2,
    }
}

fn revision(x: u8) -> Revision {
    match x {
        1 => Revision::Rev10,
        _ => Revision::Rev101,
    }
}

fn versions(body: &[u8]) -> Versions {
    Versions {
        revision: revision(octets::octet(body, 0)),
        control: octets::octet(body, 1),
        groups: octets::octet(body, 2),
        flow: octets::octet(body, 4),
        applications: octets::octet(body, 6),
    }
}

fn flag(number: u8) -> Flag {
    match number {
        0 => Flag::Admin,
        1 => Flag::Receive,
        2 => Flag::Transmit,
        _ => Flag::Several,
    }
}

// By the step's first octet. Only a setting change has octets beside what it says.
fn step_of(step: &[u8]) -> Step<'_> {
    let body = octets::from(step, 2);
    let first = octets::octet(body, 0);
    let second = octets::octet(body, 1);
    match octets::octet(step, 0) {
        0 => Step::Create(body),
        1 => Step::Frame(body),
        2 => Step::Change(Change::PeerGone, octets::from(body, 2)),
        3 => Step::Change(
            Change::Flag(flag(first), second == 1),
            octets::from(body, 2),
        ),
        4 => Step::Change(
            Change::Setting(first, switches(second)),
            octets::from(body, 2),
        ),
        5 => Step::Write(buffer::number2(body, 0)),
        6 => Step::Take,
        7 => Step::Numbers(body),
        9 => Step::Look,
        _ => Step::Dropped(octets::numbers::number4(body, 0)),
    }
}

// ---- what is told

// Where an answer has nothing but zeros.
fn nothing() -> Told {
    Told {
        refusal: 0,
        place: 0,
        wish: false,
        length: 0,
        notice: 0,
        feature: 0,
        raised: [0; 4],
    }
}

fn refused(why: Refusal, place: usize) -> Told {
    Told {
        refusal: u8::from(why),
        place: place,
        ..nothing()
    }
}

fn raised(n: Notices) -> [u8; 4] {
    [n.port, n.groups, n.flow, n.applications].map(events::raised_number)
}

fn answer_of(x: Answer) -> Told {
    match x {
        Ok(wish) => Told {
            wish: wish,
            ..nothing()
        },
        Err(r) => refused(r.why, r.place),
    }
}

fn answered(x: Answer, n: Notices) -> Told {
    Told {
        raised: raised(n),
        ..answer_of(x)
    }
}

fn took(x: Result<Notice, Refusal>) -> Told {
    match x {
        Ok(n) => Told {
            notice: u8::from(n.kind),
            feature: n.feature,
            ..nothing()
        },
        Err(why) => refused(why, 0),
    }
}

fn wrote(x: Written) -> Told {
    match x {
        Ok(n) => Told {
            length: n,
            ..nothing()
        },
        Err(why) => refused(why, 0),
    }
}

fn put_told(w: &mut Writer, x: &Told) {
    w.put(x.refusal);
    w.put2(x.place);
    w.put(u8::from(x.wish));
    w.put2(x.length);
    w.put(x.notice);
    w.put(x.feature);
    w.put_all(&x.raised);
}

// Writes the state of port `n`, which is `p`, or nothing where the number is no port's.
fn put_state(w: &mut Writer, n: u8, p: &Port) {
    if is_port(n) {
        dump::put_port(w, p);
    }
}

// Writes what is told, then the state of the port, then the log.
fn tell(w: &mut Writer, told: &Told, n: u8, p: &Port, l: &Log) {
    put_told(w, told);
    put_state(w, n, p);
    dump::put_log(w, l);
}

// ---- events

// Creates port `n` in the place of `p`. The parameters are handed on as parts of the step.
pub fn create(n: u8, p: Port, body: &[u8]) -> Event {
    let groups = buffer::number2(body, 8);
    let flow = buffer::number2(body, 10);
    let all = octets::from(body, 12);
    let behind = octets::from(all, groups);
    recorder::create(
        n,
        p,
        versions(body),
        switches(octets::octet(body, 3)),
        octets::first(all, groups),
        switches(octets::octet(body, 5)),
        octets::first(behind, flow),
        switches(octets::octet(body, 7)),
        octets::from(behind, flow),
    )
}

// What a frame does that repeats what is held of the peer (repeating/proofs/Reachable: `reachable_repeats`).
fn repeated(p: Port, k: Repetition) -> Event {
    Event {
        answer: Ok(k.wish),
        port: Port {
            control: k.control,
            ..p
        },
        notices: events::silent(),
    }
}

// A frame. Where it repeats what is held it takes that way, so that the comparison runs over both.
fn frame(n: u8, p: Port, octets: &[u8]) -> Event {
    match repeating::repeat(n, &p, octets) {
        Some(k) => repeated(p, k),
        None => recorder::apply(n, p, Change::Frame, octets),
    }
}

fn given_event(n: u8, l: Log, e: Event) -> Given {
    Given {
        told: answered(e.answer, e.notices),
        port: e.port,
        log: logging::keep(l, n, e.notices),
    }
}

fn given_taken(p: Port, t: Taken) -> Given {
    Given {
        told: took(t.answer),
        port: p,
        log: t.log,
    }
}

// ---- what is no event of a port

fn with_sequence(x: State, sequence: u32) -> State {
    State {
        sequence: sequence,
        ..x
    }
}

fn with_numbers(c: Control, body: &[u8]) -> Control {
    Control {
        seq: octets::numbers::number4(body, 0),
        ack: octets::numbers::number4(body, 4),
        rcvd: octets::numbers::number4(body, 8),
        ..c
    }
}

// The numbers of control and of the features are set.
fn numbers(p: Port, body: &[u8]) -> Port {
    Port {
        control: with_numbers(p.control, body),
        groups: with_sequence(p.groups, octets::numbers::number4(body, 12)),
        flow: with_sequence(p.flow, octets::numbers::number4(body, 16)),
        applications: with_sequence(p.applications, octets::numbers::number4(body, 20)),
        ..p
    }
}

// The dropped count of port `n` is set.
fn dropped(l: Log, n: u8, count: u32) -> Log {
    let mut next = l;
    next.dropped[recorder::place_of(n)] = count;
    next
}

// ---- steps

// Every step that lends no output and leaves the other ports alone. Numbers are set at the four ports alone.
fn event(n: u8, p: Port, l: Log, step: Step) -> Given {
    let same = Given {
        told: nothing(),
        port: p,
        log: l,
    };
    match step {
        Step::Create(body) => given_event(n, l, create(n, p, body)),
        Step::Frame(octets) => given_event(n, l, frame(n, p, octets)),
        Step::Change(change, octets) => given_event(n, l, recorder::apply(n, p, change, octets)),
        Step::Take => given_taken(p, logging::take(n, l)),
        Step::Numbers(body) if is_port(n) => Given {
            port: numbers(p, body),
            ..same
        },
        Step::Dropped(count) if is_port(n) => Given {
            log: dropped(l, n, count),
            ..same
        },
        _ => same,
    }
}

// The lent output is the next `room` octets, as they are.
fn write(n: u8, p: Port, l: &Log, room: usize, w: &mut Writer) {
    let written = recorder::write(n, p, w.lend(room));
    tell(w, &wrote(written), n, &p, l);
}

// Writes that nothing happened, the states of all four ports and the log.
fn look(r: &Recorder, w: &mut Writer) {
    put_told(w, &nothing());
    for p in &r.ports {
        dump::put_port(w, p);
    }
    dump::put_log(w, &r.log);
}

// Runs one step, and writes what it gives.
pub fn run(held: &mut Recorder, step: &[u8], w: &mut Writer) {
    let n = octets::octet(step, 1);
    let i = recorder::place_of(n);
    match step_of(step) {
        Step::Look => look(held, w),
        Step::Write(room) => write(n, held.ports[i], &held.log, room, w),
        step => {
            let g = event(n, held.ports[i], held.log, step);
            held.ports[i] = g.port;
            held.log = g.log;
            tell(w, &g.told, n, &g.port, &g.log);
        }
    }
}
