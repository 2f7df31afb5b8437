// The desk: the settings of one to four ports, then events, one a line, each answered before the next is read (docs/FORMATS.md).
#![tactic(auto)]

use console::streams::Streams;
use console::{Found, Input};
use printing::Output;
use recorder::Recorder;
use settings::program;
use settings::program::Program;
use settings::wrong::Wrong;
use std::io;

// What an answer may take of the page; the longest, of `show`, is shorter.
const ROOM: usize = 16384;

// Writes out what stands on the page.
fn flush(streams: Streams, page: &mut Output) -> io::Result<()> {
    let written = streams.write(page.as_slice());
    page.clear();
    written
}

// The next line, if there is one. The page is written out before each read, and where it has no room for an answer; what cannot be
// written ends the lines.
fn next(streams: Streams, input: &mut Input, page: &mut Output) -> Option<Found> {
    if let Some(found) = input.seek() {
        if page.room() < ROOM {
            flush(streams, page).ok()?;
        }
        return Some(found);
    }
    flush(streams, page).ok()?;
    let found = input.fetch();
    if input.has_failed() {
        streams.cannot_read();
    }
    found
}

// The events, to the end of the input; what stands on the page is written out first. The recorder stays where it is: of an event
// only the port at hand moves, and the log. A frame, as most lines are, goes its own way: where it repeats what is held of the peer
// the control alone moves, and the log moves only where a notice was raised. A proved loop ends: no run uses up its turns.
fn run(streams: Streams, input: &mut Input, page: &mut Output, start: Recorder) {
    let mut held = start;
    for _ in 0..u64::MAX {
        let Some(found) = next(streams, input, page) else {
            return;
        };
        let line = input.line(found);
        let port = addressing::port_of(line);
        let said = addressing::behind_port(line, port);
        report::ports::first(page, port);
        let n = addressing::port_meant(port);
        let i = recorder::place_of(n);
        if script::is_frame(said) {
            let frame = words::frame_of(said);
            if let Some(k) = repeating::repeat(n, &held.ports[i], frame.as_slice()) {
                held.ports[i].control = k.control;
                report::answers::done(page, k.wish, 0);
                continue;
            }
            let e = recorder::handle(n, held.ports[i], frame.as_slice());
            held.ports[i] = e.port;
            if !logging::is_silent(e.notices) {
                held.log = logging::keep(held.log, n, e.notices);
            }
            answering::answered(page, port, e);
            continue;
        }
        let s = answering::event(page, port, held.ports[i], held.log, found.number, said);
        held.ports[i] = s.port;
        held.log = s.log;
    }
}

struct Desk;

impl Program for Desk {
    const NAME: &'static str = "desk";

    const USAGE: &'static str = "usage: desk [FILE]

Runs a recorder of one to four ports: first their settings, then events, one a
line, each answered. With FILE the settings are read from it and the events from
standard input; without it both are read from standard input.

In the answer to show, syncd 1 of an advertised feature means that the other end
has handled a frame with its present sub-TLV since that last changed, provided
that both ends were fresh together, run with one neighbour, were not restarted
or told since that the peer is gone, and take no frames but each other's, all
written since then and none after its sender has written a later one.

Example:
control max 0
groups max 0 advertise 1 enable 1 willing 0 priorities 0 0 0 1 0 0 0 0 percentages 50 50 0 0 0 0 0 0 classes 2
flow max 0 advertise 1 enable 1 willing 0 mask 08 classes 8
applications max 0 advertise 1 enable 1 willing 0 ethertype 8906 08
write 147
show

docs/FORMATS.md describes all lines and answers.
";

    // Reads the settings, and if nothing is wrong with them runs the events.
    fn serve(
        streams: Streams,
        input: &mut Input,
        page: &mut Output,
        alone: bool,
    ) -> Result<(), Wrong> {
        let recorder = settings::read_recorder(input, page, alone)?;
        input.leave_file();
        run(streams, input, page, recorder);
        Ok(())
    }

    fn refuse(streams: Streams, why: &[u8], _alone: bool) {
        streams.answer(why);
    }
}

fn main(rt: HostRuntime) {
    program::run::<Desk>(&rt);
}
