// Replays a capture between two ports, and reports what was counted (docs/FORMATS.md, The report of `replay`).
#![tactic(auto)]

use console::Input;
use console::streams::Streams;
use printing::Output;
use settings::captures::Course;
use settings::program::Program;
use settings::wrong::Wrong;
use settings::{captures, program};
use tally::Replay;

// A capture, replayed to its end.
#[derive(Clone, Copy)]
struct Replayed(Replay);

impl Course for Replayed {
    fn feed(&mut self, octets: &[u8]) {
        tally::feed(&mut self.0, octets);
    }

    fn lines(&self) -> u64 {
        let t = &self.0.value;
        t.from_a.wrapping_add(t.from_b).wrapping_add(t.others)
    }

    fn is_over(&self) -> bool {
        false
    }

    fn report(self, page: &mut Output) {
        let mut text = [0; 4096];
        let n = tally::text::report(tally::finish(self.0), &mut text);
        page.text(octets::first(&text, n));
    }
}

struct Replaying;

impl Program for Replaying {
    const NAME: &'static str = "replay";

    const USAGE: &'static str = "usage: replay [FILE] < CAPTURE

Gives each frame of a capture to the port of the other end, and counts frames,
refusals, what became of each feature, and the frames until both ends settled.
The settings of A, then those of B, are read from FILE, or without it from
standard input, where the capture begins right behind them.

Example:
control max 0
groups max 0 advertise 1 enable 1 willing 0 priorities 0 0 0 1 0 0 0 0 percentages 50 50 0 0 0 0 0 0 classes 2
flow max 0 advertise 1 enable 1 willing 0 mask 08 classes 8
applications max 0 advertise 1 enable 1 willing 0 ethertype 8906 08
control max 0
groups max 0 advertise 1 enable 1 willing 0 priorities 0 0 0 1 0 0 0 0 percentages 50 50 0 0 0 0 0 0 classes 2
flow max 0 advertise 1 enable 1 willing 0 mask 10 classes 8
applications max 0 advertise 1 enable 1 willing 0 ethertype 8906 08
A fe10001b2102020a00000000000100000000
B fe10001b2102020a00000000000100000001

docs/FORMATS.md describes the settings, the capture and the report.
";

    // Reads the settings, and if nothing is wrong with them creates both ends and replays the capture.
    fn serve(
        streams: Streams,
        input: &mut Input,
        page: &mut Output,
        alone: bool,
    ) -> Result<(), Wrong> {
        let s = settings::read_pair(input, alone)?;
        let start = tally::start(settings::port_with(s.a), settings::port_with(s.b));
        captures::follow(streams, input, page, Replayed(start));
        Ok(())
    }

    fn refuse(streams: Streams, why: &[u8], alone: bool) {
        streams.refuse(why, alone);
    }
}

fn main(rt: HostRuntime) {
    program::run::<Replaying>(&rt);
}
