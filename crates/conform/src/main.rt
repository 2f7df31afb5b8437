// Judges what one end of a cable sent by what our rules write (docs/FORMATS.md, The verdict of `conform`).
#![tactic(auto)]

use conformance::Judging;
use console::Input;
use console::streams::Streams;
use printing::Output;
use settings::captures::Course;
use settings::program::Program;
use settings::wrong::Wrong;
use settings::{captures, program};

// A capture, judged up to the first frame that is not due.
#[derive(Clone, Copy)]
struct Judged(Judging);

impl Course for Judged {
    fn feed(&mut self, octets: &[u8]) {
        conformance::feed(&mut self.0, octets);
    }

    fn lines(&self) -> u64 {
        self.0.value.course.lines
    }

    // Behind the first frame that is not due nothing is read.
    fn is_over(&self) -> bool {
        self.0.value.rejected.is_some()
    }

    // The verdict and what belongs to it.
    fn report(self, page: &mut Output) {
        let judged = conformance::finish(self.0);
        let mut text = [0; 4096];
        let n = conformance::text::verdict(judged, &mut text);
        page.text(octets::first(&text, n));
        match judged.rejected {
            None => findings::accepted(page, judged.course),
            Some(rejected) => findings::rejected(page, &judged, &rejected),
        }
    }
}

struct Conforming;

impl Program for Conforming {
    const NAME: &'static str = "conform";

    const USAGE: &'static str = "usage: conform [FILE] < CAPTURE

Tells whether all that one end sent is what our rules write at that point. In
the capture a line with A is a frame that it sent, a line with B a frame that it
was given; gone, admin, receive, transmit, several and set change it as they do
at desk, and other lines are passed over. The end's settings are read from FILE,
or without it from standard input, where the capture begins right behind them.

Example:
control max 0
groups max 0 advertise 1 enable 1 willing 0 priorities 0 0 0 1 0 0 0 0 percentages 50 50 0 0 0 0 0 0 classes 2
flow max 0 advertise 1 enable 1 willing 0 mask 08 classes 8
applications max 0 advertise 1 enable 1 willing 0 ethertype 8906 08
A fe37001b2102020a00000000000100000000041100008000000100003232000000000000020606000080000808080a000080008906001b2108
B fe10001b2102020a00000000000100000001
set flow advertise 1 enable 1 willing 1 mask 08 classes 8
A fe37001b2102020a000000000002000000010411000080000001000032320000000000000206060000c0000808080a000080008906001b2108

docs/FORMATS.md describes the settings, the capture and the verdict.
";

    // Reads the settings, and if nothing is wrong with them creates the port and judges the capture.
    fn serve(
        streams: Streams,
        input: &mut Input,
        page: &mut Output,
        alone: bool,
    ) -> Result<(), Wrong> {
        let s = settings::read_single(input, alone)?;
        let start = conformance::start(settings::port_with(s));
        captures::follow(streams, input, page, Judged(start));
        Ok(())
    }

    fn refuse(streams: Streams, why: &[u8], alone: bool) {
        streams.refuse(why, alone);
    }
}

fn main(rt: HostRuntime) {
    program::run::<Conforming>(&rt);
}
