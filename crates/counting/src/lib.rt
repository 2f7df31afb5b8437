// Lines of a capture, each given to the port of the other end and counted (02, E8), as it ends.
#![tactic(auto)]

ghost use Rattle.std.specs.Prelude.{◌≡◌};
ghost use Rattle.handling.specs.Handling.{handled};
ghost use Rattle.capture.specs.Capture.{frame_of};
ghost use Rattle.counting.specs.Steps.{with_line as tally_with_line};
ghost use Rattle.counting.specs.StepLaws.{with_clipped};

use capture::{Form, Lines};
use counters::Changes;
use port::{Event, Port};

// Both ports and what was counted. No count goes above 2^64 - 1: it stays there. `frames` counts up to the moment when both ends
// are settled for the first time, which `settled` says has come.
#[derive(Clone, Copy)]
pub struct Tally {
    pub a: Port,
    pub b: Port,
    pub from_a: u64,
    pub from_b: u64,
    pub others: u64,
    pub refusals: [u64; 8],
    pub of_a: Changes,
    pub of_b: Changes,
    pub settled: bool,
    pub frames: u64,
}

// Handles the frame of a line.
fn handle(p: Port, line: &[u8]) -> Event
    ensures { result ≡ handled p (frame_of line.now) }
{
    handling::handle(p, words::frame_of(line).as_slice())
}

// Of a line only the port at hand moves, and its counts; the other stays where it is.
impl Lines for Tally {
    ghost with_line = { tally_with_line };

    fn take_line(&mut self, line: &[u8]) {
        match capture::form_of(line) {
            Form::FromA => {
                let at_b = handle(self.b, line);
                self.from_a = numerals::more(self.from_a);
                counters::count_refusal(&mut self.refusals, at_b.answer);
                counters::count_reasons(&mut self.of_b, &self.b, &at_b.port);
                self.b = at_b.port;
                self.frames = counters::count_further(self.settled, self.frames);
                self.settled = counters::at_rest(self.settled, &self.a, &self.b);
            }
            Form::FromB => {
                let at_a = handle(self.a, line);
                self.from_b = numerals::more(self.from_b);
                counters::count_refusal(&mut self.refusals, at_a.answer);
                counters::count_reasons(&mut self.of_a, &self.a, &at_a.port);
                self.a = at_a.port;
                self.frames = counters::count_further(self.settled, self.frames);
                self.settled = counters::at_rest(self.settled, &self.a, &self.b);
            }
            Form::Other => {
                self.others = numerals::more(self.others);
            }
        }
    }

    ghost long = { with_clipped };
}
