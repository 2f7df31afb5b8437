// What happens at the port of one end by a line of its capture (02, E12).
#![tactic(auto)]

ghost use Rattle.std.specs.Prelude.{◌≡◌};
ghost use Rattle.words.specs.Text.{pending};
ghost use Rattle.capture.specs.Capture.{frame_of};
ghost use Rattle.recorder.specs.declared.Change.TheVariants.{Frame};
ghost use Rattle.recorder.specs.Recorder.{happens};

use lines::Line;
use port::{Event, Port};
use recorder::Change;

// Handles the frame of a line.
pub fn handle(p: Port, line: &[u8]) -> Event
    ensures { result ≡ happens p Frame (frame_of line.now) }
{
    handling::handle(p, words::frame_of(line).as_slice())
}

// A change happens at the port, with the octets of its line.
pub fn change(p: Port, x: Change, l: &Line) -> Event
    ensures { result ≡ happens p x (pending l.now.octets) }
{
    recorder::apply(1, p, x, l.octets.as_slice())
}
