// A frame beside what a port writes (02, E12): whether it is that, where the two begin to differ, and where in a frame that is.
#![tactic(auto)]

ghost use Rattle.std.specs.Prelude.{◌≡◌};
ghost use Rattle.capture.specs.Capture.{frame_of};
ghost use Rattle.comparison.specs.Comparison.{differing, compared_with};

use port::Port;

pub mod places;

// How many octets two runs have in common, up to the first that differs or the end of the shorter.
fn common(a: &[u8], b: &[u8]) -> usize
    ensures { result ≡ differing a.now b.now }
{
    let shorter = a.len().min(b.len());
    for i in 0..shorter {
        if a[i] != b[i] {
            return i;
        }
    }
    shorter
}

// Compares the frame of a line with what the port writes, which is nothing while it is stopped: none where it is that, and else
// where the two begin to differ. No frame of a port is longer than the space for it.
pub fn compare(p: &Port, line: &[u8]) -> Option<usize>
    ensures { result ≡ compared_with p.now (frame_of line.now) }
{
    let port = *p;
    if !port::writing::running(port) {
        return Some(0);
    }
    let held = words::frame_of(line);
    let frame = held.as_slice();
    let k = port::writing::frame_length(port);
    let mut space = [0; 513];
    // A running port refuses only an output that its frame has no room in.
    let _ = port::writing::write(port, &mut space);
    let place = common(frame, octets::first(&space, k));
    if place == frame.len() && place == k {
        None
    } else {
        Some(place)
    }
}
