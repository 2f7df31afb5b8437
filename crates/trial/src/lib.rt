// The engine for tests alone: a script of steps is run on a recorder, and after each
// step the answer and the state are written out, octet by octet. Its functions are proved safe; what the answers and states
// are is the promise of the crates below, so none is stated here.
//
// A script is a list of steps. A step is its length (2 octets, high octet first), then its octets: the kind, the number of a port
// (any octet), and what belongs to the kind. Switches are advertise 4, enable 2, willing 1. A script begins with a blank recorder.
//
// 0 creation: Max of control; Max and switches of features 2, 3, 4; length of the parameters of 2 and of 3 (2 octets each);
//   the parameters of 2, of 3 and of 4
// 1 frame: its octets
// 2 peer gone
// 3 flag: 0 admin, 1 receive, 2 transmit, 3 several neighbours; 0 or 1
// 4 setting change: feature number, switches, parameters
// 5 write: room (2 octets)
// 6 take
// 7 numbers: SeqNo, AckNo, RcvdAckNo, FeatureSeqNo of 2, 3, 4 (4 octets each); no event of a port
// 8 dropped count of the port (4 octets); no event of a port
// 9 nothing happens, whatever the port, and the states of all four ports are written
// 7 and 8 do nothing at a number that is not 1 to 4.
//
// What a step writes: of a write the lent output; then refusal or 0, the place where a frame went wrong or 0 (2 octets), whether
// a send is asked, the length of a written frame (2 octets), number and feature of a notice taken, the numbers of the notices
// raised (of the port and of features 2, 3 and 4, 0 for none); then the state of the port as in tests/reference/src/dump.rs, or nothing where no port has the number;
// then the log: how many notices are held (1 octet), the dropped counts of ports 1 to 4 (4 octets each), and of each notice,
// oldest first, the port, the number and the feature.
#![tactic(auto)]

ghost use Rattle.std.specs.Prelude.{◌<◌, ◌≤◌, length};

use buffer::Writer;

pub mod steps;

// Where the first step of a script ends: at the end of the script where it says more.
fn step_end(script: &[u8]) -> usize
    requires { 0 < length script.now }
    ensures { (0 < result) × (result ≤ length script.now) }
{
    let size = 2 + buffer::number2(script, 0);
    size.min(script.len())
}

// Runs a script and gives the number of octets written; it stops where `out` is full.
pub fn run(script: &[u8], out: &mut [u8]) -> usize {
    let mut held = recorder::blank();
    let mut w = Writer::new(out);
    let mut rest = script;
    // Steps are of any length: nothing is counted.
    while !rest.is_empty() && !w.is_full() {
        let (step, behind) = rest.split_at(step_end(rest));
        steps::run(&mut held, octets::from(step, 2), &mut w);
        rest = behind;
    }
    w.at()
}
