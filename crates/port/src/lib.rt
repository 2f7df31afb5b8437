// One port by its parts, and what an event gives: the answer, the next port and the notices it raises. Events are crates `creation`,
// `flags`, `changes` and, of frames, `handling`.
#![tactic(auto)]

use feature::{Release, State};
use notices::Kind;
use parameters::Each;
use tlv::{Refusal, Rejection, Revision};

pub mod writing;

// The four flags of a port.
#[derive(Clone, Copy, Debug, PartialEq, Eq)]
pub enum Flag {
    Admin,
    Receive,
    Transmit,
    Several,
}

// The control state; `rcvd` is RcvdAckNo, `seen` says that a peer was seen, `duplicate` that duplicate control is marked, `broken`
// that the last frame since the fresh state had a broken control (02, E1).
#[derive(Clone, Copy)]
pub struct Control {
    pub max: u8,
    pub oper: u8,
    pub seq: u32,
    pub ack: u32,
    pub rcvd: u32,
    pub seen: bool,
    pub duplicate: bool,
    pub broken: bool,
}

// The revision is fixed at creation (02, E11). Each feature is a field, called by name: a loop over them needs a match for each.
// `released` is what was last released of each, which is what frames carry (02, E5).
#[derive(Clone, Copy)]
pub struct Port {
    pub revision: Revision,
    pub admin: bool,
    pub receive: bool,
    pub transmit: bool,
    pub several: bool,
    pub control: Control,
    pub groups: State,
    pub flow: State,
    pub applications: State,
    pub released: Each<Release>,
}

// The revision and the highest versions, fixed at creation.
#[derive(Clone, Copy)]
pub struct Versions {
    pub revision: Revision,
    pub control: u8,
    pub groups: u8,
    pub flow: u8,
    pub applications: u8,
}

// What an event gives: the wish to send; or why it was refused, with the place where a frame went wrong, and 0 beside every other
// refusal (02, E2).
pub type Answer = Result<bool, Rejection>;

// At most one notice of the port and one for each feature.
pub type Raised = Option<Kind>;

#[derive(Clone, Copy)]
pub struct Notices {
    pub port: Raised,
    pub groups: Raised,
    pub flow: Raised,
    pub applications: Raised,
}

#[derive(Clone, Copy)]
pub struct Event {
    pub answer: Answer,
    pub port: Port,
    pub notices: Notices,
}

// What a request to write gives: the number of octets written, or a refusal.
pub type Written = Result<usize, Refusal>;
