// What is counted of a capture that is replayed between two ports (02, E8), a line at a time. No count goes above 2^64 - 1: it
// stays there.
#![tactic(auto)]

ghost use Rattle.std.specs.Prelude.{◌≡◌};
ghost use Rattle.port.specs.Replies.{event_reply};
ghost use Rattle.counters.specs.Counters.{counted, refusal_counted, reason_counted, reason_of, changed, further, rests, unchanged};

use feature::State;
use parameters::Each;
use port::{Answer, Port};

// How often the reason of each feature of an end became absent, duplicate, bad, waiting, disabled, agreed, not compatible and
// control twice.
pub type Changes = Each<[u64; 8]>;

// Nothing is counted yet.
pub fn unchanged() -> Changes
    ensures { result ≡ unchanged }
{
    Each {
        groups: [0; 8],
        flow: [0; 8],
        applications: [0; 8],
    }
}

// One more at place `i`.
#[tactic(auto, unfolding(crate::specs::Counters::counted))]
fn count_at(row: &mut [u64; 8], i: usize)
    ensures { row.new ≡ counted row.old i }
{
    if i < 8 {
        row[i] = numerals::more(row[i]);
    }
}

// The number of a refusal, and 0 for none.
fn refusal_of(a: Answer) -> usize
    ensures { result ≡ (event_reply a).number }
{
    match a {
        Err(r) => usize::from(u8::from(r.why)),
        Ok(_) => 0,
    }
}

// Counts a refusal.
#[tactic(auto, unfolding(crate::specs::Counters::refusal_counted))]
pub fn count_refusal(row: &mut [u64; 8], a: Answer)
    ensures { row.new ≡ refusal_counted row.old (event_reply a).number }
{
    let n = refusal_of(a);
    if 1 <= n {
        count_at(row, n - 1);
    }
}

// The number of a feature's reason.
fn reason_of(x: &State) -> usize
    ensures { result ≡ reason_of x.now }
{
    usize::from(u8::from(x.outcome.reason))
}

// Counts a reason that became another one; a reason that stays is not counted.
#[tactic(auto, unfolding(crate::specs::Counters::reason_counted))]
fn count_reason(row: &mut [u64; 8], before: usize, after: usize)
    ensures { row.new ≡ reason_counted row.old before after }
{
    if before != after && 2 <= after {
        count_at(row, after - 2);
    }
}

// Counts the reasons of a port's features, before a frame and after it.
#[tactic(auto, unfolding(crate::specs::Counters::changed))]
pub fn count_reasons(c: &mut Changes, p: &Port, q: &Port)
    ensures { c.new ≡ changed c.old p.now q.now }
{
    count_reason(&mut c.groups, reason_of(&p.groups), reason_of(&q.groups));
    count_reason(&mut c.flow, reason_of(&p.flow), reason_of(&q.flow));
    count_reason(
        &mut c.applications,
        reason_of(&p.applications),
        reason_of(&q.applications),
    );
}

// Counts a frame, up to the moment when both ends are settled.
#[tactic(auto, unfolding(crate::specs::Counters::further))]
pub fn count_further(settled: bool, frames: u64) -> u64
    ensures { result ≡ further settled frames }
{
    if settled {
        frames
    } else {
        numerals::more(frames)
    }
}

// Whether both ends are settled, or were before.
#[tactic(auto, unfolding(crate::specs::Counters::rests))]
pub fn at_rest(settled: bool, a: &Port, b: &Port) -> bool
    ensures { result ≡ rests settled a.now b.now }
{
    settled || (events::settled(*a) && events::settled(*b))
}
