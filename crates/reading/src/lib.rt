// Frames read: refusals 3 to 8, for either revision; and the thin reader over sub-TLVs.
#![tactic(auto)]

ghost use Rattle.std.specs.Prelude.{◌≡◌};
ghost use Rattle.reading.specs.Revisions.{skipping};
ghost use Rattle.reading.specs.Promises.{ReadPromise, ReadsFor};

use contents::{Contents, Found, Reading};
use tlv::{Refusal, Rejection, Revision};

pub mod reader;

// Reads a frame: refusals 3 to 8, lowest number first (01, Refusal numbers), each with its place, or what it has.
pub fn read(s: &[u8]) -> Reading
    ensures { ReadPromise s.now result }
{
    if !tlv::is_dcbx(s) {
        return Err(Rejection::from(Refusal::NotDcbx));
    }
    if tlv::length_of(s[0], s[1]) + 2 != s.len() {
        return Err(Rejection::from(Refusal::WrongLength));
    }
    walk::walk_on(s, 0, walk::begin_walk())
}

// What was found but applications.
#[tactic(auto, unfolding(crate::specs::Revisions::skipping))]
fn without_applications(r: Reading) -> Reading
    ensures { result ≡ skipping r }
{
    let c = r?;
    let none = Found {
        count: 0,
        start: 0,
        length: 0,
    };
    Ok(Contents {
        applications: none,
        ..c
    })
}

// Reads a frame for a port of a revision: under Rev 1.0 type 4 is skipped like any unknown type (02, E11).
pub fn read_for(revision: Revision, s: &[u8]) -> Reading
    ensures { ReadsFor revision s.now result }
{
    let r = read(s);
    if tlv::has_applications(revision) {
        return r;
    }
    without_applications(r)
}
