// Where an octet of a frame stands, for people who read a verdict.
ghost use Rattle.std.specs.Prelude.{◌≡◌};
ghost use Rattle.comparison.specs.Places.{position_in};

use tlv::Head;

// The octets before the first sub-TLV: the frame's head, the OUI and the subtype.
const FRAME_HEAD: usize = 6;

// The sub-TLV in which an octet stands, by its type, which may be any, 0 for the octets before the first, and which octet of it.
#[derive(Clone, Copy, Debug, PartialEq, Eq)]
pub struct Position {
    pub kind: u8,
    pub octet: usize,
}

// Where the octet at `place` of a frame stands, if it is one of the frame's.
pub fn position_of(frame: &[u8], place: usize) -> Option<Position>
    ensures { result ≡ position_in frame.now place }
{
    if place < FRAME_HEAD {
        return Some(Position {
            kind: 0,
            octet: place,
        });
    }
    let mut at = FRAME_HEAD;
    for _ in 0..frame.len() {
        match tlv::head_at(frame, at) {
            Head::End => return None,
            Head::Past => return None,
            Head::SubTlv {
                kind,
                start,
                length,
            } => {
                if place < start + length {
                    let octet = place - at;
                    return Some(Position { kind, octet });
                }
                at = start + length;
            }
        }
    }
    None
}
