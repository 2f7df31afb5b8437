// A thin reader over a frame: it holds the slice and a place, and hands out sub-TLVs one at a time over the caller's own
// octets. To walk: `next`, and behind each sub-TLV `moved` to `start + length`. Callers that need no struct use `head_at`
// on slice and place.
ghost use Rattle.reading.specs.Walking.{New, Next, Moved};

use tlv::Head;

#[derive(Clone, Copy)]
pub struct Reader<'a> {
    pub src: &'a [u8],
    pub at: usize,
}

impl<'a> Reader<'a> {
    // At the first sub-TLV, behind the six octets at the frame's head.
    pub fn new(src: &'a [u8]) -> Reader<'a>
        ensures { New src.entry result }
    {
        Reader { src, at: 6 }
    }

    // What stands at the reader's place: a sub-TLV, one that runs over, or the end.
    pub fn next(self) -> Head
        ensures { Next self.entry result }
    {
        tlv::head_at(self.src, self.at)
    }

    // The reader at another place, behind the sub-TLV that it handed out.
    pub fn moved(self, at: usize) -> Reader<'a>
        ensures { Moved self.entry at result }
    {
        Reader { src: self.src, at }
    }
}
