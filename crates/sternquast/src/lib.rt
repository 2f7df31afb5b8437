// What firmware in C calls, as functions of Rattle: `sternquast_c` exports them under the same names.
#![tactic(auto)]

ghost use Rattle.std.specs.Prelude.{◌≡◌};
ghost use Rattle.sternquast.specs.Judge.{judged};

// A refusal's number and its place in the frame; both 0 where there is none. Numbers, and no Result: this is the C interface.
#[repr(C)]
#[derive(Clone, Copy)]
pub struct Verdict {
    pub refusal: u32,
    pub place: usize,
}

// Judges a frame: refusals 3 to 8 (02, E2).
pub fn sternquast_judge(frame: &[u8]) -> Verdict
    ensures { result ≡ judged frame.now }
{
    match reading::read(frame) {
        Ok(_) => Verdict {
            refusal: 0,
            place: 0,
        },
        Err(rejected) => Verdict {
            refusal: u32::from(u8::from(rejected.why)),
            place: rejected.place,
        },
    }
}
