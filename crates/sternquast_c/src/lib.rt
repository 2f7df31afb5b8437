// The library for firmware in C: all that it calls, by the same clauses as `sternquast`. include/sternquast.h declares the same to C.
#![tactic(auto)]

ghost use Rattle.std.specs.Prelude.{◌≡◌};
ghost use Rattle.sternquast.specs.Judge.{judged};

use sternquast::Verdict;

// Judges a frame: refusals 3 to 8 (02, E2).
#[unsafe(no_mangle)]
pub extern "C" fn sternquast_judge(frame: &[u8]) -> Verdict
    ensures { result ≡ judged frame.now }
{
    sternquast::sternquast_judge(frame)
}
