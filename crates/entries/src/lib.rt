// What tests and benchmarks call, as a static library: `trial` and `speed` under the names of C. It is thin, so that the library is
// built in seconds.
#![tactic(auto)]

#[unsafe(no_mangle)]
pub extern "C" fn trial_run(script: &[u8], out: &mut [u8]) -> usize {
    trial::run(script, out)
}

#[unsafe(no_mangle)]
pub extern "C" fn trial_read_many(frames: &[u8], size: usize, times: usize) -> u64 {
    speed::read_many(frames, size, times)
}

#[unsafe(no_mangle)]
pub extern "C" fn trial_handle_many(
    creation: &[u8],
    frames: &[u8],
    size: usize,
    times: usize,
) -> u64 {
    speed::handle_many(creation, frames, size, times)
}

#[unsafe(no_mangle)]
pub extern "C" fn trial_handle_alone(
    creation: &[u8],
    frames: &[u8],
    size: usize,
    times: usize,
) -> u64 {
    speed::handle_alone(creation, frames, size, times)
}

#[unsafe(no_mangle)]
pub extern "C" fn trial_write_many(creation: &[u8], times: usize, out: &mut [u8]) -> u64 {
    speed::write_many(creation, times, out)
}

#[unsafe(no_mangle)]
pub extern "C" fn trial_write_alone(creation: &[u8], times: usize, out: &mut [u8]) -> u64 {
    speed::write_alone(creation, times, out)
}
