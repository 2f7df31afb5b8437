// Work to be timed. Frames of one size stand one behind the other; each is read or handled in turn, so many times in all: at
// ports 1 to 4 of a recorder in turn, or at one port with a log of its own.
#![tactic(auto)]

ghost use Rattle.std.specs.Prelude.{◌<◌, ◌≤◌};

use contents::{Found, Reading};
use notices::Log;
use port::{Answer, Port, Written};

// The place of the frame behind the one at `at`; behind the last comes the first.
fn place_behind(all: usize, at: usize, size: usize) -> usize {
    let left = all.saturating_sub(at);
    if left < size || left - size < size {
        return 0;
    }
    at + size
}

fn frame_at(frames: &[u8], at: usize, size: usize) -> &[u8] {
    octets::first(octets::from(frames, at), size)
}

// Where a value ends.
fn end_of(x: Found) -> u64 {
    x.start.wrapping_add(x.length) as u64
}

// Something of a frame that was read.
fn seen(f: Reading) -> u64 {
    match f {
        Ok(c) => end_of(c.groups)
            .wrapping_add(end_of(c.flow))
            .wrapping_add(end_of(c.applications)),
        Err(r) => u64::from(u8::from(r.why)),
    }
}

// Something of an answer.
fn told(a: Answer) -> u64 {
    match a {
        Ok(wish) => u64::from(wish),
        Err(r) => u64::from(u8::from(r.why)),
    }
}

// Something of a frame that was written.
fn wrote(w: Written, out: &[u8]) -> u64 {
    match w {
        Ok(_) => u64::from(octets::octet(out, 17)),
        Err(why) => u64::from(u8::from(why)),
    }
}

pub fn read_many(frames: &[u8], size: usize, times: usize) -> u64 {
    let mut sum: u64 = 0;
    let mut at: usize = 0;
    for _ in 0..times {
        sum = sum.wrapping_add(seen(reading::read(frame_at(frames, at, size))));
        at = place_behind(frames.len(), at, size);
    }
    sum
}

// The port of a creation step, whatever number it has.
fn made(creation: &[u8]) -> Port {
    let e = trial::steps::create(1, creation::blank(), octets::from(creation, 2));
    e.port
}

// Handles a frame at port `n`, where the port and the log stand.
fn handle(n: u8, p: &mut Port, l: &mut Log, frame: &[u8]) -> u64 {
    if let Some(k) = repeating::repeat(n, p, frame) {
        p.control = k.control;
        return u64::from(k.wish);
    }
    let e = recorder::handle(n, *p, frame);
    *p = e.port;
    if !logging::is_silent(e.notices) {
        *l = logging::keep(*l, n, e.notices);
    }
    told(e.answer)
}

// Handles frames at `N` ports in turn, of which the first is port 1.
fn handle_in_turn<const N: usize>(creation: &[u8], frames: &[u8], size: usize, times: usize) -> u64
    requires some { 0 < N }
    requires few { N ≤ 4 }
{
    let mut ports = [made(creation); N];
    let mut log = notices::empty();
    let mut sum: u64 = 0;
    let mut at: usize = 0;
    for turn in 0..times {
        let i = turn % N;
        let frame = frame_at(frames, at, size);
        sum = sum.wrapping_add(handle(i as u8 + 1, &mut ports[i], &mut log, frame));
        at = place_behind(frames.len(), at, size);
    }
    sum
}

pub fn handle_many(creation: &[u8], frames: &[u8], size: usize, times: usize) -> u64 {
    handle_in_turn::<4>(creation, frames, size, times)
}

pub fn handle_alone(creation: &[u8], frames: &[u8], size: usize, times: usize) -> u64 {
    handle_in_turn::<1>(creation, frames, size, times)
}

// Writes frames at `N` ports in turn, of which the first is port 1.
fn write_in_turn<const N: usize>(creation: &[u8], times: usize, out: &mut [u8]) -> u64
    requires some { 0 < N }
    requires few { N ≤ 4 }
{
    let ports = [made(creation); N];
    let mut sum: u64 = 0;
    for turn in 0..times {
        let i = turn % N;
        let written = recorder::write(i as u8 + 1, ports[i], out);
        sum = sum.wrapping_add(wrote(written, out));
    }
    sum
}

pub fn write_many(creation: &[u8], times: usize, out: &mut [u8]) -> u64 {
    write_in_turn::<4>(creation, times, out)
}

pub fn write_alone(creation: &[u8], times: usize, out: &mut [u8]) -> u64 {
    write_in_turn::<1>(creation, times, out)
}
