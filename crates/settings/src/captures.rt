// Captures, which stand behind the settings.
use console::Input;
use console::streams::{Progress, Streams};
use printing::Output;

// What is made of a capture, whose octets are fed in reads of any length.
pub trait Course {
    fn feed(&mut self, octets: &[u8]);

    // How many lines were read.
    fn lines(&self) -> u64;

    // Whether what follows no longer counts.
    fn is_over(&self) -> bool;

    // Puts what came of the capture, which is at its end or over.
    fn report(self, page: &mut Output);
}

// Feeds what comes behind the settings, read by read, and writes what came of it, unless a read has failed. A proved loop ends: no
// run uses up its turns.
pub fn follow<C: Course + Drop>(
    streams: Streams,
    input: &mut Input,
    page: &mut Output,
    mut course: C,
) {
    input.leave_file();
    let mut progress = Progress::new(streams);
    for _ in 0..u64::MAX {
        course.feed(input.rest());
        progress.show(course.lines());
        if course.is_over() || !input.is_open() {
            break;
        }
        input.pass_rest();
        input.more();
    }
    progress.clear();
    if input.has_failed() {
        streams.cannot_read();
        return;
    }
    course.report(page);
    let _ = streams.write(page.as_slice());
}
