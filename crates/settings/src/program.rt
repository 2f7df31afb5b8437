// Programs that begin with settings: each has a name, a usage and work to do.
use crate::wrong::Wrong;
use console::arguments::Source;
use console::streams::Streams;
use console::{Input, Reader};
use printing::Output;

pub trait Program {
    const NAME: &'static str;

    const USAGE: &'static str;

    // Reads the settings, and if nothing is wrong with them does the work. `alone` says that they stand alone in a file.
    fn serve(
        streams: Streams,
        input: &mut Input,
        page: &mut Output,
        alone: bool,
    ) -> Result<(), Wrong>;

    // Says what is wrong with the settings; where that is nothing, a read has failed.
    fn refuse(streams: Streams, why: &[u8], alone: bool);
}

fn serve<P: Program>(streams: Streams, reader: Reader, alone: bool) {
    let mut buffer = [0; 65536];
    let mut page = Output::new();
    let mut input = Input::new(reader, &mut buffer);
    if let Err(wrong) = P::serve(streams, &mut input, &mut page, alone) {
        page.clear();
        wrong.put(&mut page);
        P::refuse(streams, page.as_slice(), alone);
    }
}

// Says that the settings cannot be had.
fn refuse_unopened<P: Program>(streams: Streams, file: &[u8]) {
    let mut page = Output::new();
    report::answers::unopened(&mut page, file);
    P::refuse(streams, page.as_slice(), true);
}

// Does what the arguments ask for.
pub fn run<P: Program>(rt: &HostRuntime) {
    let streams = Streams::new(rt, P::NAME);
    let mut name = [0; 4096];
    match console::arguments::asked(rt, &mut name) {
        Source::Input => serve::<P>(streams, Reader::of_standard(rt.stdin()), false),
        Source::File(file) => serve::<P>(streams, Reader::of_file(file, rt.stdin()), true),
        Source::Unopened(file) => refuse_unopened::<P>(streams, file),
        Source::Help => streams.usage(P::USAGE, true),
        Source::Unknown => streams.usage(P::USAGE, false),
    }
}
