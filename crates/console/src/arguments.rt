// What the arguments of a program ask for (docs/FORMATS.md, Arguments).
use std::env::{Env, FillError};
use std::fs::File;
use std::rt::Files;
use std::{fs, str};

const LONGEST: usize = 4095;

// Where settings come from: standard input, or a file, which is open. Of a file that cannot be opened, its name. In place of
// reading, help may be asked for, or the arguments make no sense.
#[derive(Drop)]
pub enum Source<'a> {
    Input,
    File(File),
    Unopened(&'a [u8]),
    Help,
    Unknown,
}

// A file whose name is no text in UTF-8 cannot be opened.
fn opened<R: Files<File = File>>(rt: &R, name: &[u8]) -> Option<File> {
    let path = str::from_utf8(name).ok()?;
    fs::open(rt, path).ok()
}

fn source_of<'a, R: Files<File = File>>(rt: &R, word: &'a [u8]) -> Source<'a> {
    if LONGEST < word.len() {
        return Source::Unknown;
    }
    match word {
        b"--help" => Source::Help,
        [b'-', ..] => Source::Unknown,
        name => match opened(rt, name) {
            Some(file) => Source::File(file),
            None => Source::Unopened(name),
        },
    }
}

// Whether there is a second argument.
fn has_second<R: Env>(rt: &R) -> bool {
    !matches!(&rt.arg(2, &mut [0; 1]), Err(FillError::NotPresent))
}

// By at most one argument, which is put at the start of `name`.
pub fn asked<'a, R: Env + Files<File = File>>(rt: &R, name: &'a mut [u8]) -> Source<'a> {
    match rt.arg(1, name) {
        Err(FillError::NotPresent) => Source::Input,
        Err(FillError::TooLong) => Source::Unknown,
        Ok(_) if has_second(rt) => Source::Unknown,
        Ok(n) => source_of(rt, octets::first(name, n)),
    }
}
