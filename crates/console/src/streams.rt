// What the programs write, what they say of faults, and how far they are; each names itself.
use printing::Page;
use std::io;
use std::io::{IsTerminal, Print};

// A terminal is told how far the reading is every so many lines.
const SHOWN: u64 = 1_000_000;

// Where a program writes, and the name that it goes by. That a write to standard error fails cannot be told.
#[derive(Clone, Copy)]
pub struct Streams<'a> {
    rt: &'a HostRuntime,
    program: &'static str,
}

impl<'a> Streams<'a> {
    pub fn new(rt: &'a HostRuntime, program: &'static str) -> Streams<'a> {
        Streams { rt, program }
    }

    // Writes octets to standard output, and where that fails says so on standard error.
    pub fn write(&self, s: &[u8]) -> io::Result<()> {
        let written = self.rt.write_all(s);
        if written.is_err() {
            let _ = eprintln!(self.rt; "{}: cannot write", self.program);
        }
        written
    }

    // Says on standard error that a read has failed.
    pub fn cannot_read(&self) {
        let _ = eprintln!(self.rt; "{}: cannot read", self.program);
    }

    // Writes a usage, to standard output where help was asked for, and otherwise to standard error.
    pub fn usage(&self, text: &str, asked: bool) {
        if asked {
            let _ = self.write(text.as_bytes());
        } else {
            let _ = eprint!(self.rt; "{text}");
        }
    }

    // Says what is wrong with the settings; where that is nothing, that they cannot be read.
    pub fn answer(&self, why: &[u8]) {
        if why.is_empty() {
            self.cannot_read();
        } else {
            let _ = self.write(why);
        }
    }

    // Says that the settings are bad, and on standard error why; where that is nothing, that they cannot be read from their file, if
    // they stand `alone` in one, and otherwise no more than that.
    pub fn refuse(&self, why: &[u8], alone: bool) {
        if why.is_empty() && !alone {
            return self.cannot_read();
        }
        if self.write(b"bad settings\n").is_err() {
            return;
        }
        if why.is_empty() {
            self.cannot_read();
        } else {
            let _ = self.rt.stderr().write_all(why);
        }
    }
}

// How far the reading is: how many lines a terminal at standard error shows now.
#[derive(Drop)]
pub struct Progress<'a> {
    streams: Streams<'a>,
    terminal: bool,
    shown: u64,
}

impl<'a> Progress<'a> {
    // Nothing is shown yet.
    pub fn new(streams: Streams<'a>) -> Progress<'a> {
        Progress {
            streams,
            terminal: streams.rt.stderr().is_terminal(),
            shown: 0,
        }
    }

    // Shows how many lines were read, in place of what was shown before.
    pub fn show(&mut self, read: u64) {
        let lines = read / SHOWN * SHOWN;
        if !self.terminal || lines == self.shown {
            return;
        }
        let mut page: Page<4096> = Page::new();
        page.text(b"\r");
        page.text(self.streams.program.as_bytes());
        page.field(b": ", lines);
        page.text(b" lines");
        let _ = self.streams.rt.stderr().write_all(page.as_slice());
        self.shown = lines;
    }

    // Clears what is shown.
    pub fn clear(&self) {
        if self.shown != 0 {
            let _ = eprint!(self.streams.rt; "\r                                   \r");
        }
    }
}
