// Where a program's input comes from, its lines, and what programs write. The caller lends the buffer.
#![tactic(auto)]

ghost use Rattle.std.specs.Prelude.{◌≡◌, ◌+◌, ◌-◌, ◌≤◌, ◌↔◌, IfOk, IsTrue, MatchOption, length, take, drop, min};
ghost use Rattle.capture.specs.Steps.{Before};
ghost use Rattle.console.specs.declared.Standing.TheVariants.{Open, Failed};

pub mod arguments;
pub mod streams;

use std::fs::File;
use std::io;
use std::io::{ErrorKind, Read, Stdin};

// What is kept of a line that fills the whole buffer: enough to see that it cannot be read, or is a comment.
const KEPT: usize = 4096;

// What is read: a file that was opened, or where there is none, standard input.
#[derive(Drop)]
pub struct Reader {
    file: Option<File>,
    standard: Stdin,
}

impl Reader {
    pub fn of_standard(standard: Stdin) -> Reader {
        Reader {
            file: None,
            standard,
        }
    }

    pub fn of_file(file: File, standard: Stdin) -> Reader {
        Reader {
            file: Some(file),
            standard,
        }
    }

    // Closes the file, if there is one, and says whether there was: from here on standard input is read.
    pub fn leave_file(&mut self) -> bool {
        let was_file = self.file.is_some();
        self.file = None;
        was_file
    }

    // Reads once.
    fn read(&mut self, buffer: &mut [u8]) -> io::Result<usize>
        ensures { IfOk result (λ n. n ≤ length buffer.new) }
    {
        match &mut self.file {
            Some(file) => file.read(buffer),
            None => self.standard.read(buffer),
        }
    }
}

// Whether more is read: the input is open, at its end, or a read has failed.
#[derive(Clone, Copy, Debug, PartialEq, Eq)]
pub enum Standing {
    Open,
    AtEnd,
    Failed,
}

// A line that was found: its number, counted from 1, and where it stands in the buffer.
#[derive(Clone, Copy, Debug, PartialEq, Eq)]
pub struct Found {
    pub number: u64,
    from: usize,
    to: usize,
}

// An input that is read line by line: the buffer holds octets up to `end`, and those before `next` are done with. `number` counts
// the lines that were found.
#[derive(Drop)]
pub struct Input<'a> {
    reader: Reader,
    buffer: &'a mut [u8],
    number: u64,
    next: usize,
    end: usize,
    standing: Standing,
    ghost in_order: { next ≤ end },
    ghost in_buffer: { end ≤ length buffer.now },
}

impl<'a> Input<'a> {
    // Nothing is read yet.
    pub fn new(reader: Reader, buffer: &'a mut [u8]) -> Input<'a> {
        Input {
            reader,
            buffer,
            number: 0,
            next: 0,
            end: 0,
            standing: Standing::Open,
        }
    }

    // What comes behind the settings: the rest of their input, or where they stand alone in a file, standard input.
    pub fn leave_file(&mut self) {
        if self.reader.leave_file() {
            self.number = 0;
            self.next = 0;
            self.end = 0;
            self.standing = Standing::Open;
        }
    }

    // A line that was found, as long as no more is read.
    pub fn line(&self, found: Found) -> &[u8]
        ensures { result.now ≡ drop found.from (take found.to self.now.buffer.now) }
    {
        octets::from(octets::first(self.buffer, found.to), found.from)
    }

    // The octets that were read and are not done with.
    pub fn rest(&self) -> &[u8]
        ensures { result.now ≡ drop self.now.next (take self.now.end self.now.buffer.now) }
    {
        octets::from(octets::first(self.buffer, self.end), self.next)
    }

    // Looks for the next line among the octets that are held. The last line may lack its line feed, but behind a read that failed
    // it is not known to be whole, and is not found.
    pub fn seek(&mut self) -> Option<Found>
        ensures stays { self.new.buffer.now ≡ self.old.buffer.now }
        ensures begins { MatchOption result (self.new.next ≡ self.old.next) (λ f. f.from ≡ self.old.next) }
        ensures ends { MatchOption result (self.new.number ≡ self.old.number) (λ f. Before (drop self.old.next (take self.old.end self.old.buffer.now)) (f.to - f.from)) }
    {
        let n = capture::line_length(self.rest());
        let from = self.next;
        let to = from + n;
        if to < self.end {
            self.next = to + 1;
        } else if self.standing == Standing::AtEnd && from < to {
            self.next = to;
        } else {
            return None;
        }
        self.number = self.number.wrapping_add(1);
        Some(Found {
            number: self.number,
            from,
            to,
        })
    }

    // The line that was found last is found once more.
    pub fn put_back(&mut self, found: Found)
        ensures { self.new.next ≡ min found.from self.old.end }
    {
        self.number = self.number.wrapping_sub(1);
        self.next = found.from.min(self.end);
    }

    // How many lines were found.
    pub fn number(&self) -> u64
        ensures { result ≡ self.now.number }
    {
        self.number
    }

    // Whether more may be read.
    pub fn is_open(&self) -> bool
        ensures { IsTrue result ↔ self.now.standing ≡ Open }
    {
        self.standing == Standing::Open
    }

    // Whether a read has failed.
    pub fn has_failed(&self) -> bool
        ensures { IsTrue result ↔ self.now.standing ≡ Failed }
    {
        self.standing == Standing::Failed
    }

    // All octets that were read are done with.
    pub fn pass_rest(&mut self)
        ensures { self.new.next ≡ self.old.end }
    {
        self.next = self.end;
    }

    // Moves what is held to the front: all of it, but of a line that fills the buffer only its front.
    fn shift(&mut self) {
        let n = self.rest().len();
        self.buffer.copy_within(self.next..self.end, 0);
        self.next = 0;
        self.end = if n < self.buffer.len() {
            n
        } else {
            n.min(KEPT)
        };
    }

    // What is left of the buffer is filled by one read, whose answer is given.
    fn read_behind(&mut self) -> io::Result<usize>
        ensures order { self.new.next ≡ self.old.next }
        ensures room { IfOk result (λ n. self.new.end + n ≤ length self.new.buffer.now) }
    {
        if self.end < self.buffer.len() {
            return self.reader.read(&mut self.buffer[self.end..]);
        }
        Ok(0)
    }

    // Reads once more, while the input is open. A read that gives nothing is the end of the input, one that a signal interrupts is tried again.
    pub fn more(&mut self) {
        self.shift();
        match self.read_behind() {
            Ok(0) => self.standing = Standing::AtEnd,
            Ok(n) => self.end += n,
            Err(e) => {
                if e.kind() != ErrorKind::Interrupted {
                    self.standing = Standing::Failed;
                }
            }
        }
    }

    // Reads until a line is found or the input is over. A proved loop ends: no run uses up its turns.
    pub fn fetch(&mut self) -> Option<Found> {
        for _ in 0..u64::MAX {
            let found = self.seek();
            if found.is_some() || !self.is_open() {
                return found;
            }
            self.more();
        }
        None
    }

    // The next line that is not passed over.
    pub fn next_line(&mut self) -> Option<Found> {
        for _ in 0..u64::MAX {
            let found = self.fetch()?;
            if !addressing::is_passed_over(self.line(found)) {
                return Some(found);
            }
        }
        None
    }
}
