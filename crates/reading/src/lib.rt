// The turns of a program that reads a recording: a read brings bytes, and the turn says what is to be
// written, what is kept at the buffer's front, and whether to go on.
// Added by us; nothing here is ported.
// A caller gets the first turn, and from each turn the next. It cannot make one up.
#![tactic(auto)]

pub mod inner;

ghost use Rattle.std.specs.Prelude.{true, false, ◌≡◌, Some};
ghost use Rattle.reading.specs.Words.{word_of};
ghost use Rattle.reading.specs.declared.Next.TheVariants.{Goes};
ghost use Rattle.reading.specs.Turns.{of_read, meant, bytes_of, has_failed, first, wrote};

use std::fmt;

// Whether to go on, and why not: the input has ended behind a whole record, or inside one; a kind is
// not known; the input could not be read; the lines could not be written; no number is left.
#[derive(Clone, Copy, PartialEq, Eq)]
pub enum Next {
    Goes,
    Whole,
    Cut,
    Unknown,
    Unread,
    Unwritten,
    Full,
}

impl fmt::Display for Next {
    ghost output = { λ next. Some (word_of next) };

    fn fmt<W: fmt::Write>(&self, f: &mut fmt::Formatter<W>) -> fmt::Result {
        let word = match self {
            Next::Goes => "goes",
            Next::Whole => "whole",
            Next::Cut => "cut",
            Next::Unknown => "unknown",
            Next::Unread => "unread",
            Next::Unwritten => "unwritten",
            Next::Full => "full",
        };
        f.write_str(word)
    }
}

// What one read brought: how many bytes, or None where it failed. No bytes are the end of the input.
#[derive(Clone, Copy)]
pub struct Got {
    bytes: Option<usize>,
}

impl Got {
    // What a read answered that had room for so many bytes; a negative number is a failure.
    // Stays: docs/PROMISES.md names it, with `meant`.
    pub fn answered(answer: isize, room: usize) -> Got
        ensures { result ≡ meant answer room }
    {
        Got::read(usize::try_from(answer).ok(), room)
    }

    // What a read brought that had room for so many bytes.
    pub fn read(bytes: Option<usize>, room: usize) -> Got
        ensures { result ≡ of_read bytes room }
    {
        Got {
            bytes: bytes.map(|n| n.min(room)),
        }
    }

    pub fn bytes(self) -> usize
        ensures { result ≡ bytes_of self }
    {
        self.bytes.unwrap_or(0)
    }

    pub fn failed(self) -> bool
        ensures { result ≡ has_failed self }
    {
        self.bytes.is_none()
    }
}

// How many bytes are kept at the buffer's front and how many are to be written, how many whole
// records have been read since the input began, and whether to go on.
#[derive(Clone, Copy)]
pub struct Turn {
    kept: usize,
    written: usize,
    count: u64,
    next: Next,
}

impl Turn {
    // Before the first read.
    pub fn first() -> Turn
        ensures { result ≡ first }
    {
        Turn {
            kept: 0,
            written: 0,
            count: 0,
            next: Next::Goes,
        }
    }

    pub fn kept(self) -> usize
        ensures { result ≡ self.kept }
    {
        self.kept
    }

    pub fn written(self) -> usize
        ensures { result ≡ self.written }
    {
        self.written
    }

    pub fn count(self) -> u64
        ensures { result ≡ self.count }
    {
        self.count
    }

    pub fn next(self) -> Next
        ensures { result ≡ self.next }
    {
        self.next
    }

    pub fn goes(self) -> bool
        ensures { (result ≡ true → self.next ≡ Goes) × (result ≡ false → self.next ≡ Goes → ⊥) }
    {
        matches!(self.next, Next::Goes)
    }

    // The same turn once its lines are written, and the end where they could not be.
    pub fn wrote(self, done: bool) -> Turn
        ensures { result ≡ wrote done self }
    {
        if done {
            return self;
        }
        Turn {
            next: Next::Unwritten,
            ..self
        }
    }
}
