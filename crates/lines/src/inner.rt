// Shared among our own crates: writing a line asks that there be room for it.
#![tactic(auto, using(crate::proofs::Laws::sizes), unfolding(crate::specs::Lines::counted, crate::specs::Lines::judged, crate::specs::private::Widths::heading, crate::specs::Lines::line, crate::specs::Lines::end_line))]

ghost use Rattle.std.specs.Prelude.{[], ◌∷◌, ◌++◌, ◌+◌, ◌≤◌, ◌<◌, ◌≡◌, length, drop};
ghost use Rattle.lines.specs.private.Placing.{Put};
ghost use Rattle.lines.specs.private.Widths.{SAID, heading, said_text};
ghost use Rattle.lines.specs.Text.{sign, decimal, hex};
ghost use Rattle.lines.specs.Lines.{counted, judged, line, end_line};

use crate::LINE;
use answers::Answer;
use base::Refusal;
use rm3014::Verdict;
use std::marker::Model;

// What is said of a record: what its chain answered, that its kind is not known, or that its body is
// cut.
#[derive(Clone, Copy)]
pub enum Said {
    Answered(Result<Answer, Refusal>),
    Unknown,
    Short,
}

// A line as far as it is written, with room for the longest.
// Stays: an array with a length, since the project has no heap (docs/DECISIONS.md).
#[derive(Drop)]
pub struct Line {
    text: [u8; LINE],
    length: usize,
}

impl Model for Line {
    ghost use Rattle.std.specs.Prelude.{List, ℕ, ◌≤◌, take};

    ghost Value = { List ℕ };

    ghost view = { λ l. take l.length l.text };

    ghost invariant = { λ l. l.length ≤ 80 };
}

#[tactic(auto, using(crate::proofs::Laws::sign_low, crate::proofs::Laws::sign_high))]
fn sign_of(digit: u64) -> u8
    requires { digit < 16 }
    ensures { result ≡ sign digit }
{
    if digit < 10 {
        b'0' + digit as u8
    } else {
        87 + digit as u8
    }
}

// Stays: digits by hand, here and below. `write!` says what it wrote only where it answers Ok, and `record` and `end` have no other answer.
// Puts the decimal digits of n at the array's end, and answers the place of the first.
fn decimal_digits(n: u64, digits: &mut [u8; 20]) -> usize
    ensures { (drop result digits.new ≡ decimal n) × (result ≤ 20) }
{
    let mut rest = n;
    let mut at: usize = 19;
    while 10 <= rest {
        digits[at] = sign_of(rest % 10);
        rest /= 10;
        at -= 1;
    }
    digits[at] = sign_of(rest % 10);
    at
}

// Puts the last hexadecimal digits of n, as many as there are entries.
fn hex_digits(n: u64, digits: &mut [u8])
    ensures { digits.new ≡ hex (length digits.old) n }
{
    let mut rest = n;
    for i in (0..digits.len()).rev() {
        digits[i] = sign_of(rest % 16);
        rest /= 16;
    }
}

impl Line {
    fn new() -> Line
        ensures { result ≡ [] }
    {
        Line {
            text: [0; LINE],
            length: 0,
        }
    }

    fn push(&mut self, byte: u8)
        requires { length self.old < LINE }
        ensures { self.new ≡ self.old ++ byte ∷ [] }
    {
        self.text[self.length] = byte;
        self.length += 1;
    }

    fn push_text(&mut self, text: &[u8])
        requires { length self.old + length text.now ≤ LINE }
        ensures { self.new ≡ self.old ++ text.now }
    {
        let end = self.length + text.len();
        self.text[self.length..end].copy_from_slice(text);
        self.length = end;
    }

    fn push_decimal(&mut self, n: u64)
        requires { length self.old + length (decimal n) ≤ LINE }
        ensures { self.new ≡ self.old ++ decimal n }
    {
        let mut digits = [0u8; 20];
        let first = decimal_digits(n, &mut digits);
        self.push_text(&digits[first..]);
    }

    // The last `digits` hexadecimal digits of n.
    fn push_hex(&mut self, digits: usize, n: u64)
        requires { length self.old + digits ≤ LINE }
        ensures { self.new ≡ self.old ++ hex digits n }
    {
        let end = self.length + digits;
        hex_digits(n, &mut self.text[self.length..end]);
        self.length = end;
    }

    fn push_counted(&mut self, word: &[u8], n: u64)
        requires { length self.old + length (counted word.now n) ≤ LINE }
        ensures { self.new ≡ self.old ++ counted word.now n }
    {
        self.push_text(word);
        self.push(b' ');
        self.push_decimal(n);
    }

    fn push_judged(&mut self, word: &[u8], place: u64, contents: u64)
        requires { length self.old + length (judged word.now place contents) ≤ LINE }
        ensures { self.new ≡ self.old ++ judged word.now place contents }
    {
        self.push_counted(word, place);
        self.push(b' ');
        self.push_hex(4, contents);
    }

    fn push_said(&mut self, said: Said)
        requires { length self.old + SAID ≤ LINE }
        ensures { self.new ≡ self.old ++ said_text said }
    {
        match said {
            Said::Answered(Ok(Answer::Good(counts))) => {
                self.push_counted(b"good", counts.disagreements as u64)
            }
            Said::Answered(Ok(Answer::Bad(counts))) => {
                self.push_counted(b"bad", counts.disagreements as u64)
            }
            Said::Answered(Ok(Answer::Aach(verdict))) => match verdict {
                Verdict::Clean(contents) => self.push_judged(b"clean", 0, contents as u64),
                Verdict::Mended(place, contents) => {
                    self.push_judged(b"mended", place as u64, contents as u64)
                }
                Verdict::Beyond(contents) => self.push_judged(b"beyond", 0, contents as u64),
            },
            Said::Answered(Err(refusal)) => {
                self.push_counted(b"refused", u8::from(refusal) as u64)
            }
            Said::Unknown => self.push_text(b"unknown"),
            Said::Short => self.push_text(b"short"),
        }
    }

    fn push_heading(&mut self, number: u64, kind: u8)
        requires { length self.old + length (heading number kind) ≤ LINE }
        ensures { self.new ≡ self.old ++ heading number kind }
    {
        self.push_decimal(number);
        self.push(b' ');
        self.push_hex(2, kind as u64);
        self.push(b' ');
    }

    // The line of a record.
    pub fn record(number: u64, kind: u8, said: Said) -> Line
        ensures { result ≡ line number kind (said_text said) }
    {
        let mut line = Line::new();
        line.push_heading(number, kind);
        line.push_said(said);
        line.push(b'\n');
        line
    }

    // The last line.
    pub fn end(count: u64) -> Line
        ensures { result ≡ end_line count }
    {
        let mut line = Line::new();
        line.push_counted(b"end", count);
        line.push(b'\n');
        line
    }

    // Writes the line into a target from a place on, and answers the place behind it.
    pub fn put(&self, out: &mut [u8], at: usize) -> usize
        requires { at + LINE ≤ length out.old }
        ensures { Put self.now at out.old out.new result × (result ≤ at + LINE) }
    {
        let end = at + self.length;
        out[at..end].copy_from_slice(&self.text[..self.length]);
        end
    }
}
