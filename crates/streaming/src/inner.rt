// Shared among our own crates: these ask something of their caller.
ghost use Rattle.std.specs.Prelude.{true, false, ◌≡◌, ◌+◌, ◌*◌, ◌≤◌, ◌<◌, length};
ghost use Rattle.lines.specs.private.Placing.{Put};
ghost use Rattle.streaming.specs.Limits.{LARGEST};
ghost use Rattle.streaming.specs.Runner.{closing};
ghost use Rattle.streaming.specs.private.Stepping.{Able, NextItem, Steps};
ghost use Rattle.streaming.specs.private.Advancing.{Advances};

use answers::answer_to;
use lines::LINE;
use lines::inner::{Line, Said};
use records::Item;

// How many bytes were taken and written, how many whole records have been read since the input
// began, and whether the reading has stopped.
#[derive(Clone, Copy)]
pub struct Stepped {
    pub taken: usize,
    pub written: usize,
    pub count: u64,
    pub stopped: bool,
}

impl Stepped {
    // Whether another item can be taken: there is room for a line, and a number for it.
    fn able(&self, room: usize) -> bool
        requires { self.now.written ≤ room }
        ensures { (result ≡ true → Able self.now room) × (result ≡ false → Able self.now room → ⊥) }
    {
        !self.stopped && LINE <= room - self.written && self.count < u64::MAX
    }

    // Takes the item that it has come to, if it can, and writes the item's line.
    #[tactic(auto, using(crate::proofs::Stepping::whole_within))]
    fn next(self, s: &[u8], out: &mut [u8]) -> Option<Stepped>
        requires { self.written ≤ length out.old }
        ensures { NextItem s.now self out.old result out.new }
    {
        if !self.able(out.len()) {
            return None;
        }
        let number = self.count + 1;
        let found = records::take(s, self.taken);
        match found.item {
            Item::Whole { kind, place } => {
                let answer = answer_to(kind, &s[place + 1..found.at]);
                let line = Line::record(number, kind, Said::Answered(answer));
                Some(Stepped {
                    taken: found.at,
                    written: line.put(out, self.written),
                    count: number,
                    stopped: false,
                })
            }
            Item::Unknown(kind) => {
                let line = Line::record(number, kind, Said::Unknown);
                Some(Stepped {
                    taken: self.taken + 1,
                    written: line.put(out, self.written),
                    count: self.count,
                    stopped: true,
                })
            }
            Item::Cut(_) | Item::End => None,
        }
    }
}

// Takes whole records from the front of s, after `count` records, and writes their lines. It stops
// taking where s has no whole record left, where out has no room for another line, and after a kind
// that is not known.
fn step(s: &[u8], count: u64, out: &mut [u8]) -> Stepped
    ensures { Steps s.now count result out.new }
{
    let mut p = Stepped {
        taken: 0,
        written: 0,
        count,
        stopped: false,
    };
    while let Some(next) = p.next(s, out) {
        p = next;
    }
    p
}

// A step over the bytes of a buffer, after which those that were not taken stand at its front.
pub fn advance(bytes: &mut [u8], count: u64, out: &mut [u8]) -> Stepped
    ensures { Advances bytes.old count out.old result bytes.new out.new }
{
    let p = step(bytes, count, out);
    bytes.copy_within(p.taken.., 0);
    p
}

// The last lines: rest is what no step took, the beginning of a record that the end of the input cuts,
// or nothing.
pub fn close(rest: &[u8], count: u64, out: &mut [u8], at: usize) -> usize
    requires { (count < LARGEST) × (at + 2 * LINE ≤ length out.old) }
    ensures { Put (closing rest.now count) at out.old out.new result × (result ≤ length out.new) }
{
    let end = Line::end(count);
    if rest.is_empty() {
        return end.put(out, at);
    }
    let next = Line::record(count + 1, rest[0], Said::Short).put(out, at);
    end.put(out, next)
}
