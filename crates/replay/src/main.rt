// Repeats a list of answered requests (compare/FORMAT.md) on the functions of caplattice, and says how many came out equal: the answer, and
// every entry of target and trellis after the call. Each that does not is named by its entry and the byte of the list at which it begins.
// Added by us. The list holds the original's answers and, where document 01 refuses or reads otherwise, the independent program's.
#![tactic(auto)]

ghost use Rattle.std.specs.Prelude.{◌≡◌, ◌<◌, ◌≤◌, length};

use std::io::{Print, Read};

mod asked;
mod before;
mod head;
mod said;
mod say;
mod shape;

use head::Head;
use shape::Shape;

// Stays: a record may say this number, which no entry has, of a trellis that is not as it says; it then counts as equal, as it always did.
const DIFFERENT: u8 = 255;

// What became of a request, and how many bytes its record has.
#[derive(Clone, Copy)]
struct Turn {
    entry: u8,
    equal: bool,
    length: usize,
}

// The number of the refusal, or 0; DIFFERENT where the trellis is not as the record says, or there is no room for it.
fn answered(shape: Shape, head: Head, source: &[u8], target: &mut [u8], said: &mut [u64; 6]) -> u8 {
    let lent = if shape == Shape::Decoder {
        head.trellis
    } else {
        0
    };
    if 1024 < lent {
        return DIFFERENT;
    }
    let mut trellis = before::trellis();
    let refusal = asked::refusal(head.request, source, target, &mut trellis[..lent], said);
    if shape == Shape::Decoder && !before::same_trellis(&trellis, head.zeroed) {
        return DIFFERENT;
    }
    refusal
}

// Whether the entry answers as the record says and leaves the target that the record says.
fn repeated(shape: Shape, head: Head, source: &[u8], written: &[u8]) -> bool {
    // How much of its source the entry is lent as its target's front.
    let lent = if shape == Shape::InPlace {
        source.len()
    } else {
        0
    };
    // The target is as long as the source that is lent, or else as the record says.
    let n = if lent == 0 { head.target } else { lent };
    if 65536 < n {
        return false;
    }
    let before = before::filled(head.seed, &source[..lent], n);
    let mut target = before;
    let mut said = [0u64; 6];
    let refusal = answered(shape, head, source, &mut target[..n], &mut said);
    let delays = if shape == Shape::Encoder {
        head.request.word as u64
    } else {
        0
    };
    said::packed(refusal, said, delays) == head.answer
        && before::same_target(&before[..n], written, &target[..n])
}

// The first record of what is left of the list. One that is cut does not count as equal, and nothing is left after it.
fn record(rest: &[u8]) -> Turn
    requires { 0 < length rest.now }
    ensures length_nonzero { 0 < result.length }
    ensures length_in_bounds { result.length ≤ length rest.now }
{
    let entry = rest[0];
    let cut = Turn {
        entry,
        equal: false,
        length: rest.len(),
    };
    if rest.len() < head::BYTES {
        return cut;
    }
    let head = Head::read(rest);
    let start = head::BYTES + head.source;
    let end = start + head.written;
    if rest.len() < end {
        return cut;
    }
    let equal = match Shape::of(entry) {
        Some(shape) => repeated(shape, head, &rest[head::BYTES..start], &rest[start..end]),
        None => false,
    };
    Turn {
        entry,
        equal,
        length: end,
    }
}

// One more for a record that came out equal; one that did not is named.
fn told<P: Print>(out: &P, r: Turn, at: usize, equal: u64) -> u64 {
    if r.equal {
        return equal.wrapping_add(1);
    }
    say::differs(out, r.entry, at);
    equal
}

// Stays: records differ in length, so no `for` goes from one to the next.
fn all<P: Print>(out: &P, list: &[u8]) {
    let mut equal: u64 = 0;
    let mut at: usize = 0;
    while at < list.len() {
        let r = record(&list[at..]);
        equal = told(out, r, at, equal);
        at += r.length;
    }
    say::equal(out, equal);
}

fn list_room() -> [u8; 393216]
    ensures { length result ≡ 393216 }
{
    [0u8; 393216]
}

// Stays: how far a read goes is up to the read.
// Reads until the list is full, the input ends or a read fails, and returns how many bytes it put at the list's front.
fn read_full<R: Read>(input: &mut R, list: &mut [u8]) -> usize
    ensures { result ≤ length list.new }
{
    let mut done = 0;
    while done < list.len() {
        match input.read(&mut list[done..]) {
            Ok(n) if n > 0 => done += n,
            _ => return done,
        }
    }
    done
}

fn main(rt: HostRuntime) {
    let mut list = list_room();
    let n = read_full(&mut rt.stdin(), &mut list);
    all(&rt, &list[..n]);
}
