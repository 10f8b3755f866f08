// Shared among our own crates: these ask something of their caller.
ghost use Rattle.std.specs.Prelude.{◌+◌, ◌*◌, ◌≤◌, ◌<◌, length};
ghost use Rattle.lines.specs.Lines.{LINE};
ghost use Rattle.streaming.specs.Limits.{LARGEST};
ghost use Rattle.reading.specs.Reading.{Takes};
ghost use Rattle.reading.specs.Asking.{Fits};
ghost use Rattle.reading.specs.private.Parts.{Brings, Finishes};

use crate::{Got, Next, Turn};
use streaming::inner::{advance, close};

// Bytes have come, and are taken in.
fn bring(bytes: &mut [u8], count: u64, out: &mut [u8]) -> Turn
    requires { 3 * length bytes.old + 3 * LINE ≤ length out.old }
    ensures { Brings bytes.old count result bytes.new out.new }
{
    let p = advance(bytes, count, out);
    if p.stopped {
        return Turn {
            kept: 0,
            written: close(&[], p.count, out, p.written),
            count: p.count,
            next: Next::Unknown,
        };
    }
    if p.count == u64::MAX {
        return Turn {
            kept: 0,
            written: p.written,
            count: p.count,
            next: Next::Full,
        };
    }
    Turn {
        kept: bytes.len() - p.taken,
        written: p.written,
        count: p.count,
        next: Next::Goes,
    }
}

// The input has ended, and rest is what it left.
fn finish(rest: &[u8], count: u64, out: &mut [u8]) -> Turn
    requires { (count < LARGEST) × (2 * LINE ≤ length out.old) }
    ensures { Finishes rest.now count result out.new }
{
    let written = close(rest, count, out, 0);
    if rest.is_empty() {
        return Turn {
            kept: 0,
            written,
            count,
            next: Next::Whole,
        };
    }
    Turn {
        kept: 0,
        written,
        count,
        next: Next::Cut,
    }
}

// One turn: what a read brought to the buffer, behind what was kept, is taken in.
pub fn take_in(buf: &mut [u8], held: Turn, got: Got, out: &mut [u8]) -> Turn
    requires { Fits held got buf.old out.old }
    ensures { Takes held got buf.old result buf.new out.new }
{
    let Some(bytes) = got.bytes else {
        return Turn {
            written: 0,
            next: Next::Unread,
            ..held
        };
    };
    if bytes == 0 {
        return finish(&buf[..held.kept], held.count, out);
    }
    bring(&mut buf[..held.kept + bytes], held.count, out)
}
