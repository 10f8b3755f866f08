// The runner: a recording on standard input, its lines on standard output (document 01).
// Added by us; nothing here is ported. `reading` decides what is written, what is kept and when to end;
// this reads, writes, and says how it ended.
#![tactic(auto)]

mod ending;
mod failure;
mod terminal;
mod transfer;

ghost use Rattle.reading.specs.Asking.{Room, Fits};
ghost use Rattle.runner.specs.Loop.{Ended, Tells};
ghost use Rattle.runner.specs.private.Transfers.{Writes};

use reading::inner::take_in;
use reading::{Got, Turn};
use std::io::{Read, Write};
use terminal::Meter;

// What a read brought is taken in, and the turn's lines are written.
fn turn<W: Write>(
    rt: &HostRuntime,
    output: &mut W,
    buf: &mut [u8],
    held: Turn,
    got: Got,
    out: &mut [u8],
) -> Turn
    requires { Fits held got buf.old out.old }
    ensures { Writes (W.contents output.old) (W.contents output.new) held got buf.old result buf.new out.new }
{
    let next = take_in(buf, held, got, out);
    let n = next.written();
    next.wrote(transfer::write_out(rt, output, &out[..n]))
}

fn run<R: Read, W: Write>(
    rt: &HostRuntime,
    input: &mut R,
    output: &mut W,
    buf: &mut [u8],
    out: &mut [u8],
) -> Turn
    requires { Room buf.old out.old }
    ensures ended { Ended (R.remaining input.old) (R.remaining input.new) (W.contents output.old)
        (W.contents output.new) result buf.new }
    ensures told { Tells (R.remaining input.old) (R.remaining input.new) (W.contents output.old)
        (W.contents output.new) result }
{
    let mut held = Turn::first();
    let mut meter = Meter::default();
    while held.goes() {
        let got = transfer::read_some(rt, input, buf, held);
        held = turn(rt, output, buf, held, got, out);
        meter.pass(rt, got, held);
    }
    held
}

// Stays: no `ExitCode`. The exit status is 0 however a run ended, and a file has the word (docs/DECISIONS.md).
fn main(rt: HostRuntime) {
    let mut buf = [0u8; 65536];
    let mut out = [0u8; 196848];
    let mut input = rt.stdin();
    let mut output = rt.stdout();
    let last = run(&rt, &mut input, &mut output, &mut buf, &mut out);
    ending::tell(&rt, last.next());
}
