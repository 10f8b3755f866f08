// Reading the input and writing the output. A call that a signal interrupts is made again.
ghost use Rattle.std.specs.Prelude.{◌<◌, ◌≤◌, length, is_ok, IfOk};
ghost use Rattle.std.specs.Io.KnownBytes.{ReadConsumes, WriteAppends};
ghost use Rattle.runner.specs.private.Transfers.{Reads, Lands};

use crate::failure::fail;
use reading::{Got, Turn};
use std::io;
use std::io::{Error, ErrorKind, Read, Write};

// Stays: `read_once` and `write_once` are a loop each. Of a call through a closure that holds the reader
// or the writer nothing is known of what it gave or took, as `Reads` and `Lands` say.
fn read_once<R: Read>(input: &mut R, buf: &mut [u8]) -> io::Result<usize>
    ensures within { IfOk result (λ n. n ≤ length buf.new) }
    ensures came { ReadConsumes (R.remaining input.old) (R.remaining input.new) result buf.new }
{
    for _ in 0..u64::MAX {
        match input.read(buf) {
            Ok(n) => return Ok(n),
            Err(e) => {
                if e.kind() != ErrorKind::Interrupted {
                    return Err(e);
                }
            }
        }
    }
    Err(Error::from(ErrorKind::Interrupted))
}

// One read into buf, behind what is kept there. A failure is said on standard error.
pub fn read_some<R: Read>(rt: &HostRuntime, input: &mut R, buf: &mut [u8], held: Turn) -> Got
    requires { held.kept < length buf.old }
    ensures { Reads (R.remaining input.old) (R.remaining input.new) held result buf.old buf.new }
{
    let fill = held.kept();
    let room = buf.len() - fill;
    match read_once(input, &mut buf[fill..]) {
        Ok(n) => Got::read(Some(n), room),
        Err(e) => {
            fail(rt, "runner: standard input cannot be read", &e);
            Got::read(None, room)
        }
    }
}

// A write that takes nothing is a failure.
fn write_once<W: Write>(output: &mut W, text: &[u8]) -> io::Result<usize>
    ensures within { IfOk result (λ n. n ≤ length text.now) }
    ensures some { IfOk result (λ n. 0 < n) }
    ensures went { WriteAppends (W.contents output.old) (W.contents output.new) result text.now }
{
    for _ in 0..u64::MAX {
        match output.write(text) {
            Ok(0) => return Err(Error::from(ErrorKind::WriteZero)),
            Ok(n) => return Ok(n),
            Err(e) => {
                if e.kind() != ErrorKind::Interrupted {
                    return Err(e);
                }
            }
        }
    }
    Err(Error::from(ErrorKind::Interrupted))
}

// Stays: std's `write_all` says nothing of what was written before a failure, as `Lands` does.
fn write_all<W: Write>(output: &mut W, text: &[u8]) -> io::Result<()>
    ensures { Lands (W.contents output.old) (W.contents output.new) text.now (is_ok result) }
{
    let mut from: usize = 0;
    while from < text.len() {
        from += write_once(output, &text[from..])?;
    }
    Ok(())
}

// Writes all of text, in as many calls as it takes, and answers whether it did. A failure is said on
// standard error.
pub fn write_out<W: Write>(rt: &HostRuntime, output: &mut W, text: &[u8]) -> bool
    ensures { Lands (W.contents output.old) (W.contents output.new) text.now result }
{
    match write_all(output, text) {
        Ok(()) => true,
        Err(e) => {
            fail(rt, "runner: standard output cannot be written", &e);
            false
        }
    }
}
