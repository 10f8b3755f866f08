// How the program ended, for whoever started it. Its exit status is always 0. Its one argument, if it
// has one, names a file, and the last thing that it does is to write a word to that file.
use crate::failure::fail;
use reading::Next;
use std::env::FillError;
use std::fs::File;
use std::io;
use std::io::{Cursor, ErrorKind, Write};
use std::rt::Env;

// The longest name that a file can have, with the end that C puts behind it.
const NAME: usize = 4096;

// The system's numbers for a name that is too long, and for one that is no text, which std cannot open.
// Stays: no `ErrorKind` has the system's words for them, which standard error shows.
const TOO_LONG: i32 = 36;

const NO_TEXT: i32 = 84;

// Room for the longest word and the end of its line.
const WORD: usize = 16;

// The word and the end of its line go out in one write, so that whoever reads the file meanwhile never has half of them.
fn write_word(file: &mut File, next: Next) -> io::Result<()> {
    let mut line = Cursor::new([0u8; WORD]);
    writeln!(line, "{next}")?;
    let length = line.position() as usize;
    file.write_all(&line.get_ref()[..length.min(WORD)])
}

// Writes the word to the file of that name. Nothing is said of a turn that goes on: that is no end.
fn put_file(rt: &HostRuntime, name: &[u8], next: Next) -> io::Result<()> {
    let Ok(path) = std::str::from_utf8(name) else {
        return Err(io::Error::from_raw_os_error(NO_TEXT));
    };
    let mut file = File::create(rt, path)?;
    if next == Next::Goes {
        return Err(io::Error::from(ErrorKind::Other));
    }
    write_word(&mut file, next)
}

fn tell_file(rt: &HostRuntime, next: Next) -> io::Result<()> {
    let mut space = [0u8; NAME];
    match rt.arg(1, &mut space) {
        Ok(n) => put_file(rt, &space[..n], next),
        Err(_) => Err(io::Error::from_raw_os_error(TOO_LONG)),
    }
}

// Whether there is an argument, and not another one behind it.
fn is_named(rt: &HostRuntime) -> bool {
    has_arg(rt, 1) && !has_arg(rt, 2)
}

fn has_arg(rt: &HostRuntime, i: usize) -> bool {
    let mut space = [0u8; NAME];
    !matches!(rt.arg(i, &mut space), Err(FillError::NotPresent))
}

pub fn tell(rt: &HostRuntime, next: Next) {
    if next == Next::Full {
        let _ = eprintln!(rt; "runner: too many records");
    }
    if is_named(rt) {
        if let Err(e) = tell_file(rt, next) {
            fail(rt, "runner: the ending cannot be written", &e);
        }
    }
}
