// What cannot be done, and the system's reason, on standard error.
use std::io;

// The words that the system's number stands in, behind its reason.
const NUMBER: &str = " (os error ";

fn said(rt: &HostRuntime, what: &str, reason: &io::Error) -> io::Result<()> {
    let words = format!(in rt.alloc(); "{reason}")?;
    match words.as_str().split_once(NUMBER) {
        Some((bare, _)) => eprintln!(rt; "{what}: {bare}"),
        None => eprintln!(rt; "{what}: {words}"),
    }
}

// Where there is no memory for the words, they are said with the number.
pub fn fail(rt: &HostRuntime, what: &str, reason: &io::Error) {
    if said(rt, what, reason).is_err() {
        let _ = eprintln!(rt; "{what}: {reason}");
    }
}
