// The lines that the program writes. One that cannot be written is let go.
use std::io::Print;

pub fn equal<P: Print>(out: &P, n: u64) {
    let _ = println!(out; "{n} equal");
}

pub fn differs<P: Print>(out: &P, entry: u8, at: usize) {
    let _ = println!(out; "DIFFERS: entry {entry}, the record at byte {at}");
}
