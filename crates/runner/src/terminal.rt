// What the runner says on standard error while it goes on.
use reading::{Got, Turn};
use std::io::IsTerminal;

// A report is made once in so many bytes, which are so many megabytes.
const REPORT: u64 = 67108864;

const MEGABYTES: u64 = 64;

// How many bytes have come since the last report, and how many megabytes were reported.
#[derive(Default, Drop)]
pub struct Meter {
    since: u64,
    megabytes: u64,
}

impl Meter {
    // On long input a line now and then, where standard error is a terminal. One that cannot be
    // written is left out.
    pub fn pass(&mut self, rt: &HostRuntime, got: Got, turn: Turn) {
        self.since = self.since.wrapping_add(got.bytes() as u64);
        if self.since < REPORT {
            return;
        }
        self.since -= REPORT;
        self.megabytes = self.megabytes.wrapping_add(MEGABYTES);
        if rt.stderr().is_terminal() {
            let count = turn.count();
            let megabytes = self.megabytes;
            let _ = eprintln!(rt; "runner: {count} records, {megabytes} megabytes");
        }
    }
}
