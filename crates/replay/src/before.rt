// What a target holds before a request, and whether target and trellis hold after it what the record says.
ghost use Rattle.std.specs.Prelude.{◌≡◌, ◌≤◌, length};

// Entry i of a target where nothing is lent.
fn filler(seed: u8, i: usize) -> u8 {
    ((i % 251 * 29 + seed as usize) % 251 + 2) as u8
}

// A target with n entries filled; its front is the lent slice.
pub fn filled(seed: u8, lent: &[u8], n: usize) -> [u8; 65536]
    requires { (length lent.now ≤ n) × (n ≤ 65536) }
    ensures { length result ≡ 65536 }
{
    let mut target = [0u8; 65536];
    for (i, entry) in target[..n].iter_mut().enumerate() {
        *entry = filler(seed, i);
    }
    target[..lent.len()].copy_from_slice(lent);
    target
}

// Whether a target's front is what was written, and the rest what was there before.
pub fn same_target(before: &[u8], written: &[u8], after: &[u8]) -> bool
    requires { length before.now ≡ length after.now }
{
    let n = written.len().min(after.len());
    after[..n] == written[..n] && after[n..] == before[n..]
}

// Every entry is 1 before a request, because what a trellis holds then does not matter to an entry and 1 shows what was not cleared.
// The length is all that lending the array needs.
pub fn trellis() -> [u16; 1024]
    ensures { length result ≡ 1024 }
{
    [1u16; 1024]
}

// Whether a trellis' front is zero, and the rest what was there before.
pub fn same_trellis(trellis: &[u16], zeroed: usize) -> bool {
    let n = zeroed.min(trellis.len());
    trellis[..n].iter().all(|entry| *entry == 0) && trellis[n..].iter().all(|entry| *entry == 1)
}
