// Shared among our own crates.
ghost use Rattle.std.specs.Prelude.{◌≡◌, length};
ghost use Rattle.base.specs.Bits.{bits_only};
ghost use Rattle.base.specs.Refusal.{accepted, sized};

use super::Refusal;

// Whether every entry is a bit.
pub fn bits_only(s: &[u8]) -> bool
    ensures { result ≡ bits_only (length s.now) s.now }
{
    let mut all: u8 = 0;
    for entry in s {
        all |= *entry;
    }
    all < 2
}

// The two tests that most entries share: the source's entries, then the target's.
pub fn sized(source: usize, least: usize, target: usize, room: usize) -> Result<(), Refusal>
    ensures { result ≡ sized source least target room accepted }
{
    if source < least {
        return Err(Refusal::Short);
    }
    if target < room {
        return Err(Refusal::Room);
    }
    Ok(())
}
