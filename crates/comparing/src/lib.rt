// The comparison of a mother word with a depunctured one.
// Ported from lmac/components/convenc.rs; changed: the answer is an Option; what differs and what matched are gathered apart.
// A caller gets how many entries matched, or None where some entry differs; erasures of the depunctured word are skipped.
#![tactic(auto)]

ghost use Rattle.std.specs.Prelude.{◌≡◌, ◌≤◌, length};
ghost use Rattle.comparing.specs.Comparing.{compare};
ghost use Rattle.comparing.specs.private.Gathering.{counts, difference, unerased, differing};
// 1 for an entry that is compared, 0 for an erasure.
fn counts(d: u8) -> u8
    ensures { result ≡ counts d }
{
    u8::from(d != 0xff)
}

// 1 for an entry that is compared and differs from the mother's.
fn difference(m: u8, d: u8) -> u8
    ensures { result ≡ difference m d }
{
    counts(d) & u8::from(d != m)
}

// How many entries of a short slice are compared.
fn unerased(s: &[u8]) -> u8
    requires { length s.now ≤ 255 }
    ensures { result ≡ unerased s.now }
{
    let mut found: u8 = 0;
    for d in s {
        found += counts(*d);
    }
    found
}

// How many entries are compared, counted in parts that a byte can count.
fn unerased_among(s: &[u8]) -> usize
    ensures { result ≡ unerased s.now }
{
    let mut found: usize = 0;
    for part in s.chunks(240) {
        found += unerased(part) as usize;
    }
    found
}

// 1 where some entries of two words differ, up to the shorter length, and 0 where none does.
// Stays: 0 or 1 in a byte, here and above, so that all entries are gone through at once as bytes.
fn differing(mother: &[u8], depunct: &[u8]) -> u8
    ensures { result ≡ differing mother.now depunct.now }
{
    mother
        .iter()
        .zip(depunct)
        .fold(0, |found, (m, d)| found | difference(*m, *d))
}

// A mother word against a depunctured one, up to the shorter length. Entries 0xff of the depunctured one are skipped.
pub fn mother_memcmp(mother: &[u8], depunct: &[u8]) -> Option<usize>
    ensures { result ≡ compare mother.now depunct.now }
{
    let n = mother.len().min(depunct.len());
    if differing(mother, depunct) != 0 {
        return None;
    }
    Some(unerased_among(&depunct[..n]))
}
