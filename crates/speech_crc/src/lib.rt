// The check of speech class 2: seven remainder bits and a parity bit.
// Ported from speech_crc in lmac/components/errorcontrol.rs; changed: slices of any length, a lent target, refusals,
// and the parity runs over the 60 data bits alone where the original's runs over the whole slice.
#![tactic(auto)]

ghost use Rattle.std.specs.Prelude.{◌≡◌, ◌+◌, ◌-◌, ◌%◌, ◌≤◌, length, get_or};
ghost use mathlib.Core.List.{[], ◌∷◌, ◌++◌, foldr};
ghost use Rattle.base.specs.Places.{written, tabulate};
ghost use Rattle.base.specs.Refusal.{Leaves};
ghost use Rattle.speech_crc.specs.Check.{data_bits, remainder, speech_check, check_refusal};

use base::Refusal;
use base::inner::sized;

// The remainder, the highest degree first: a register of seven coefficients takes the data in, the last bit first.
fn divide(class2: &[u8]) -> [u8; 7]
    requires { 60 ≤ length class2.now }
    ensures { result ≡ remainder (data_bits class2.now) }
{
    let mut sixth: u8 = 0;
    let mut fifth: u8 = 0;
    let mut fourth: u8 = 0;
    let mut third: u8 = 0;
    let mut second: u8 = 0;
    let mut first: u8 = 0;
    let mut constant: u8 = 0;
    for i in (0..60).rev() {
        let lead = sixth ^ class2[i];
        sixth = fifth;
        fifth = fourth;
        fourth = third;
        third = second ^ lead;
        second = first;
        first = constant;
        constant = lead;
    }
    [
        sixth % 2,
        fifth % 2,
        fourth % 2,
        third % 2,
        second % 2,
        first % 2,
        constant % 2,
    ]
}

// The sum mod 2 of the entries' lowest bits.
fn parity(s: &[u8]) -> u8
    ensures { result ≡ foldr ◌+◌ 0 (tabulate (λ i. get_or s.now i 0 % 2) (length s.now)) % 2 }
{
    let mut sum: u8 = 0;
    for b in s {
        sum ^= b;
    }
    sum % 2
}

// The remainder, the lowest degree first, and the parity behind it.
fn put(left: [u8; 7], last: u8, check: &mut [u8])
    requires { 8 ≤ length check.old }
    ensures { check.new ≡ written (tabulate (λ i. get_or left (6 - i) 0) 7 ++ (last ∷ [])) check.old }
{
    for i in 0..7 {
        check[i] = left[6 - i];
    }
    check[7] = last;
}

// The check of the first 60 entries' lowest bits, into the first 8 of the target.
fn put_check(class2: &[u8], check: &mut [u8])
    requires { (60 ≤ length class2.now) × (8 ≤ length check.old) }
    ensures { check.new ≡ written (speech_check class2.now) check.old }
{
    let left = divide(class2);
    let last = (parity(&class2[..60]) + parity(&left)) % 2;
    put(left, last, check);
}

// Writes the eight check bits of the 60 data bits, or refuses and writes nothing: SHORT below 60 entries, ROOM below 8.
pub fn speech_crc(class2: &[u8], check: &mut [u8]) -> Result<(), Refusal>
    ensures { Leaves (check_refusal (length class2.now) (length check.old))
        (written (speech_check class2.now) check.old) check.old check.new result }
{
    sized(class2.len(), 60, check.len(), 8)?;
    put_check(class2, check);
    Ok(())
}
