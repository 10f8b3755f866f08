// The chains of the access assignment channel: 14 data bits to 30 air bits, and 30 air bits to a verdict.
// Ported from lmac/components/errorcontrol.rs, encode_aach and decode_aach; changed: bits stand one to an entry in lent slices,
// what does not fit is refused, and receiving answers the verdict with the data bits as a number.
#![tactic(auto)]

ghost use Rattle.std.specs.Prelude.{◌≡◌, true, ◌≤◌, ◌<◌, ◌^◌, length};
ghost use Rattle.base.specs.Bits.{bits_only};
ghost use Rattle.base.specs.Digits.{digits, number};
ghost use Rattle.base.specs.Places.{written};
ghost use Rattle.stages.specs.Entries.{SendEntry};
ghost use Rattle.errorcontrol_aach.specs.Sending.{send_refusal, sent};
ghost use Rattle.errorcontrol_aach.specs.Receiving.{receive_refusal, verdict_from, answer_of};

use base::Refusal;
use base::inner::{bits_only, sized};
use rm3014::Verdict;

// The number that the bits say.
fn number_of(bits: &[u8]) -> u32
    requires { (length bits.now ≤ 30) × (bits_only (length bits.now) bits.now ≡ true) }
    ensures { (result ≡ number bits.now) × (result < 2 ^ length bits.now) }
{
    let mut sum: u32 = 0;
    for bit in bits {
        sum = sum * 2 + *bit as u32;
    }
    sum
}

// ---- sending

// SHORT, ROOM and BIT, in this order.
fn send_refusal(data: &[u8], air: usize) -> Result<(), Refusal>
    ensures { result ≡ send_refusal «data».now air }
{
    sized(data.len(), 14, air, 30)?;
    if bits_only(&data[..14]) {
        return Ok(());
    }
    Err(Refusal::Bit)
}

// The 30 bits of a word over the front of air, the most significant first.
fn write_word(word: u32, air: &mut [u8])
    requires { 30 ≤ length air.old }
    ensures { air.new ≡ written (digits 30 word) air.old }
{
    for i in 0..30 {
        air[i] = ((word >> (29 - i)) & 1) as u8;
    }
}

// The air bits of the data, over the front of the target.
fn send(start: u32, data: &[u8], air: &mut [u8])
    requires { (14 ≤ length «data».now) × (30 ≤ length air.old) × (bits_only 14 «data».now ≡ true) }
    ensures { air.new ≡ written (sent start «data».now) air.old }
{
    let word = rm3014::inner::code_word(number_of(&data[..14]) as u16);
    write_word(word, air);
    stages::inner::scramble(start, &mut air[..30]);
}

// Sends 14 data bits as 30 air bits, scrambled from start. Refusals: SHORT, ROOM, BIT.
pub fn encode_aach(start: u32, data: &[u8], air: &mut [u8]) -> Result<(), Refusal>
    ensures { SendEntry (send_refusal «data».now) (sent start «data».now) air.old result air.new }
{
    send_refusal(data, air.len())?;
    send(start, data, air);
    Ok(())
}

// ---- receiving

// SHORT and BIT, in this order.
fn receive_refusal(air: &[u8]) -> Result<(), Refusal>
    ensures { result ≡ receive_refusal air.now }
{
    if air.len() < 30 {
        return Err(Refusal::Short);
    }
    if bits_only(&air[..30]) {
        return Ok(());
    }
    Err(Refusal::Bit)
}

// The verdict on the word that the air bits say.
fn receive(start: u32, air: &[u8]) -> Verdict
    requires { (30 ≤ length air.now) × (bits_only 30 air.now ≡ true) }
    ensures { result ≡ verdict_from start air.now }
{
    let mut block = [0u8; 30];
    stages::inner::descramble(start, air, &mut block);
    rm3014::inner::verdict_of(number_of(&block))
}

// Receives 30 air bits that were scrambled from start: the verdict, with the data bits as a number. Refusals: SHORT, BIT.
pub fn decode_aach(start: u32, air: &[u8]) -> Result<Verdict, Refusal>
    ensures { result ≡ answer_of start air.now }
{
    receive_refusal(air)?;
    Ok(receive(start, air))
}
