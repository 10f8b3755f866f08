// The scrambling register, and what it makes of a block that holds one bit, or one received symbol, in each entry.
// Ported from lmac/components/scrambler.rs; changed: a block is a lent slice, sending refuses what is no bit, receiving is a
// form of its own that keeps erasures, and fields out of range are refused. A caller gets its block scrambled in place.
#![tactic(auto)]

ghost use Rattle.std.specs.Prelude.{◌≡◌, ℕ, ◌+◌, ◌*◌, ◌/◌, ◌%◌, ◌^◌, ◌≤◌, ◌<◌, length, get_or};
ghost use Rattle.base.specs.Refusal.{Leaves, valued};
ghost use Rattle.base.specs.Places.{tabulate};
ghost use Rattle.scrambler.specs.Scrambling.{output, field_refusal, start_value, scrambled, send_refusal, descrambled_symbol, descrambled};
ghost use Rattle.scrambler.specs.private.Scrambling.{nexts};
ghost use Rattle.scrambler.specs.private.Fours.{Spreads, Taken, Begun};

use base::Refusal;

// The start value of the synchronization channel, BSCH.
pub const SCRAMB_INIT: u32 = 3;

// The bits of each number below 16, the lowest first.
const SPREAD: [[u8; 4]; 16] = [
    [0, 0, 0, 0],
    [1, 0, 0, 0],
    [0, 1, 0, 0],
    [1, 1, 0, 0],
    [0, 0, 1, 0],
    [1, 0, 1, 0],
    [0, 1, 1, 0],
    [1, 1, 1, 0],
    [0, 0, 0, 1],
    [1, 0, 0, 1],
    [0, 1, 0, 1],
    [1, 1, 0, 1],
    [0, 0, 1, 1],
    [1, 0, 1, 1],
    [0, 1, 1, 1],
    [1, 1, 1, 1],
];

// The scrambling register. It holds thirty-two outputs, the first lowest.
#[derive(Clone, Copy)]
struct Register {
    bits: u32,
}

impl Register {
    // After thirty-two shifts. It holds their outputs and nothing else.
    fn renewed(self) -> Self
        ensures { result.bits ≡ nexts self.bits 32 }
    {
        let x = self.bits;
        // The taps of the register as it is, moved down to the place of each output.
        let own = x
            ^ (x >> 6)
            ^ (x >> 9)
            ^ (x >> 10)
            ^ (x >> 16)
            ^ (x >> 20)
            ^ (x >> 21)
            ^ (x >> 22)
            ^ (x >> 24)
            ^ (x >> 25)
            ^ (x >> 27)
            ^ (x >> 28)
            ^ (x >> 30)
            ^ (x >> 31);
        // Outputs come to the taps while later ones are made: how far each part reaches into those after it.
        let bits = own
            ^ (own << 1)
            ^ (own << 3)
            ^ (own << 5)
            ^ (own << 7)
            ^ (own << 9)
            ^ (own << 11)
            ^ (own << 12)
            ^ (own << 16)
            ^ (own << 18)
            ^ (own << 23)
            ^ (own << 27)
            ^ (own << 30)
            ^ (own << 31);
        Register { bits }
    }

    // The register that holds output i, from the one that held the output before it.
    fn at(self, i: usize) -> Self
        ensures { (i % 32 ≡ 0 → result.bits ≡ nexts self.bits 32) × ((i % 32 ≡ 0 → ⊥) → result.bits ≡ self.bits) }
    {
        if i % 32 == 0 { self.renewed() } else { self }
    }

    // Output i, where the register holds it.
    fn output(self, i: usize) -> u8
        ensures { result ≡ self.bits / 2 ^ (i % 32) % 2 }
    {
        ((self.bits >> (i % 32)) % 2) as u8
    }

    // The outputs from i on, four of them, by the table of four bits.
    fn outputs(self, spread: &[[u8; 4]; 16], i: usize) -> [u8; 4]
        requires { Spreads spread.now }
        ensures { (e : ℕ) → e < 4 → get_or result e 0 ≡ self.bits / 2 ^ (i % 32) / 2 ^ e % 2 }
    {
        let four = ((self.bits >> (i % 32)) % 16) as usize;
        spread[four]
    }

    // As much of a block as whole fours make, with the outputs taken off, and the register that the rest goes on from.
    fn descramble_fours(self, block: &mut [u8]) -> Self
        ensures { Begun self.bits (length block.old / 4 * 4) result.bits block.old block.new }
    {
        let spread = SPREAD;
        let mut lfsr = self;
        for q in 0..block.len() / 4 {
            lfsr = lfsr.at(4 * q);
            descramble_four(lfsr.outputs(&spread, 4 * q), block, 4 * q);
        }
        lfsr
    }
}

// A received symbol with an output taken off.
fn descramble_symbol(symbol: u8, bit: u8) -> u8
    requires { bit < 2 }
    ensures { result ≡ descrambled_symbol symbol bit }
{
    if 1 < symbol { 0xff } else { symbol ^ bit }
}

// The outputs of the register, over the whole of out.
pub fn tetra_scramb_get_bits(lfsr_init: u32, out: &mut [u8])
    ensures { out.new ≡ tabulate (output lfsr_init) (length out.old) }
{
    let mut lfsr = Register { bits: lfsr_init };
    for (i, bit) in out.iter_mut().enumerate() {
        lfsr = lfsr.at(i);
        *bit = lfsr.output(i);
    }
}

// Four symbols from a place on with their outputs taken off.
fn descramble_four(outputs: [u8; 4], block: &mut [u8], at: usize)
    requires { ((e : ℕ) → e < 4 → get_or outputs e 0 < 2) × (at + 4 ≤ length block.old) }
    ensures { Taken outputs 4 at block.old block.new }
{
    for e in 0..4 {
        block[at + e] = descramble_symbol(block[at + e], outputs[e]);
    }
}

// Receiving: a block of symbols without its scrambling. Every byte but 0 and 1 becomes an erasure.
pub fn tetra_descramb_bits(lfsr_init: u32, block: &mut [u8])
    ensures { block.new ≡ descrambled lfsr_init block.old }
{
    let mut lfsr = Register { bits: lfsr_init }.descramble_fours(block);
    for i in block.len() / 4 * 4..block.len() {
        lfsr = lfsr.at(i);
        block[i] = descramble_symbol(block[i], lfsr.output(i));
    }
}

// Sending: a block of bits scrambled. BIT, and nothing is changed, where an entry is no bit.
pub fn tetra_scramb_bits(lfsr_init: u32, block: &mut [u8]) -> Result<(), Refusal>
    ensures { Leaves (send_refusal block.old) (scrambled lfsr_init block.old) block.old block.new result }
{
    if base::inner::bits_only(block) {
        tetra_descramb_bits(lfsr_init, block);
        Ok(())
    } else {
        Err(Refusal::Bit)
    }
}

// The start value of a cell's country code, network code and colour code; FIELD where one does not fit its field.
pub fn tetra_scramb_get_init(mcc: u16, mnc: u16, colour: u8) -> Result<u32, Refusal>
    ensures { result ≡ valued (field_refusal mcc mnc colour) (start_value mcc mnc colour) }
{
    if 1023 < mcc {
        return Err(Refusal::Field);
    }
    if 16383 < mnc {
        return Err(Refusal::Field);
    }
    if 63 < colour {
        return Err(Refusal::Field);
    }
    if colour == 0 {
        return Ok(0);
    }
    let start = 4 * (colour as u32 + 64 * mnc as u32 + 0x10_0000 * mcc as u32) + SCRAMB_INIT;
    Ok(start)
}
