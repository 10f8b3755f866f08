// The 16-bit check register of ITU-T, over entries that hold one bit each and over packed bytes.
// Ported from lmac/components/crc16.rs; changed: the byte form answers a refusal where the original panics, and the
// control check, which the original makes in its send chain, is written here. A caller gets the register after the bits.
#![tactic(auto)]

ghost use Rattle.std.specs.Prelude.{◌≡◌, ◌*◌, ◌/◌, ◌≤◌, ◌<◌, length, take};
ghost use Rattle.base.specs.Refusal.{valued};
ghost use Rattle.base.specs.Places.{tabulate};
ghost use Rattle.crc16.specs.Crc.{step, register, bit_of, bytes_refusal};

use base::Refusal;

// The generator without its top term.
pub const GEN_POLY: u16 = 0x1021;
// What data and its check leave in a register that began at 0xffff.
pub const TETRA_CRC_OK: u16 = 0x1d0f;

pub mod inner;

// The register after the lowest bit of b.
fn add_bit(crc: u16, b: u8) -> u16
    ensures { result ≡ step crc b }
{
    let top = (crc / 32768 + b as u16) % 2;
    (crc << 1) ^ (top * GEN_POLY)
}

// Bit number `bit` of packed bytes, the most significant of each byte first.
fn get_nth_bit(input: &[u8], bit: usize) -> u8
    requires { bit / 8 < length input.now }
    ensures { result ≡ bit_of input.now bit }
{
    (input[bit / 8] >> (7 - bit % 8)) % 2
}

// The register after the first number_bits entries, or after all where there are fewer; each entry counts by its lowest bit.
// Stays: C passes register, entries and count (caplattice_crc16_itut_bits), and so it does in the two public forms below.
// A loop, since a fold over a closure takes twice as long.
pub fn crc16_itut_bits(crc: u16, input: &[u8], number_bits: usize) -> u16
    ensures { result ≡ register crc (take number_bits input.now) }
{
    let bits = &input[..number_bits.min(input.len())];
    let mut reg = crc;
    for bit in bits {
        reg = add_bit(reg, *bit);
    }
    reg
}

// The register after the first number_bits bits of packed bytes that hold as many.
// Stays: a count of bits beside the bytes, since the bits may end inside a byte.
fn packed_bits(crc: u16, input: &[u8], number_bits: usize) -> u16
    requires { number_bits ≤ 8 * length input.now }
    ensures { result ≡ register crc (tabulate (bit_of input.now) number_bits) }
{
    let mut reg = crc;
    for i in 0..number_bits {
        reg = add_bit(reg, get_nth_bit(input, i));
    }
    reg
}

// The register after the first number_bits bits of packed bytes, the most significant of each first; SHORT past their end.
pub fn crc16_itut_bytes(crc: u16, input: &[u8], number_bits: usize) -> Result<u16, Refusal>
    ensures { result ≡ valued (bytes_refusal input.now number_bits) (register crc (tabulate (bit_of input.now) number_bits)) }
{
    // Eight times the length need not fit, so the bytes that are needed are counted instead.
    let needed = number_bits.div_ceil(8);
    if input.len() < needed {
        return Err(Refusal::Short);
    }
    Ok(packed_bits(crc, input, number_bits))
}

// The register that TETRA starts at 0xffff, after the first len entries.
pub fn crc16_ccitt_bits(input: &[u8], len: usize) -> u16
    ensures { result ≡ register 0xffff (take len input.now) }
{
    crc16_itut_bits(0xffff, input, len)
}
