// The code RM(30,14) of the access field: code words, the syndrome of a received word, and the verdict on it.
// Ported from lmac/components/rm3014.rs; changed: what is no data word or no 30-bit word is refused, the decoder says
// what it found, and the column syndromes, which are worked out there as it is compiled, are written out.
#![tactic(auto)]

ghost use Rattle.std.specs.Prelude.{◌≡◌, [], ◌<◌, get_or};
ghost use Rattle.base.specs.Refusal.{valued};
ghost use Rattle.rm3014.specs.Code.{table, code_word, upwards, columns, syndrome, data_of};
ghost use Rattle.rm3014.specs.Verdict.{verdict, bounded, input_refusal, word_refusal};

use base::Refusal;

pub mod inner;

// The parity part of the generator, EN 300 392-2, 8.2.3.2: a row for each data bit.
pub const RM_30_14_GEN: [[u8; 16]; 14] = [
    [1, 0, 0, 1, 1, 0, 1, 1, 0, 1, 1, 0, 0, 0, 0, 0],
    [0, 0, 1, 0, 1, 1, 0, 1, 1, 1, 1, 0, 0, 0, 0, 0],
    [1, 1, 1, 1, 1, 1, 0, 0, 0, 0, 1, 0, 0, 0, 0, 0],
    [1, 1, 1, 0, 0, 0, 0, 0, 0, 0, 1, 1, 1, 1, 0, 0],
    [1, 0, 0, 1, 1, 0, 0, 0, 0, 0, 1, 1, 1, 0, 1, 0],
    [0, 1, 0, 1, 0, 1, 0, 0, 0, 0, 1, 1, 0, 1, 1, 0],
    [0, 0, 1, 0, 1, 1, 0, 0, 0, 0, 1, 0, 1, 1, 1, 0],
    [1, 1, 1, 1, 1, 1, 1, 1, 1, 1, 0, 1, 1, 1, 1, 1],
    [1, 0, 0, 0, 0, 0, 1, 1, 0, 0, 1, 1, 1, 0, 0, 1],
    [0, 1, 0, 0, 0, 0, 1, 0, 1, 0, 1, 1, 0, 1, 0, 1],
    [0, 0, 1, 0, 0, 0, 0, 1, 1, 0, 1, 0, 1, 1, 0, 1],
    [0, 0, 0, 1, 0, 0, 1, 0, 0, 1, 1, 1, 0, 0, 1, 1],
    [0, 0, 0, 0, 1, 0, 0, 1, 0, 1, 1, 0, 1, 0, 1, 1],
    [0, 0, 0, 0, 0, 1, 0, 0, 1, 1, 1, 0, 0, 1, 1, 1],
];

// Each data bit's own place in the word, and its row of the table after the data.
pub const RM_30_14_ROWS_PRECOMPUTED: [u32; 14] = [
    0x20009b60, 0x10002de0, 0x0800fc20, 0x0400e03c, 0x0200983a, 0x01005436, 0x00802c2e, 0x0040ffdf,
    0x00208339, 0x001042b5, 0x000821ad, 0x00041273, 0x0002096b, 0x000104e7,
];

// What each place of a word adds to the syndrome.
pub const COL_SYNDROMES: [u16; 30] = [
    0x06d9, 0x07b4, 0x043f, 0x3c07, 0x5c19, 0x6c2a, 0x7434, 0xfbff, 0x9cc1, 0xad42, 0xb584, 0xce48,
    0xd690, 0xe720, 0x0001, 0x0002, 0x0004, 0x0008, 0x0010, 0x0020, 0x0040, 0x0080, 0x0100, 0x0200,
    0x0400, 0x0800, 0x1000, 0x2000, 0x4000, 0x8000,
];

// Data of 14 bits, and words of 30.
const DATA_LIMIT: u32 = 16384;

const WORD_LIMIT: u32 = 0x4000_0000;

// What was found in a received word: no wrong bit; one, at a place of 1 to 30 from the left, that was put right; or more.
// Each carries 14 data bits, and Beyond those that were received.
#[derive(Clone, Copy, Debug, PartialEq, Eq)]
pub enum Verdict {
    Clean(u16),
    Mended(u8, u16),
    Beyond(u16),
}

// The code word of 14 data bits.
pub fn tetra_rm3014_compute(input: u16) -> Result<u32, Refusal>
    ensures { result ≡ valued (input_refusal input) (code_word input) }
{
    refuse_from(DATA_LIMIT, u32::from(input))?;
    Ok(inner::code_word(input))
}

// The data bits of a word as they stand.
pub fn tetra_rm3014_decode_naive(codeword: u32) -> Result<u16, Refusal>
    ensures { result ≡ valued (word_refusal codeword) (data_of codeword) }
{
    refuse_from(WORD_LIMIT, codeword)?;
    Ok((codeword >> 16) as u16)
}

// The syndrome of a word.
pub fn compute_syndrome(codeword: u32) -> Result<u16, Refusal>
    ensures { result ≡ valued (word_refusal codeword) (syndrome codeword) }
{
    refuse_from(WORD_LIMIT, codeword)?;
    Ok(inner::syndrome_of(codeword))
}

// The verdict on a word.
pub fn tetra_rm3014_decode_limited_ecc(codeword: u32) -> Result<Verdict, Refusal>
    ensures { result ≡ valued (word_refusal codeword) (verdict codeword) }
{
    refuse_from(WORD_LIMIT, codeword)?;
    Ok(inner::verdict_of(codeword))
}

// COL_SYNDROMES, worked out from the table.
pub fn compute_col_syndromes() -> [u16; 30]
    ensures { result ≡ columns }
{
    let mut out = [0u16; 30];
    for k in 0..30 {
        out[k] = col_syndrome(k);
    }
    out
}

// A number that is not below the limit is refused.
fn refuse_from(limit: u32, number: u32) -> Result<(), Refusal>
    ensures { result ≡ bounded limit number }
{
    if limit <= number {
        return Err(Refusal::Word);
    }
    Ok(())
}

fn col_syndrome(k: usize) -> u16
    requires { k < 30 }
    ensures { result ≡ get_or columns k 0 }
{
    if k < 14 {
        return row_syndrome(k);
    }
    1u16 << (k - 14)
}

// A data bit's column: its row of the table, entry j worth 2 to the j.
fn row_syndrome(k: usize) -> u16
    requires { k < 14 }
    ensures { result ≡ upwards (get_or table k []) }
{
    let mut sum: u16 = 0;
    for j in (0..16).rev() {
        sum = sum * 2 + RM_30_14_GEN[k][j] as u16;
    }
    sum
}
