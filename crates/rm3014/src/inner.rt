// The work behind the entries, which asks for numbers in range.
ghost use Rattle.std.specs.Prelude.{◌≡◌, ◌==◌, ◌<◌, ◌^◌, position};
ghost use Rattle.rm3014.specs.Code.{code_word, columns, syndrome};
ghost use Rattle.rm3014.specs.Verdict.{verdict};

use super::{COL_SYNDROMES, RM_30_14_ROWS_PRECOMPUTED, Verdict};

// The code word of 14 data bits.
pub fn code_word(input: u16) -> u32
    requires { input < 2 ^ 14 }
    ensures { result ≡ code_word input }
{
    let rows = RM_30_14_ROWS_PRECOMPUTED;
    let mut word: u32 = 0;
    for (i, row) in rows.iter().enumerate() {
        if (input >> (13 - i)) & 1 == 1 {
            word ^= row;
        }
    }
    word
}

// The syndrome of a word.
// Stays beside code_word: the tables have entries of two widths, and one function over both would convert each entry and the sum.
pub fn syndrome_of(codeword: u32) -> u16
    ensures { result ≡ syndrome codeword }
{
    let columns = COL_SYNDROMES;
    let mut sum: u16 = 0;
    for (i, column) in columns.iter().enumerate() {
        if (codeword >> (29 - i)) & 1 == 1 {
            sum ^= column;
        }
    }
    sum
}

// The first column that is the sum, counted from 0.
fn column_of(sum: u16) -> Option<usize>
    ensures { result ≡ position (λ c. c == sum) columns }
{
    let columns = COL_SYNDROMES;
    columns.iter().position(|column| *column == sum)
}

// The verdict on a word.
pub fn verdict_of(codeword: u32) -> Verdict
    requires { codeword < 2 ^ 30 }
    ensures { result ≡ verdict codeword }
{
    let sum = syndrome_of(codeword);
    if sum == 0 {
        return Verdict::Clean((codeword >> 16) as u16);
    }
    let Some(i) = column_of(sum) else {
        return Verdict::Beyond((codeword >> 16) as u16);
    };
    let place = i + 1;
    let mended = codeword ^ (1u32 << (30 - place));
    Verdict::Mended(place as u8, (mended >> 16) as u16)
}
