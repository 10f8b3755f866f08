// The Viterbi decoders of the control and the speech code. Ported from lmac/components/viterbi.rs; changed: one routine over
// tables of expected bits for both codes, trellis and target lent by the caller, refusals instead of asserts, and the
// disagreements counted. A caller gets the nearest word and how many unerased symbols disagree with it.
#![tactic(auto)]

ghost use Rattle.convenc.specs.Generators.{control, speech};
ghost use Rattle.viterbi.specs.Decoding.{Decodes};

use base::Refusal;

pub mod inner;

// Stays: two entries over one routine, since the contracts of dec_sb1 and of dec_speech name different codes.
// Decodes sym_count steps of four control symbols each: 0 and 1 are bits, every other byte is an erasure. The value is the
// number of disagreements of the word that was written.
pub fn dec_sb1(
    in_buf: &[u8],
    out_buf: &mut [u8],
    sym_count: usize,
    trellis: &mut [u16],
) -> Result<usize, Refusal>
    ensures { Decodes control sym_count in_buf.now out_buf.old out_buf.new
        trellis.old trellis.new result }
{
    inner::refusal(4, sym_count, in_buf.len(), trellis.len(), out_buf.len())?;
    Ok(inner::control(in_buf, out_buf, sym_count, trellis))
}

// The same for steps of three speech symbols.
pub fn dec_speech(
    in_buf: &[u8],
    out_buf: &mut [u8],
    sym_count: usize,
    trellis: &mut [u16],
) -> Result<usize, Refusal>
    ensures { Decodes speech sym_count in_buf.now out_buf.old out_buf.new
        trellis.old trellis.new result }
{
    inner::refusal(3, sym_count, in_buf.len(), trellis.len(), out_buf.len())?;
    Ok(inner::speech(in_buf, out_buf, sym_count, trellis))
}
