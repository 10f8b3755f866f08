// The entries of the leaves, under the names that they have there.
// Stays: the C interface, include/caplattice.h, fixes each name and its parameters, one function for each entry.
ghost use Rattle.std.specs.Prelude.{◌≡◌, length, take};
ghost use Rattle.base.specs.Refusal.{number_of, Leaves, valued};
ghost use Rattle.base.specs.Places.{tabulate, written};
ghost use Rattle.crc16.specs.Crc.{register, bit_of, bytes_refusal};
ghost use Rattle.scrambler.specs.Scrambling.{output, field_refusal, start_value, scrambled, send_refusal, descrambled};
ghost use Rattle.interleaver.specs.Interleaving.{block_refusal, interleaved, deinterleaved, matrix_refusal, matrix_interleaved, matrix_deinterleaved};
ghost use Rattle.tch_reorder.specs.Order.{reorder_refusal, channel_of, codec_of};
ghost use Rattle.speech_crc.specs.Check.{check_refusal, speech_check};
ghost use Rattle.rm3014.specs.Code.{code_word, data_of, syndrome};
ghost use Rattle.rm3014.specs.Verdict.{input_refusal, word_refusal, verdict};
ghost use Rattle.caplattice.specs.Answer.{saying, valued_report, judged_report};
ghost use Rattle.caplattice.specs.Promises.{Answers, Tells};

use super::answer;
use super::answer::Told;

#[unsafe(no_mangle)]
pub extern "C" fn caplattice_crc16_itut_bits(
    crc: u16,
    source: &[u8],
    n: usize,
    answer: &mut [u64; 6],
) -> u8
    ensures { Answers (λ x. x ≡ register crc (take n source.now)) (λ x. Tells (saying 0 x 0 0) result answer.new) }
{
    crc16::crc16_itut_bits(crc, source, n).tell(answer)
}

#[unsafe(no_mangle)]
pub extern "C" fn caplattice_crc16_itut_bytes(
    crc: u16,
    source: &[u8],
    n: usize,
    answer: &mut [u64; 6],
) -> u8
    ensures { Answers (λ x. x ≡ valued (bytes_refusal source.now n) (register crc (tabulate (bit_of source.now) n)))
        (λ x. Tells (valued_report (λ n. saying 0 n 0 0) x answer.old) result answer.new) }
{
    answer::report(crc16::crc16_itut_bytes(crc, source, n), answer)
}

#[unsafe(no_mangle)]
pub extern "C" fn caplattice_crc16_ccitt_bits(source: &[u8], n: usize, answer: &mut [u64; 6]) -> u8
    ensures { Answers (λ x. x ≡ register 0xffff (take n source.now)) (λ x. Tells (saying 0 x 0 0) result answer.new) }
{
    crc16::crc16_ccitt_bits(source, n).tell(answer)
}

#[unsafe(no_mangle)]
pub extern "C" fn caplattice_tetra_scramb_get_bits(start: u32, target: &mut [u8]) -> u8
    ensures { (result ≡ 0) × (target.new ≡ tabulate (output start) (length target.old)) }
{
    scrambler::tetra_scramb_get_bits(start, target);
    0
}

#[unsafe(no_mangle)]
pub extern "C" fn caplattice_tetra_scramb_bits(start: u32, target: &mut [u8]) -> u8
    ensures { Answers (Leaves (send_refusal target.old) (scrambled start target.old) target.old target.new)
        (λ x. result ≡ number_of x) }
{
    answer::refusal_of(scrambler::tetra_scramb_bits(start, target))
}

#[unsafe(no_mangle)]
pub extern "C" fn caplattice_tetra_descramb_bits(start: u32, target: &mut [u8]) -> u8
    ensures { (result ≡ 0) × (target.new ≡ descrambled start target.old) }
{
    scrambler::tetra_descramb_bits(start, target);
    0
}

#[unsafe(no_mangle)]
pub extern "C" fn caplattice_tetra_scramb_get_init(
    mcc: u16,
    mnc: u16,
    colour: u8,
    answer: &mut [u64; 6],
) -> u8
    ensures { Answers (λ x. x ≡ valued (field_refusal mcc mnc colour) (start_value mcc mnc colour))
        (λ x. Tells (valued_report (λ n. saying 0 n 0 0) x answer.old) result answer.new) }
{
    answer::report(scrambler::tetra_scramb_get_init(mcc, mnc, colour), answer)
}

#[unsafe(no_mangle)]
pub extern "C" fn caplattice_block_interleave(
    k: usize,
    a: usize,
    source: &[u8],
    target: &mut [u8],
) -> u8
    ensures { Answers (Leaves (block_refusal k a (length source.now) (length target.old)) (interleaved k a source.now target.old) target.old target.new)
        (λ x. result ≡ number_of x) }
{
    answer::refusal_of(interleaver::block_interleave(k, a, source, target))
}

#[unsafe(no_mangle)]
pub extern "C" fn caplattice_block_deinterleave(
    k: usize,
    a: usize,
    source: &[u8],
    target: &mut [u8],
) -> u8
    ensures { Answers (Leaves (block_refusal k a (length source.now) (length target.old)) (written (deinterleaved k a source.now) target.old) target.old target.new)
        (λ x. result ≡ number_of x) }
{
    answer::refusal_of(interleaver::block_deinterleave(k, a, source, target))
}

#[unsafe(no_mangle)]
pub extern "C" fn caplattice_matrix_interleave(
    lines: usize,
    columns: usize,
    source: &[u8],
    target: &mut [u8],
) -> u8
    ensures { Answers (Leaves (matrix_refusal lines columns (length source.now) (length target.old)) (matrix_interleaved lines columns source.now target.old) target.old target.new)
        (λ x. result ≡ number_of x) }
{
    answer::refusal_of(interleaver::matrix_interleave(lines, columns, source, target))
}

#[unsafe(no_mangle)]
pub extern "C" fn caplattice_matrix_deinterleave(
    lines: usize,
    columns: usize,
    source: &[u8],
    target: &mut [u8],
) -> u8
    ensures { Answers (Leaves (matrix_refusal lines columns (length source.now) (length target.old)) (written (matrix_deinterleaved lines columns source.now) target.old) target.old target.new)
        (λ x. result ≡ number_of x) }
{
    answer::refusal_of(interleaver::matrix_deinterleave(lines, columns, source, target))
}

#[unsafe(no_mangle)]
pub extern "C" fn caplattice_tetra_rm3014_compute(input: u16, answer: &mut [u64; 6]) -> u8
    ensures { Answers (λ x. x ≡ valued (input_refusal input) (code_word input))
        (λ x. Tells (valued_report (λ n. saying 0 n 0 0) x answer.old) result answer.new) }
{
    answer::report(rm3014::tetra_rm3014_compute(input), answer)
}

#[unsafe(no_mangle)]
pub extern "C" fn caplattice_tetra_rm3014_decode_naive(codeword: u32, answer: &mut [u64; 6]) -> u8
    ensures { Answers (λ x. x ≡ valued (word_refusal codeword) (data_of codeword))
        (λ x. Tells (valued_report (λ n. saying 0 n 0 0) x answer.old) result answer.new) }
{
    answer::report(rm3014::tetra_rm3014_decode_naive(codeword), answer)
}

#[unsafe(no_mangle)]
pub extern "C" fn caplattice_compute_syndrome(codeword: u32, answer: &mut [u64; 6]) -> u8
    ensures { Answers (λ x. x ≡ valued (word_refusal codeword) (syndrome codeword))
        (λ x. Tells (valued_report (λ n. saying 0 n 0 0) x answer.old) result answer.new) }
{
    answer::report(rm3014::compute_syndrome(codeword), answer)
}

#[unsafe(no_mangle)]
pub extern "C" fn caplattice_tetra_rm3014_decode_limited_ecc(
    codeword: u32,
    answer: &mut [u64; 6],
) -> u8
    ensures { Answers (λ x. x ≡ valued (word_refusal codeword) (verdict codeword))
        (λ x. Tells (judged_report x answer.old) result answer.new) }
{
    answer::report(rm3014::tetra_rm3014_decode_limited_ecc(codeword), answer)
}

#[unsafe(no_mangle)]
pub extern "C" fn caplattice_codec_to_channel(source: &[u8], target: &mut [u8]) -> u8
    ensures { Answers (Leaves (reorder_refusal (length source.now) (length target.old)) (written (channel_of source.now) target.old) target.old target.new)
        (λ x. result ≡ number_of x) }
{
    answer::refusal_of(tch_reorder::codec_to_channel(source, target))
}

#[unsafe(no_mangle)]
pub extern "C" fn caplattice_channel_to_codec(source: &[u8], target: &mut [u8]) -> u8
    ensures { Answers (Leaves (reorder_refusal (length source.now) (length target.old)) (codec_of source.now target.old) target.old target.new)
        (λ x. result ≡ number_of x) }
{
    answer::refusal_of(tch_reorder::channel_to_codec(source, target))
}

#[unsafe(no_mangle)]
pub extern "C" fn caplattice_speech_crc(source: &[u8], target: &mut [u8]) -> u8
    ensures { Answers (Leaves (check_refusal (length source.now) (length target.old)) (written (speech_check source.now) target.old) target.old target.new)
        (λ x. result ≡ number_of x) }
{
    answer::refusal_of(speech_crc::speech_crc(source, target))
}
