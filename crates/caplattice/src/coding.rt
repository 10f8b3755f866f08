// The entries of the encoders, of puncturing and of the decoders, under the names that they have there.
// An encoder's four delays are one number: the newest weighs 1, the next 2^8, then 2^16 and 2^24.
// Stays: the C interface, include/caplattice.h, fixes each name and its parameters, one function for each entry.
ghost use Rattle.std.specs.Prelude.{◌≡◌, length};
ghost use Rattle.base.specs.Refusal.{number_of, Leaves};
ghost use Rattle.base.specs.Places.{written};
ghost use Rattle.convenc.specs.declared.Coded.{Coded};
ghost use Rattle.convenc.specs.declared.Control.{Control};
ghost use Rattle.convenc.specs.declared.Speech.{Speech};
ghost use Rattle.convenc.specs.declared.Encoder.{Encoder};
ghost use Rattle.convenc.specs.Generators.{control, control_third, speech, Encoded};
ghost use Rattle.puncturing.specs.Puncturing.{puncture_refusal, punctured, depuncture_refusal, depunctured};
ghost use Rattle.comparing.specs.Comparing.{compare};
ghost use Rattle.viterbi.specs.Decoding.{Decodes};
ghost use Rattle.caplattice.specs.Answer.{saying, valued_report, compared_report, encoded_report, delays_number, delays_in};
ghost use Rattle.caplattice.specs.Promises.{Answers, Tells};

use super::answer;
use super::answer::Told;
use convenc::{ConvEncState, SpeechConvEncState};

#[unsafe(no_mangle)]
pub extern "C" fn caplattice_encode(
    delays: u32,
    source: &[u8],
    target: &mut [u8],
    answer: &mut [u64; 6],
) -> u8
    ensures { Answers (λ (x : Coded (Encoder Control)). Encoded control (delays_in delays) source.now target.old x.outcome x.state.delayed target.new)
        (λ x. Tells (encoded_report x.outcome (delays_number x.state.delayed) answer.old) result answer.new) }
{
    let encoder: ConvEncState = answer::encoder_of(delays);
    answer::report_encoded(encoder.encode(source, target), answer)
}

#[unsafe(no_mangle)]
pub extern "C" fn caplattice_encode_rate1_3(
    delays: u32,
    source: &[u8],
    target: &mut [u8],
    answer: &mut [u64; 6],
) -> u8
    ensures { Answers (λ (x : Coded (Encoder Control)). Encoded control_third (delays_in delays) source.now target.old x.outcome x.state.delayed target.new)
        (λ x. Tells (encoded_report x.outcome (delays_number x.state.delayed) answer.old) result answer.new) }
{
    let encoder: ConvEncState = answer::encoder_of(delays);
    answer::report_encoded(encoder.encode_rate1_3(source, target), answer)
}

#[unsafe(no_mangle)]
pub extern "C" fn caplattice_encode_speech(
    delays: u32,
    source: &[u8],
    target: &mut [u8],
    answer: &mut [u64; 6],
) -> u8
    ensures { Answers (λ (x : Coded (Encoder Speech)). Encoded speech (delays_in delays) source.now target.old x.outcome x.state.delayed target.new)
        (λ x. Tells (encoded_report x.outcome (delays_number x.state.delayed) answer.old) result answer.new) }
{
    let encoder: SpeechConvEncState = answer::encoder_of(delays);
    answer::report_encoded(encoder.encode(source, target), answer)
}

#[unsafe(no_mangle)]
pub extern "C" fn caplattice_get_punctured_rate(
    mode: u8,
    source: &[u8],
    n: usize,
    target: &mut [u8],
) -> u8
    ensures { Answers (Leaves (puncture_refusal mode n (length source.now) (length target.old)) (written (punctured mode n source.now) target.old) target.old target.new)
        (λ x. result ≡ number_of x) }
{
    answer::refusal_of(puncturing::get_punctured_rate(mode, source, n, target))
}

#[unsafe(no_mangle)]
pub extern "C" fn caplattice_tetra_rcpc_depunct(
    mode: u8,
    source: &[u8],
    n: usize,
    target: &mut [u8],
) -> u8
    ensures { Answers (Leaves (depuncture_refusal mode n (length source.now) (length target.old)) (depunctured mode n source.now target.old) target.old target.new)
        (λ x. result ≡ number_of x) }
{
    answer::refusal_of(puncturing::tetra_rcpc_depunct(mode, source, n, target))
}

#[unsafe(no_mangle)]
pub extern "C" fn caplattice_mother_memcmp(
    mother: &[u8],
    depunct: &[u8],
    answer: &mut [u64; 6],
) -> u8
    ensures { Answers (λ x. x ≡ compare mother.now depunct.now)
        (λ x. Tells (compared_report x) result answer.new) }
{
    comparing::mother_memcmp(mother, depunct).tell(answer)
}

#[unsafe(no_mangle)]
pub extern "C" fn caplattice_dec_sb1(
    source: &[u8],
    target: &mut [u8],
    n: usize,
    trellis: &mut [u16],
    answer: &mut [u64; 6],
) -> u8
    ensures { Answers (Decodes control n source.now target.old target.new trellis.old trellis.new)
        (λ x. Tells (valued_report (λ n. saying 0 0 n 0) x answer.old) result answer.new) }
{
    answer::report(viterbi::dec_sb1(source, target, n, trellis), answer)
}

#[unsafe(no_mangle)]
pub extern "C" fn caplattice_dec_speech(
    source: &[u8],
    target: &mut [u8],
    n: usize,
    trellis: &mut [u16],
    answer: &mut [u64; 6],
) -> u8
    ensures { Answers (Decodes speech n source.now target.old target.new trellis.old trellis.new)
        (λ x. Tells (valued_report (λ n. saying 0 0 n 0) x answer.old) result answer.new) }
{
    answer::report(viterbi::dec_speech(source, target, n, trellis), answer)
}
