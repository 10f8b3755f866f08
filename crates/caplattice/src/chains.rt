// The entries of the chains, under the names that they have there.
// Stays: the C interface, include/caplattice.h, fixes each name and its parameters, one function for each entry.
ghost use Rattle.std.specs.Prelude.{◌≡◌};
ghost use Rattle.base.specs.Refusal.{number_of};
ghost use Rattle.errorcontrol_cp.specs.Sending.{Sends as SendsControl};
ghost use Rattle.errorcontrol_cp.specs.Receiving.{Receives as ReceivesControl};
ghost use Rattle.errorcontrol_tp.specs.Sending.{Sends as SendsSpeech};
ghost use Rattle.errorcontrol_tp.specs.Receiving.{Receives as ReceivesSpeech};
ghost use Rattle.stages.specs.Entries.{SendEntry};
ghost use Rattle.errorcontrol_aach.specs.Sending.{send_refusal, sent};
ghost use Rattle.errorcontrol_aach.specs.Receiving.{answer_of};
ghost use Rattle.caplattice.specs.Answer.{received_report, judged_report};
ghost use Rattle.caplattice.specs.Promises.{Answers, Tells};

use super::answer;

#[unsafe(no_mangle)]
pub extern "C" fn caplattice_encode_cp(kind: u8, start: u32, source: &[u8], target: &mut [u8]) -> u8
    ensures { Answers (λ x. SendsControl kind start source.now target.old x target.new)
        (λ x. result ≡ number_of x) }
{
    answer::refusal_of(errorcontrol_cp::encode_cp(kind, start, source, target))
}

#[unsafe(no_mangle)]
pub extern "C" fn caplattice_decode_cp(
    kind: u8,
    start: u32,
    source: &[u8],
    target: &mut [u8],
    trellis: &mut [u16],
    answer: &mut [u64; 6],
) -> u8
    ensures { Answers (λ x. ReceivesControl kind start source.now target.old trellis.old x target.new trellis.new)
        (λ x. Tells (received_report x answer.old) result answer.new) }
{
    answer::report(
        errorcontrol_cp::decode_cp(kind, start, source, target, trellis),
        answer,
    )
}

#[unsafe(no_mangle)]
pub extern "C" fn caplattice_encode_tp(start: u32, source: &[u8], target: &mut [u8]) -> u8
    ensures { Answers (λ x. SendsSpeech 432 start source.now target.old x target.new)
        (λ x. result ≡ number_of x) }
{
    answer::refusal_of(errorcontrol_tp::encode_tp(start, source, target))
}

#[unsafe(no_mangle)]
pub extern "C" fn caplattice_encode_tp_half(start: u32, source: &[u8], target: &mut [u8]) -> u8
    ensures { Answers (λ x. SendsSpeech 216 start source.now target.old x target.new)
        (λ x. result ≡ number_of x) }
{
    answer::refusal_of(errorcontrol_tp::encode_tp_half(start, source, target))
}

#[unsafe(no_mangle)]
pub extern "C" fn caplattice_decode_tp(
    start: u32,
    source: &[u8],
    target: &mut [u8],
    trellis: &mut [u16],
    answer: &mut [u64; 6],
) -> u8
    ensures { Answers (λ x. ReceivesSpeech 432 start source.now target.old trellis.old x target.new trellis.new)
        (λ x. Tells (received_report x answer.old) result answer.new) }
{
    answer::report(
        errorcontrol_tp::decode_tp(start, source, target, trellis),
        answer,
    )
}

#[unsafe(no_mangle)]
pub extern "C" fn caplattice_decode_tp_half(
    start: u32,
    source: &[u8],
    target: &mut [u8],
    trellis: &mut [u16],
    answer: &mut [u64; 6],
) -> u8
    ensures { Answers (λ x. ReceivesSpeech 216 start source.now target.old trellis.old x target.new trellis.new)
        (λ x. Tells (received_report x answer.old) result answer.new) }
{
    answer::report(
        errorcontrol_tp::decode_tp_half(start, source, target, trellis),
        answer,
    )
}

#[unsafe(no_mangle)]
pub extern "C" fn caplattice_encode_aach(start: u32, source: &[u8], target: &mut [u8]) -> u8
    ensures { Answers (λ x. SendEntry (send_refusal source.now) (sent start source.now) target.old x target.new)
        (λ x. result ≡ number_of x) }
{
    answer::refusal_of(errorcontrol_aach::encode_aach(start, source, target))
}

#[unsafe(no_mangle)]
pub extern "C" fn caplattice_decode_aach(start: u32, source: &[u8], answer: &mut [u64; 6]) -> u8
    ensures { Answers (λ x. x ≡ answer_of start source.now)
        (λ x. Tells (judged_report x answer.old) result answer.new) }
{
    answer::report(errorcontrol_aach::decode_aach(start, source), answer)
}
