// What a record is answered with: the chain of its kind, on its scrambling start and its symbols.
// Added by us (document 01, "The runner"); nothing here is ported.
// A caller gets one answer for every kind, with the AACH verdict inside it.
#![tactic(auto)]

ghost use Rattle.std.specs.Prelude.{◌≡◌, ◌≤◌, length};
ghost use Rattle.answers.specs.private.Chains.{control_answer, speech_answer};
ghost use Rattle.answers.specs.Answering.{start_of, heard, chain_of, answer_of};
ghost use Rattle.answers.specs.declared.Answer.TheVariants.{Aach};

use base::{Counts, Received, Refusal};
use records::START_BYTES;
use rm3014::Verdict;

// The kind of result of a record: whether its check agreed, with what the chain counted; or for AACH the verdict.
#[derive(Clone, Copy)]
pub enum Answer {
    Good(Counts),
    Bad(Counts),
    Aach(Verdict),
}

impl From<Received> for Answer {
    ghost from_gives = { λ received answer. answer ≡ heard received };

    fn from(received: Received) -> Answer {
        match received {
            Received::Good(counts) => Answer::Good(counts),
            Received::Bad(counts) => Answer::Bad(counts),
        }
    }
}

impl From<Verdict> for Answer {
    ghost from_gives = { λ verdict answer. answer ≡ Aach verdict };

    fn from(verdict: Verdict) -> Answer {
        Answer::Aach(verdict)
    }
}

// The first four bytes as one number, the most significant first.
fn start_of(body: &[u8]) -> u32
    requires { 4 ≤ length body.now }
    ensures { result ≡ start_of body.now }
{
    u32::from_be_bytes([body[0], body[1], body[2], body[3]])
}

// The chains, each with its work space on the stack.
fn control(kind: u8, start: u32, air: &[u8]) -> Result<Received, Refusal>
    ensures { result ≡ control_answer kind start air.now }
{
    let mut word = [0u8; 288];
    let mut trellis = [0u16; 288];
    errorcontrol_cp::decode_cp(kind, start, air, &mut word, &mut trellis)
}

// Stays: slot and half call two entries, since the C interface has decode_tp and decode_tp_half apart.
fn slot(start: u32, air: &[u8]) -> Result<Received, Refusal>
    ensures { result ≡ speech_answer 432 start air.now }
{
    let mut codec = [0u8; 274];
    let mut trellis = [0u16; 184];
    errorcontrol_tp::decode_tp(start, air, &mut codec, &mut trellis)
}

fn half(start: u32, air: &[u8]) -> Result<Received, Refusal>
    ensures { result ≡ speech_answer 216 start air.now }
{
    let mut codec = [0u8; 274];
    let mut trellis = [0u16; 184];
    errorcontrol_tp::decode_tp_half(start, air, &mut codec, &mut trellis)
}

// The answer of a known kind's chain.
// Stays: the kind is the record's byte, which decode_cp asks for too; an enum of kinds would be turned back into it.
fn decode(kind: u8, start: u32, air: &[u8]) -> Result<Answer, Refusal>
    ensures { result ≡ chain_of kind start air.now }
{
    match kind {
        5 => errorcontrol_aach::decode_aach(start, air).map(Answer::from),
        6 => slot(start, air).map(Answer::from),
        7 => half(start, air).map(Answer::from),
        _ => control(kind, start, air).map(Answer::from),
    }
}

// The answer to a record of the kind with the body.
pub fn answer_to(kind: u8, body: &[u8]) -> Result<Answer, Refusal>
    ensures { result ≡ answer_of kind body.now }
{
    let Some(_) = records::length_of(kind) else {
        return Err(Refusal::Kind);
    };
    if body.len() < START_BYTES {
        return Err(Refusal::Short);
    }
    decode(kind, start_of(body), &body[START_BYTES..])
}
