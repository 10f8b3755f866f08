// An entry's answer as the exported functions give it: the number of its refusal, which is returned, or 0 and six numbers, which are
// written over the caller's answer.
ghost use Rattle.std.specs.Prelude.{◌≡◌, ℕ, List};
ghost use Rattle.base.specs.Refusal.{number_of};
ghost use Rattle.caplattice.specs.Answer.{saying, report, received_said, verdict_said, compared_report, encoded_report, delays_number, delays_in};
ghost use Rattle.caplattice.specs.Promises.{Tells};
ghost use Rattle.caplattice.specs.private.Telling.{finding_number};

use base::{Received, Refusal};
use convenc::{Coded, Encoder};
use rm3014::Verdict;

// The first of the six numbers.
#[derive(Clone, Copy)]
enum Finding {
    Done = 0,
    Good,
    Bad,
    Clean,
    Mended,
    Beyond,
    Matched,
    Differs,
}

// Writes an answer; 0, because nothing was refused.
fn say(answer: &mut [u64; 6], finding: Finding, value: u64, disagreements: u64, place: u64) -> u8
    ensures { Tells (saying (finding_number finding) value disagreements place) result answer.new }
{
    *answer = [finding as u64, value, disagreements, place, 0, 0];
    0
}

// What can be told of what an entry answers.
pub trait Told {
    ghost said: { Self → ℕ × List ℕ };

    // Writes it over the caller's answer; 0, because nothing was refused.
    fn tell(self, answer: &mut [u64; 6]) -> u8
        ensures { Tells (said self) result answer.new };
}

// A register or the 14 bits of a word.
impl Told for u16 {
    ghost said = { λ n. saying 0 n 0 0 };

    fn tell(self, answer: &mut [u64; 6]) -> u8 {
        say(answer, Finding::Done, self as u64, 0, 0)
    }
}

// A word or a start value.
impl Told for u32 {
    ghost said = { λ n. saying 0 n 0 0 };

    fn tell(self, answer: &mut [u64; 6]) -> u8 {
        say(answer, Finding::Done, self as u64, 0, 0)
    }
}

// A count of disagreements.
impl Told for usize {
    ghost said = { λ n. saying 0 0 n 0 };

    fn tell(self, answer: &mut [u64; 6]) -> u8 {
        say(answer, Finding::Done, 0, self as u64, 0)
    }
}

impl Told for Received {
    ghost said = { received_said };

    fn tell(self, answer: &mut [u64; 6]) -> u8 {
        match self {
            Received::Good(counts) => say(answer, Finding::Good, 0, counts.disagreements as u64, 0),
            Received::Bad(counts) => say(answer, Finding::Bad, 0, counts.disagreements as u64, 0),
        }
    }
}

impl Told for Verdict {
    ghost said = { verdict_said };

    fn tell(self, answer: &mut [u64; 6]) -> u8 {
        match self {
            Verdict::Clean(bits) => say(answer, Finding::Clean, bits as u64, 0, 0),
            Verdict::Mended(place, bits) => say(
                answer,
                Finding::Mended,
                bits as u64,
                0,
                place as u64,
            ),
            Verdict::Beyond(bits) => say(answer, Finding::Beyond, bits as u64, 0, 0),
        }
    }
}

// How many entries of two words matched.
impl Told for Option<usize> {
    ghost said = { compared_report };

    fn tell(self, answer: &mut [u64; 6]) -> u8 {
        match self {
            Some(n) => say(answer, Finding::Matched, n as u64, 0, 0),
            None => say(answer, Finding::Differs, 0, 0, 0),
        }
    }
}

// An encoder to go on from.
impl<C> Told for Encoder<C> {
    ghost said = { λ encoder. saying 0 (delays_number encoder.delayed) 0 0 };

    fn tell(self, answer: &mut [u64; 6]) -> u8 {
        say(
            answer,
            Finding::Done,
            u32::from_le_bytes(self.delayed) as u64,
            0,
            0,
        )
    }
}

// The encoder that holds the four delays of a number.
pub fn encoder_of<C>(delays: u32) -> Encoder<C>
    ensures { result.delayed ≡ delays_in delays }
{
    Encoder::from(delays.to_le_bytes())
}

// The number of a refusal, or 0.
pub fn refusal_of(own: Result<(), Refusal>) -> u8
    ensures { result ≡ number_of own }
{
    own.err().map_or(0, u8::from)
}

// The number of a refusal, or 0 and what is told of the value.
pub fn report<T: Told>(own: Result<T, Refusal>, answer: &mut [u64; 6]) -> u8
    ensures { Tells (report T.said own answer.old) result answer.new }
{
    match own {
        Ok(value) => value.tell(answer),
        Err(refusal) => u8::from(refusal),
    }
}

// The number of a refusal, or 0 and the encoder to go on from.
pub fn report_encoded<C>(made: Coded<Encoder<C>>, answer: &mut [u64; 6]) -> u8
    ensures { Tells (encoded_report made.outcome (delays_number made.state.delayed) answer.old) result answer.new }
{
    report(made.outcome.map(|()| made.state), answer)
}
