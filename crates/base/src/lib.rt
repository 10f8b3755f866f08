// What every crate of the house shares: refusal numbers and the answer that carries one, bits, symbols,
// and the lists that a loop over places leaves behind. The definitions stand in specs/, their laws in proofs/.
#![tactic(auto)]

ghost use Rattle.base.specs.Refusal.{Numbers};

pub mod inner;

// Why an entry refuses its input. The numbers are those that callers in C get, and that the runner's lines say.
#[derive(Clone, Copy, Debug, PartialEq, Eq)]
pub enum Refusal {
    // A count over its limit.
    Limit = 1,
    // A source that is too short.
    Short = 2,
    // A target or a trellis that is too short.
    Room = 3,
    // An entry that is no bit.
    Bit = 4,
    // A shuffle that is no permutation.
    Shuffle = 5,
    // A word that is too large.
    Word = 6,
    // A field that is too large.
    Field = 7,
    // A kind or a mode that is not known.
    Kind = 8,
    // 9 is retired and may never be given to anything else. The next new number is 10.
}

impl From<Refusal> for u8 {
    ghost from_gives = { Numbers };

    fn from(refusal: Refusal) -> u8 {
        refusal as u8
    }
}

// What a receive chain counted.
#[derive(Clone, Copy)]
pub struct Counts {
    pub disagreements: usize,
}

// What a receive chain answers to what it does not refuse: the check agreed, or did not.
#[derive(Clone, Copy)]
pub enum Received {
    Good(Counts),
    Bad(Counts),
}
