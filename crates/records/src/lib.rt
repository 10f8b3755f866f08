// Recordings: records of one kind byte, a scrambling start and symbols, one after the other.
// Added by us (document 01, "The runner"); nothing here is ported.
// A caller gets what stands at a place of a recording, and a reader that hands out one record at a time.
#![tactic(auto)]

ghost use Rattle.std.specs.Prelude.{◌≡◌, ◌<◌, MatchOption};
ghost use Rattle.records.specs.Kinds.{symbols_of};
ghost use Rattle.records.specs.Recording.{step_at};

// The bytes of a scrambling start.
pub const START_BYTES: usize = 4;

// What stands at a place: a whole record, with its kind and the place of its kind byte; a kind that
// is not known; a record whose body is cut by the end; or the end.
// Stays: a kind is the byte of the recording, known or not, as the lines say it.
#[derive(Clone, Copy)]
pub enum Item {
    Whole { kind: u8, place: usize },
    Unknown(u8),
    Cut(u8),
    End,
}

// What a reader hands out, and where it then stands.
#[derive(Clone, Copy)]
pub struct Step {
    pub item: Item,
    pub at: usize,
}

// How many symbols a record of the kind has, where the kind is known.
#[tactic(auto, using(crate::proofs::Laws::symbols_none), unfolding(crate::specs::Kinds::symbols_of))]
pub fn length_of(kind: u8) -> Option<usize>
    ensures { MatchOption result (symbols_of kind ≡ 0) (λ count. (count ≡ symbols_of kind) × (0 < count)) }
{
    match kind {
        1 => Some(120),
        2 => Some(168),
        3 => Some(216),
        4 => Some(432),
        5 => Some(30),
        6 => Some(432),
        7 => Some(216),
        _ => None,
    }
}

// How many symbols a record of the kind has; 0 for a kind that is not known.
// Stays: it could not fail, and docs/PROMISES.md names it; length_of is for our own callers.
pub fn symbols(kind: u8) -> usize
    ensures { result ≡ symbols_of kind }
{
    length_of(kind).unwrap_or(0)
}

// What stands at a place of a recording, and the next place.
pub fn step_at(s: &[u8], at: usize) -> Step
    ensures { result ≡ step_at s.now at }
{
    if s.len() <= at {
        return Step {
            item: Item::End,
            at,
        };
    }
    let kind = s[at];
    let Some(count) = length_of(kind) else {
        return Step {
            item: Item::Unknown(kind),
            at,
        };
    };
    let body = START_BYTES + count;
    if body < s.len() - at {
        Step {
            item: Item::Whole { kind, place: at },
            at: at + 1 + body,
        }
    } else {
        Step {
            item: Item::Cut(kind),
            at,
        }
    }
}

// A reader: the recording that it was lent, and its place in it.
#[derive(Clone, Copy)]
pub struct Reader<'a> {
    pub src: &'a [u8],
    pub at: usize,
}

// A reader that stands at a place of a recording.
pub fn new(src: &[u8], at: usize) -> Reader<'_>
    ensures { (result.src ≡ src.entry) × (result.at ≡ at) }
{
    Reader { src, at }
}

impl Reader<'_> {
    // Hands out what stands at the reader's place, and moves past a whole record.
    pub fn next(&mut self) -> Item
        ensures { (result ≡ (step_at self.old.src.now self.old.at).item)
            × (self.new.src ≡ self.old.src)
            × (self.new.at ≡ (step_at self.old.src.now self.old.at).at) }
    {
        let t = step_at(self.src, self.at);
        self.at = t.at;
        t.item
    }
}

// One step of a reader, for callers that hold the slice and the place themselves.
// Stays: docs/DECISIONS.md keeps it beside `step_at` and `next`.
pub fn take(s: &[u8], at: usize) -> Step
    ensures { result ≡ step_at s.now at }
{
    let mut r = new(s, at);
    let item = r.next();
    Step { item, at: r.at }
}
