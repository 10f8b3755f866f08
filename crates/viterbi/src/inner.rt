// The parts of the decoders: these ask something of their caller. The newest bit is the lowest of a state's number, so that the
// two states before s are s / 2 and s / 2 + 8, and whole arrays are read in order.
ghost use Rattle.std.specs.Prelude.{◌≡◌, List, [], ℕ, ◌+◌, ◌*◌, ◌≤◌, ◌<◌, pos, ◌+ℤ◌, length, get_or};
ghost use Rattle.std.specs.Int.Signed.{mag};
ghost use Rattle.base.specs.Bits.{known};
ghost use Rattle.trellis.specs.Nearest.{total};
ghost use Rattle.convenc.specs.Generators as codes;
ghost use Rattle.viterbi.specs.Decoding.{decode_refusal};
ghost use Rattle.viterbi.specs.private.Scores.{Sixteen, Holds, Marks, Small, Trit, Stands, Table, Tells, Rows, class_of, Classes, branch_of, first_way, second_way, better, oldest, Turned, Forward, walk_end, Back, down};
ghost use Rattle.viterbi.specs.private.Finding.{Finds};

use base::Refusal;

// A code as the decoder takes it: how many symbols a step has, and rows of expected bits, -1 for 0 and 1 for 1, at each state,
// its newest bit lowest, when the bit before the state's four was 0.
#[derive(Clone, Copy)]
struct Code {
    expected: [[i8; 16]; 4],
    rate: usize,
    ghost table: { Table rate expected },
}

// EN 300 392-2, 8.2.3.1.1.
const CONTROL: Code = Code {
    expected: [
        [-1, 1, 1, -1, -1, 1, 1, -1, -1, 1, 1, -1, -1, 1, 1, -1],
        [-1, 1, -1, 1, 1, -1, 1, -1, 1, -1, 1, -1, -1, 1, -1, 1],
        [-1, 1, 1, -1, 1, -1, -1, 1, -1, 1, 1, -1, 1, -1, -1, 1],
        [-1, 1, 1, -1, -1, 1, 1, -1, 1, -1, -1, 1, 1, -1, -1, 1],
    ],
    rate: 4,
};

// The three generators of EN 300 395-2, 5.4.3.1, with a row of zeros.
const SPEECH: Code = Code {
    expected: [
        [-1, 1, 1, -1, 1, -1, -1, 1, 1, -1, -1, 1, -1, 1, 1, -1],
        [-1, 1, 1, -1, -1, 1, 1, -1, 1, -1, -1, 1, 1, -1, -1, 1],
        [-1, 1, -1, 1, 1, -1, 1, -1, -1, 1, -1, 1, 1, -1, 1, -1],
        [0, 0, 0, 0, 0, 0, 0, 0, 0, 0, 0, 0, 0, 0, 0, 0],
    ],
    rate: 3,
};

// What the states other than 0 begin with: more than four steps can cost, and little enough for 864 steps in an i16.
const HANDICAP: i16 = 4096;

// The path scores of the sixteen states.
#[derive(Clone, Copy)]
pub struct Scores {
    pub m: [i16; 16],
}

// The scores after a step, and the choice at each state, state s at bit s.
#[derive(Clone, Copy)]
pub struct Turn {
    pub scores: Scores,
    pub taken: u16,
}

// What each class of symbols adds to the branches of one generator, by the signs that it expects: a match -1, a mismatch 1.
fn rows(e: [i8; 16]) -> [[i16; 16]; 3]
    requires { Sixteen Trit e }
    ensures { Rows e result }
{
    let mut r = [[0i16; 16]; 3];
    for s in 0..16 {
        let wide = e[s] as i16;
        r[0][s] = wide;
        r[1][s] = -wide;
    }
    r
}

// The class of each symbol: 0 and 1 for the bits, 2 for every erasure. To look it up is quicker than to work it out.
fn symbol_classes() -> [u8; 256]
    ensures { Classes result }
{
    let mut r = [2u8; 256];
    r[0] = 0;
    r[1] = 1;
    r
}

// A symbol's class, by the table of all.
fn class(classes: &[u8; 256], symbol: u8) -> usize
    requires { Classes classes.now }
    ensures { (result ≡ class_of symbol) × (result < 3) }
{
    classes[symbol as usize] as usize
}

// Stays: sums, first_ways, second_ways and lessers have one shape, but what each does to an entry is its whole contract.
// Four rows added up.
fn sums(a: [i16; 16], b: [i16; 16], c: [i16; 16], d: [i16; 16]) -> [i16; 16]
    requires { Sixteen Trit a × Sixteen Trit b × Sixteen Trit c × Sixteen Trit d }
    ensures { Holds (λ s. get_or a s (pos 0) +ℤ get_or b s (pos 0) +ℤ get_or c s (pos 0) +ℤ get_or d s (pos 0)) result }
{
    let mut r = [0i16; 16];
    for s in 0..16 {
        r[s] = a[s] + b[s] + c[s] + d[s];
    }
    r
}

// Stays: that scores are small is asked and no invariant of theirs, since a step alone may take them further; forward bounds them.
// The scores of the ways into each state whose oldest bit is 0.
fn first_ways(m: [i16; 16], b: [i16; 16]) -> [i16; 16]
    requires { Small 30000 m × Small 100 b }
    ensures { Holds (first_way m b) result }
{
    let mut r = [0i16; 16];
    for s in 0..16 {
        r[s] = m[s / 2] + b[s];
    }
    r
}

// The same of those whose oldest bit is 1: it turns every expected bit, so the branch score is the negative.
fn second_ways(m: [i16; 16], b: [i16; 16]) -> [i16; 16]
    requires { Small 30000 m × Small 100 b }
    ensures { Holds (second_way m b) result }
{
    let mut r = [0i16; 16];
    for s in 0..16 {
        r[s] = m[s / 2 + 8] - b[s];
    }
    r
}

// The smaller of two scores at each state.
fn lessers(p: [i16; 16], q: [i16; 16]) -> [i16; 16]
    requires { Small 31000 p × Small 31000 q }
    ensures { Holds (λ s. better (get_or p s (pos 0)) (get_or q s (pos 0))) result }
{
    let mut r = [0i16; 16];
    for s in 0..16 {
        let mut z = p[s];
        if q[s] < z {
            z = q[s];
        }
        r[s] = z;
    }
    r
}

// 1 where the second of two scores is smaller.
fn chosen(p: i16, q: i16) -> u16
    ensures { (result ≡ oldest p q) × (result < 2) }
{
    if q < p { 1 } else { 0 }
}

// Bit s is 1 where the second of two ways into state s has the smaller score. The bits are put in by pairs, from the highest
// down: of that the compiler makes a single instruction.
fn choices(p: [i16; 16], q: [i16; 16]) -> u16
    requires { Small 31000 p × Small 31000 q }
    ensures { Marks (λ s. oldest (get_or p s (pos 0)) (get_or q s (pos 0))) result }
{
    let mut taken: u16 = 0;
    for pair in (0..8).rev() {
        let s = 2 * pair;
        taken = taken * 4 + (chosen(p[s], q[s]) + 2 * chosen(p[s + 1], q[s + 1]));
    }
    taken
}

// One step of all sixteen states. The loops stand apart, each over whole arrays, so that they become vector code.
fn advance(old: Scores, b: [i16; 16]) -> Turn
    requires { Small 30000 old.m × Small 100 b }
    ensures { Turned old.m b result.scores.m result.taken }
{
    let m = old.m;
    let p = first_ways(m, b);
    let q = second_ways(m, b);
    let next = lessers(p, q);
    Turn {
        scores: Scores { m: next },
        taken: choices(p, q),
    }
}

// The walk back from state 0: it writes the word and clears the trellis.
fn back(trellis: &mut [u16], target: &mut [u8])
    requires { length target.old ≡ length trellis.old }
    ensures { Back (length trellis.old) trellis.old trellis.new target.old target.new }
{
    let mut s: u16 = 0;
    for i in (0..trellis.len()).rev() {
        target[i] = (s % 2) as u8;
        s = s / 2 + 8 * ((trellis[i] >> s) % 2);
        trellis[i] = 0;
    }
}

// How many of the symbols are bits.
fn unerased(symbols: &[u8]) -> usize
    ensures { result ≡ total known symbols.now }
{
    let mut count: usize = 0;
    for symbol in symbols {
        if *symbol < 2 {
            count += 1;
        }
    }
    count
}

// The cost that a score stands for among so many known symbols.
fn cost(z: i16, symbols: usize) -> usize
    requires { (mag z < 20000) × (symbols ≤ 3456) × (down z ≤ symbols) }
    ensures { (n : ℕ) → Stands z n symbols → result ≡ n }
{
    let twice = z + symbols as i16;
    twice as usize / 2
}

// What is refused of n steps of k symbols.
pub fn refusal(
    k: usize,
    n: usize,
    source: usize,
    trellis: usize,
    target: usize,
) -> Result<(), Refusal>
    requires { k < 5 }
    ensures { (code : List (List ℕ)) → length code ≡ k → result ≡ decode_refusal code n source trellis target }
{
    if 864 < n {
        return Err(Refusal::Limit);
    }
    if source < k * n {
        return Err(Refusal::Short);
    }
    if trellis < n {
        return Err(Refusal::Room);
    }
    if target < n {
        return Err(Refusal::Room);
    }
    Ok(())
}

// A code goes by value: of one that is lent the rate is read again at each step, and the decoders are slower by a fifth.
impl Code {
    // The branch scores of the step whose symbols begin at a place, by the rows of the four generators.
    fn branches(
        self,
        rows: &[[[i16; 16]; 3]; 4],
        classes: &[u8; 256],
        source: &[u8],
        at: usize,
    ) -> [i16; 16]
        requires { ((j : ℕ) → j < 4 → Rows (get_or self.expected j []) (get_or rows.now j [])) × Classes classes.now × (at + self.rate ≤ length source.now) }
        ensures { Holds (branch_of self.expected self.rate source.now at) result }
    {
        let p = class(classes, source[at]);
        let q = class(classes, source[at + 1]);
        let r = class(classes, source[at + 2]);
        let s = class(classes, source[at + (self.rate - 1)]);
        sums(rows[0][p], rows[1][q], rows[2][r], rows[3][s])
    }

    // The pass over as many steps as the trellis has entries: the scores after them, and the choices at each in the trellis. The walk
    // back over these choices from state 0 ends in state 0, so nobody has to look where it ends.
    fn forward(self, source: &[u8], trellis: &mut [u16]) -> Scores
        requires { (length trellis.old ≤ 864) × (self.rate * length trellis.old ≤ length source.now) }
        ensures { Forward self.rate self.expected source.now (length trellis.old) result.m trellis.old trellis.new
            × (walk_end trellis.new (length trellis.old) 0 ≡ 0) }
    {
        let classes = symbol_classes();
        let e = self.expected;
        let rows = [rows(e[0]), rows(e[1]), rows(e[2]), rows(e[3])];
        let mut first = [HANDICAP; 16];
        first[0] = 0;
        let mut scores = Scores { m: first };
        for i in 0..trellis.len() {
            let turn = advance(
                scores,
                self.branches(&rows, &classes, source, self.rate * i),
            );
            trellis[i] = turn.taken;
            scores = turn.scores;
        }
        scores
    }

    // The decoder where nothing is refused: the disagreements of the word that it writes, a bit for each step.
    fn run(self, source: &[u8], target: &mut [u8], trellis: &mut [u16]) -> usize
        requires { (length trellis.old ≤ 864) × (length source.now ≡ self.rate * length trellis.old) × (length target.old ≡ length trellis.old) }
        ensures { (code : List (List ℕ)) → Tells code self.rate self.expected
            → Finds code (length trellis.old) source.now target.old target.new trellis.old trellis.new result }
    {
        let scores = self.forward(source, trellis);
        let z = scores.m[0];
        back(trellis, target);
        cost(z, unerased(source))
    }
}

// Stays: control and speech are two entries over one routine; and n is beside their slices, since their contracts take longer ones.
// The control decoder where nothing is refused.
pub fn control(source: &[u8], target: &mut [u8], n: usize, trellis: &mut [u16]) -> usize
    requires { (n ≤ 864) × (4 * n ≤ length source.now) × (n ≤ length trellis.old) × (n ≤ length target.old) }
    ensures { Finds codes.control n source.now target.old target.new trellis.old trellis.new result }
{
    CONTROL.run(&source[..4 * n], &mut target[..n], &mut trellis[..n])
}

// The speech decoder where nothing is refused.
pub fn speech(source: &[u8], target: &mut [u8], n: usize, trellis: &mut [u16]) -> usize
    requires { (n ≤ 864) × (3 * n ≤ length source.now) × (n ≤ length trellis.old) × (n ≤ length target.old) }
    ensures { Finds codes.speech n source.now target.old target.new trellis.old trellis.new result }
{
    SPEECH.run(&source[..3 * n], &mut target[..n], &mut trellis[..n])
}
