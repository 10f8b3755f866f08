// Puncturing in seven modes: which entries of a mother word are sent, and where they stand when they come back.
// Ported from lmac/components/convenc.rs; changed: a mode is a number that its P, t and period are looked up by; what the original
// panics on is refused. A caller gets the whole output or, beside a refusal, nothing written.
#![tactic(auto)]

ghost use Rattle.std.specs.Prelude.{◌≡◌, ℕ, ◌+◌, ◌*◌, ◌≤◌, ◌<◌, length};
ghost use Rattle.base.specs.Refusal.{Leaves};
ghost use Rattle.base.specs.Places.{written};
ghost use Rattle.puncturing.specs.Puncturing.{puncture_refusal, depuncture_refusal, punctured, depunctured};
ghost use Rattle.puncturing.specs.private.Tables.{Parameters};
ghost use Rattle.puncturing.specs.private.Ways.{Direction, puncturing, depuncturing, put, Reaches};

use base::Refusal;

// Stays: flat tables looked up by a mode number, and that number at the entries, are a form that docs/DECISIONS.md keeps.
// P of the modes 2_3, 1_3, 292_432, 148_432, 112_168, 72_162 and 38_80, each filled up with zeros that are not read.
const P: [[u8; 17]; 7] = [
    [1, 2, 5, 0, 0, 0, 0, 0, 0, 0, 0, 0, 0, 0, 0, 0, 0],
    [1, 2, 3, 5, 6, 7, 0, 0, 0, 0, 0, 0, 0, 0, 0, 0, 0],
    [1, 2, 5, 0, 0, 0, 0, 0, 0, 0, 0, 0, 0, 0, 0, 0, 0],
    [1, 2, 3, 5, 6, 7, 0, 0, 0, 0, 0, 0, 0, 0, 0, 0, 0],
    [1, 2, 4, 0, 0, 0, 0, 0, 0, 0, 0, 0, 0, 0, 0, 0, 0],
    [1, 2, 3, 4, 5, 7, 8, 10, 11, 0, 0, 0, 0, 0, 0, 0, 0],
    [1, 2, 3, 4, 5, 7, 8, 10, 11, 13, 14, 16, 17, 19, 20, 22, 23],
];

const T: [usize; 7] = [3, 6, 3, 6, 3, 9, 17];

const PERIOD: [usize; 7] = [8, 8, 8, 8, 6, 12, 24];

// After how many outputs i(j) passes a position over. No count goes past 4,096, so that stands for never.
const RUN: [usize; 7] = [4096, 4096, 65, 35, 4096, 4096, 4096];

// One of the modes: of each period of mother entries, t are kept, at the positions that the row says.
#[derive(Clone, Copy)]
struct Puncturer {
    mode: u8,
    row: [u8; 17],
    t: usize,
    period: usize,
    run: usize,
    ghost parameters: { Parameters mode row t period run },
}

// Where the next output is kept from: entry index of P, in the period whose mother entries begin at base.
// Before the output numbered skip a position is passed over.
#[derive(Clone, Copy)]
struct Kept {
    base: usize,
    index: usize,
    skip: usize,
}

// Puncturing takes outputs from their mother places, depuncturing puts entries back to them.
trait Way {
    ghost way: { Direction };

    // One entry between place j and its mother place.
    fn carry_entry(place: usize, j: usize, input: &[u8], output: &mut [u8])
        requires { Reaches way place j (length input.now) (length output.old) }
        ensures { output.new ≡ put way place j input.now output.old };
}

struct Puncturing;

impl Way for Puncturing {
    ghost way = { puncturing };

    fn carry_entry(place: usize, j: usize, input: &[u8], output: &mut [u8]) {
        output[j] = input[place];
    }
}

struct Depuncturing;

impl Way for Depuncturing {
    ghost way = { depuncturing };

    fn carry_entry(place: usize, j: usize, input: &[u8], output: &mut [u8]) {
        output[place] = input[j];
    }
}

impl Puncturer {
    ghost use Rattle.std.specs.Prelude.{ltb};
    ghost use Rattle.base.specs.Refusal.{LIMIT, accepted, valued, when};
    ghost use Rattle.puncturing.specs.Puncturing.{needed};
    ghost use Rattle.puncturing.specs.private.Ways.{Holds, Carries, carried};
    ghost use Rattle.puncturing.specs.private.Walk.{Opens, Lies, Stands};

    // The mode of a number, which the tables know.
    fn of(mode: u8) -> Result<Puncturer, Refusal>
        ensures { Opens mode result }
    {
        if 6 < mode {
            return Err(Refusal::Kind);
        }
        let m = mode as usize;
        Ok(Puncturer {
            mode,
            row: P[m],
            t: T[m],
            period: PERIOD[m],
            run: RUN[m],
        })
    }

    // How many mother entries n outputs need: the position of the last.
    fn needed(&self, n: usize) -> Result<usize, Refusal>
        ensures { result ≡ valued (when (ltb 4096 n) LIMIT accepted) (needed self.now.mode n) }
    {
        if 4096 < n {
            return Err(Refusal::Limit);
        }
        if n == 0 {
            return Ok(0);
        }
        let j = n - 1;
        let x = j + j / self.run;
        Ok(self.period * (x / self.t) + self.row[x % self.t] as usize)
    }

    // The place that is by entries of P further on.
    fn moved(&self, at: Kept, by: usize, skip: usize) -> Kept
        requires { (by ≤ 2) × (at.index < self.now.t) × (at.base < 1000000) }
        ensures { (result.skip ≡ skip) × ((x : ℕ) → Lies self.now x at → Lies self.now (x + by) result) }
    {
        let index = at.index + by;
        if index < self.t {
            return Kept {
                base: at.base,
                index,
                skip,
            };
        }
        Kept {
            base: at.base + self.period,
            index: index - self.t,
            skip,
        }
    }

    // The place of output j + 1, from that of output j.
    fn next(&self, j: usize, at: Kept) -> Kept
        requires { Stands self.now j at × (j < 4096) }
        ensures { Stands self.now (j + 1) result }
    {
        if j + 1 == at.skip {
            return self.moved(at, 2, at.skip + self.run);
        }
        self.moved(at, 1, at.skip)
    }

    // How many periods are kept whole: they end before len, and before a position is passed over.
    fn whole_periods(&self, len: usize) -> usize
        ensures { (self.now.t * result ≤ len) × (self.now.t * result < self.now.run) }
    {
        let most = self.run - 1;
        if len < most {
            return len / self.t;
        }
        most / self.t
    }

    // The place of the output that follows so many whole periods.
    fn after_periods(&self, whole: usize) -> Kept
        requires { self.now.t * whole < self.now.run }
        ensures { Stands self.now (self.now.t * whole) result }
    {
        Kept {
            base: self.period * whole,
            index: 0,
            skip: self.run,
        }
    }

    // The entries of period q, from 0, which ends before a position is passed over.
    fn carry_period<W: Way>(&self, q: usize, input: &[u8], output: &mut [u8])
        requires { (self.now.t * q + self.now.t < self.now.run)
            × Holds W.way self.now.mode (self.now.t * q + self.now.t) (length input.now) (length output.old) }
        ensures { Carries W.way self.now.mode (self.now.t * q) (self.now.t * q + self.now.t) input.now output.old output.new }
    {
        let base = self.period * q;
        let j = self.t * q;
        for e in 0..self.t {
            let place = base + self.row[e] as usize - 1;
            W::carry_entry(place, j + e, input, output);
        }
    }

    // The first len entries: whole periods, and then one by one, where a position may be passed over.
    fn carry<W: Way>(&self, input: &[u8], len: usize, output: &mut [u8])
        requires { (len ≤ 4096) × Holds W.way self.now.mode len (length input.now) (length output.old) }
        ensures { output.new ≡ carried W.way self.now.mode len input.now output.old }
    {
        let whole = self.whole_periods(len);
        for q in 0..whole {
            self.carry_period::<W>(q, input, output);
        }
        let mut at = self.after_periods(whole);
        for j in self.t * whole..len {
            let place = at.base + self.row[at.index] as usize - 1;
            W::carry_entry(place, j, input, output);
            at = self.next(j, at);
        }
    }
}

// Stays: two entries, since the contracts of get_punctured_rate and of tetra_rcpc_depunct differ; they share what they call.
// Stays: len beside the slices, since the contracts of both take slices that are longer.
// The outputs numbered 1 to len that the mode keeps of a mother word.
pub fn get_punctured_rate(
    mode: u8,
    input: &[u8],
    len: usize,
    output: &mut [u8],
) -> Result<(), Refusal>
    ensures { Leaves (puncture_refusal mode len (length input.now) (length output.old))
        (written (punctured mode len input.now) output.old) output.old output.new result }
{
    let p = Puncturer::of(mode)?;
    let mother = p.needed(len)?;
    base::inner::sized(input.len(), mother, output.len(), len)?;
    p.carry::<Puncturing>(input, len, output);
    Ok(())
}

// The len entries back at their mother places. What is not kept stays as it was.
pub fn tetra_rcpc_depunct(
    mode: u8,
    input: &[u8],
    len: usize,
    output: &mut [u8],
) -> Result<(), Refusal>
    ensures { Leaves (depuncture_refusal mode len (length input.now) (length output.old))
        (depunctured mode len input.now output.old) output.old output.new result }
{
    let p = Puncturer::of(mode)?;
    let mother = p.needed(len)?;
    base::inner::sized(input.len(), len, output.len(), mother)?;
    p.carry::<Depuncturing>(input, len, output);
    Ok(())
}
