// The block interleaver (EN 300 392-2, 8.2.4.1) and the matrix interleaver (EN 300 395-2, 5.5.3), each with its inverse.
// Ported from lmac/components/interleaver.rs; changed: refusals take the place of the asserts, a shuffle that is no permutation is refused,
// and places are found by adding. A caller gets its target with each entry at its place, or a refusal number and the target as it was.
#![tactic(auto)]

ghost use Rattle.std.specs.Prelude.{◌≡◌, ◌+◌, ◌%◌, ◌≤◌, ◌<◌, length};
ghost use Rattle.base.specs.Refusal.{Leaves};
ghost use Rattle.base.specs.Places.{written, gather, scatter};
ghost use Rattle.interleaver.specs.private.Divisors.{Greatest};
ghost use Rattle.interleaver.specs.private.Walk.{onward, walk, Ready};
ghost use Rattle.interleaver.specs.private.Lines.{MatrixFits, line_moved};
ghost use Rattle.interleaver.specs.Interleaving.{shared, block_refusal, interleaved, deinterleaved, matrix_refusal, matrix_interleaved, matrix_deinterleaved};

use base::Refusal;
use base::inner::sized;

// The greatest number that divides both, by Euclid's step on the remainder.
fn divisor(a: usize, b: usize) -> usize
    ensures { Greatest a b result }
{
    if b == 0 {
        return a;
    }
    divisor(b, a % b)
}

// Whether some number above 1 divides both, for k at least 1.
fn shares(k: usize, a: usize) -> bool
    ensures { result ≡ shared k a }
{
    if k == 0 {
        return false;
    }
    1 < divisor(k, a)
}

// ---- block

fn block_refusal(k: usize, a: usize, source: usize, target: usize) -> Result<(), Refusal>
    ensures { result ≡ block_refusal k a source target }
{
    if 4096 < k {
        return Err(Refusal::Limit);
    }
    if 65535 < a {
        return Err(Refusal::Limit);
    }
    if shares(k, a) {
        return Err(Refusal::Shuffle);
    }
    sized(source, k, target, k)
}

// a's remainder by k; for k 0, where nothing is moved, a itself.
fn block_step(k: usize, a: usize) -> usize
    ensures { result ≡ a % k }
{
    if k == 0 {
        return a;
    }
    a % k
}

// Places found by adding: count of them from the start on, each a step further and, past the count, from the front again.
#[derive(Clone, Copy)]
struct Stride {
    start: usize,
    step: usize,
    count: usize,
}

impl Stride {
    // The places of k entries: the first is a step from the front.
    fn of_block(k: usize, a: usize) -> Self
        ensures { (result.start ≡ a % k) × (result.step ≡ a % k) × (result.count ≡ k) }
    {
        let step = block_step(k, a);
        Stride {
            start: step,
            step,
            count: k,
        }
    }

    // The next place.
    fn advance(self, at: usize) -> usize
        requires { (self.step ≤ 65535) × (self.count ≤ 4096) × (at < self.count) }
        ensures { result ≡ onward self.step self.count at }
    {
        let next = at + self.step;
        if next < self.count {
            return next;
        }
        next - self.count
    }

    // Entry i goes to place i.
    fn spread(self, input: &[u8], output: &mut [u8])
        requires { Ready self.start self.step self.count (length input.now) (length output.old) }
        ensures { output.new ≡ scatter (walk self.start self.step self.count) self.count input.now output.old }
    {
        let mut at = self.start;
        for i in 0..self.count {
            output[at] = input[i];
            at = self.advance(at);
        }
    }

    // Entry i comes from place i.
    fn collect(self, input: &[u8], output: &mut [u8])
        requires { Ready self.start self.step self.count (length input.now) (length output.old) }
        ensures { output.new ≡ written (gather (walk self.start self.step self.count) self.count input.now) output.old }
    {
        let mut at = self.start;
        for i in 0..self.count {
            output[i] = input[at];
            at = self.advance(at);
        }
    }
}

// Place i of 1..k goes to 1 + (a i mod k).
pub fn block_interleave(k: usize, a: usize, input: &[u8], output: &mut [u8]) -> Result<(), Refusal>
    ensures { Leaves (block_refusal k a (length input.now) (length output.old))
        (interleaved k a input.now output.old) output.old output.new result }
{
    block_refusal(k, a, input.len(), output.len())?;
    Stride::of_block(k, a).spread(input, output);
    Ok(())
}

// Place i of 1..k comes from 1 + (a i mod k).
pub fn block_deinterleave(
    k: usize,
    a: usize,
    input: &[u8],
    output: &mut [u8],
) -> Result<(), Refusal>
    ensures { Leaves (block_refusal k a (length input.now) (length output.old))
        (written (deinterleaved k a input.now) output.old) output.old output.new result }
{
    block_refusal(k, a, input.len(), output.len())?;
    Stride::of_block(k, a).collect(input, output);
    Ok(())
}

// ---- matrix

fn matrix_refusal(lines: usize, columns: usize, source: usize, target: usize) -> Result<(), Refusal>
    ensures { result ≡ matrix_refusal lines columns source target }
{
    if 4096 < lines {
        return Err(Refusal::Limit);
    }
    if 4096 < columns {
        return Err(Refusal::Limit);
    }
    let count = lines * columns;
    if 4096 < count {
        return Err(Refusal::Limit);
    }
    sized(source, count, target, count)
}

// Entries by lines: entry i of a line stands at line columns + i.
// Stays: what its methods ask is no invariant of it, since `MatrixFits` says as much of the two lent slices as of the sides.
#[derive(Clone, Copy)]
struct Grid {
    lines: usize,
    columns: usize,
}

impl Grid {
    // Entry i of the line goes to i lines + line.
    fn move_line(self, line: usize, input: &[u8], output: &mut [u8])
        requires { (line < self.lines) × MatrixFits self.lines self.columns (length input.now) (length output.old) }
        ensures { output.new ≡ line_moved self.lines self.columns line input.now output.old }
    {
        let first = line * self.columns;
        let mut at = line;
        for i in 0..self.columns {
            output[at] = input[first + i];
            at += self.lines;
        }
    }

    // The line and the next one, entry by entry side by side.
    fn move_pair(self, line: usize, input: &[u8], output: &mut [u8])
        requires { (line + 1 < self.lines) × MatrixFits self.lines self.columns (length input.now) (length output.old) }
        ensures { output.new ≡ line_moved self.lines self.columns (line + 1) input.now
            (line_moved self.lines self.columns line input.now output.old) }
    {
        let first = line * self.columns;
        let second = first + self.columns;
        let mut at = line;
        for i in 0..self.columns {
            output[at] = input[first + i];
            output[at + 1] = input[second + i];
            at += self.lines;
        }
    }

    // Every line at its places, two lines at a time; a last line that has no next one goes alone.
    fn move_lines(self, input: &[u8], output: &mut [u8])
        requires { MatrixFits self.lines self.columns (length input.now) (length output.old) }
        ensures { output.new ≡ matrix_interleaved self.lines self.columns input.now output.old }
    {
        for pair in 0..self.lines / 2 {
            self.move_pair(2 * pair, input, output);
        }
        if self.lines % 2 == 1 {
            self.move_line(self.lines - 1, input, output);
        }
    }
}

// Entry j columns + i goes to i lines + j, counted from 0.
pub fn matrix_interleave(
    lines: usize,
    columns: usize,
    input: &[u8],
    output: &mut [u8],
) -> Result<(), Refusal>
    ensures { Leaves (matrix_refusal lines columns (length input.now) (length output.old))
        (matrix_interleaved lines columns input.now output.old) output.old output.new result }
{
    matrix_refusal(lines, columns, input.len(), output.len())?;
    Grid { lines, columns }.move_lines(input, output);
    Ok(())
}

// Entry j columns + i comes from i lines + j, counted from 0.
pub fn matrix_deinterleave(
    lines: usize,
    columns: usize,
    input: &[u8],
    output: &mut [u8],
) -> Result<(), Refusal>
    ensures { Leaves (matrix_refusal lines columns (length input.now) (length output.old))
        (written (matrix_deinterleaved lines columns input.now) output.old) output.old output.new result }
{
    matrix_refusal(lines, columns, input.len(), output.len())?;
    let turned = Grid {
        lines: columns,
        columns: lines,
    };
    turned.move_lines(input, output);
    Ok(())
}
