// Shared among our own crates: these ask something of their caller.
ghost use Rattle.std.specs.Prelude.{◌≡◌, false, ◌*◌, ◌≤◌, length, take, replicate};
ghost use Rattle.base.specs.Bits.{Bits};
ghost use Rattle.puncturing.specs.Puncturing.{needed, punctured, depunctured};
ghost use Rattle.interleaver.specs.Interleaving.{shared, interleaved, deinterleaved, matrix_interleaved, matrix_deinterleaved};
ghost use Rattle.scrambler.specs.Scrambling.{scrambled, descrambled};

// What a mode keeps of mother symbols, over the whole target.
// Stays: a mode is a number here and below, since puncturing looks its tables up by it (docs/DECISIONS.md, "puncturing mode and kind").
pub fn puncture(mode: u8, mother: &[u8], coded: &mut [u8])
    requires { (mode ≤ 6) × (length coded.old ≤ 4096) × (needed mode (length coded.old) ≤ length mother.now) }
    ensures { coded.new ≡ punctured mode (length coded.old) mother.now }
{
    let count = coded.len();
    puncturing::get_punctured_rate(mode, mother, count, coded).unwrap();
}

// Bits scrambled where they stand.
pub fn scramble(start: u32, block: &mut [u8])
    requires { Bits block.old }
    ensures { block.new ≡ scrambled start block.old }
{
    scrambler::tetra_scramb_bits(start, block).unwrap();
}

// As many air symbols as the target holds, without their scrambling.
pub fn descramble(start: u32, air: &[u8], plain: &mut [u8])
    requires { length plain.old ≤ length air.now }
    ensures { plain.new ≡ descrambled start (take (length plain.old) air.now) }
{
    plain.copy_from_slice(&air[..plain.len()]);
    scrambler::tetra_descramb_bits(start, plain);
}

// The first k air symbols without their scrambling, each fetched from its place in the block interleaver.
pub fn take_block_off_air(k: usize, a: usize, start: u32, air: &[u8], coded: &mut [u8])
    requires { (k ≤ 432) × (a ≤ 65535) × (shared k a ≡ false) × (k ≤ length air.now) × (length coded.old ≡ k) }
    ensures { coded.new ≡ deinterleaved k a (descrambled start (take k air.now)) }
{
    let mut plain = [0u8; 432];
    descramble(start, air, &mut plain[..k]);
    interleaver::block_deinterleave(k, a, &plain[..k], coded).unwrap();
}

// Coded symbols at the places that a mode keeps of a mother target; its other entries stay.
pub fn depuncture(mode: u8, coded: &[u8], mother: &mut [u8])
    requires { (mode ≤ 6) × (length coded.now ≤ 4096) × (needed mode (length coded.now) ≤ length mother.old) }
    ensures { mother.new ≡ depunctured mode (length coded.now) coded.now mother.old }
{
    puncturing::tetra_rcpc_depunct(mode, coded, coded.len(), mother).unwrap();
}

// How a block goes onto the air: the mode that punctures it, how many symbols are left, the step of the block interleaver and the start of the scrambler.
#[derive(Clone, Copy)]
pub struct Block {
    pub mode: u8,
    pub count: usize,
    pub step: usize,
    pub start: u32,
    pub ghost known: { mode ≤ 6 },
    pub ghost few: { count ≤ 432 },
    pub ghost small: { step ≤ 65535 },
    pub ghost alone: { shared count step ≡ false },
}

impl Block {
    // What the mode keeps of mother bits, moved to the places of the interleaver and scrambled, over the whole target.
    pub fn put_on_air(self, mother: &[u8], air: &mut [u8])
        requires { (needed self.mode self.count ≤ length mother.now) × Bits mother.now × (length air.old ≡ self.count) }
        ensures { air.new ≡ scrambled self.start (interleaved self.count self.step (punctured self.mode self.count mother.now) (replicate self.count 0)) }
    {
        let mut coded = [0u8; 432];
        puncture(self.mode, mother, &mut coded[..self.count]);
        interleaver::block_interleave(self.count, self.step, &coded[..self.count], air).unwrap();
        scramble(self.start, air);
    }

    // The block's air symbols without their scrambling, at the places that the mode keeps of a mother target; its other entries stay.
    pub fn take_off_air(self, air: &[u8], mother: &mut [u8])
        requires { (self.count ≤ length air.now) × (needed self.mode self.count ≤ length mother.old) }
        ensures { mother.new ≡ depunctured self.mode self.count (deinterleaved self.count self.step (descrambled self.start (take self.count air.now))) mother.old }
    {
        let mut coded = [0u8; 432];
        take_block_off_air(
            self.count,
            self.step,
            self.start,
            air,
            &mut coded[..self.count],
        );
        depuncture(self.mode, &coded[..self.count], mother);
    }
}

// How a matrix goes onto the air: its sides and the start of the scrambler.
#[derive(Clone, Copy)]
pub struct Matrix {
    pub lines: usize,
    pub columns: usize,
    pub start: u32,
    pub ghost high: { lines ≤ 4096 },
    pub ghost wide: { columns ≤ 4096 },
    pub ghost limit: { lines * columns ≤ 4096 },
}

impl Matrix {
    // Bits moved through the matrix and scrambled, over the whole target.
    pub fn put_on_air(self, block: &[u8], air: &mut [u8])
        requires { (length block.now ≡ self.lines * self.columns) × Bits block.now × (length air.old ≡ self.lines * self.columns) }
        ensures { air.new ≡ scrambled self.start (matrix_interleaved self.lines self.columns block.now (replicate (self.lines * self.columns) 0)) }
    {
        interleaver::matrix_interleave(self.lines, self.columns, block, air).unwrap();
        scramble(self.start, air);
    }

    // As many air symbols as the matrix has, without their scrambling, each fetched from its place in it.
    pub fn take_off_air(self, air: &[u8], block: &mut [u8])
        requires { (self.lines * self.columns ≤ 432) × (self.lines * self.columns ≤ length air.now) × (length block.old ≡ self.lines * self.columns) }
        ensures { block.new ≡ matrix_deinterleaved self.lines self.columns (descrambled self.start (take (self.lines * self.columns) air.now)) }
    {
        let count = block.len();
        let mut plain = [0u8; 432];
        descramble(self.start, air, &mut plain[..count]);
        interleaver::matrix_deinterleave(self.lines, self.columns, &plain[..count], block).unwrap();
    }
}
