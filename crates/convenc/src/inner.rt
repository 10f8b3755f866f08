// Shared among our own crates: these ask something of their caller.
ghost use Rattle.std.specs.Prelude.{◌≡◌, List, ℕ, [], ◌∷◌, ◌+◌, ◌≤◌, length};
ghost use Rattle.std.proofs.lemmas.List.Edits.{sets};
ghost use Rattle.base.specs.Refusal.{accepted};
ghost use Rattle.convenc.specs.Generators.{encode_refusal};
ghost use Rattle.convenc.specs.private.Generators.{InTurn};
ghost use Rattle.convenc.specs.private.Tapping.{CodeLaws, taps};

// A mother code: what it makes of a bit and the four bits before it.
pub trait Code: Copy {
    ghost generators: { List (List ℕ) };

    // How many entries it makes of a bit.
    const RATE: usize;

    ghost RATE: { ℕ };

    // The outputs of one bit, from place at on. The delays are the four bits before it, the newest first.
    fn outputs(at: usize, bit: u8, delayed: &[u8; 4], output: &mut [u8])
        requires { at + length generators ≤ length output.old }
        ensures { output.new ≡ sets output.old at (taps generators bit delayed.now) };

    ghost laws: { CodeLaws RATE generators };
}

// One new speech encoder, lent to two calls in a row: the second goes on from where the first ends. Neither can refuse: that is asked.
pub fn encode_both(first: &[u8], second: &[u8], first_output: &mut [u8], second_output: &mut [u8])
    requires { (encode_refusal 3 (0 ∷ 0 ∷ 0 ∷ 0 ∷ []) first.now (length first_output.old) ≡ accepted)
        × (encode_refusal 3 (0 ∷ 0 ∷ 0 ∷ 0 ∷ []) second.now (length second_output.old) ≡ accepted) }
    ensures { InTurn first.now second.now first_output.old first_output.new second_output.old second_output.new }
{
    let mut e = crate::SpeechConvEncState::new();
    e.encode_lent(first, first_output).unwrap();
    e.encode_lent(second, second_output).unwrap();
}
