// The mother codes of control and speech.
// Ported from lmac/components/convenc.rs; changed: one encoder for every code; it goes in by value and is handed back, or is lent;
// what the original panics on is refused.
// A caller gets the whole output or, beside a refusal, nothing written and the encoder as it was.
#![tactic(auto)]

ghost use Rattle.std.specs.Prelude.{◌≡◌, [], ◌∷◌, ◌*◌, ◌≤◌, length, take};
ghost use Rattle.base.specs.Refusal.{accepted};
ghost use Rattle.base.specs.Places.{written};
ghost use Rattle.trellis.specs.Nearest.{encode};
ghost use Rattle.base.specs.Digits.{number};
ghost use Rattle.convenc.specs.Generators.{control, control_third, speech, outputs, delays, encode_refusal, Encoded};
ghost use Rattle.convenc.specs.private.Tapping.{newest, GoesOn};
ghost use Rattle.convenc.specs.private.Codes.{control_laws, control_third_laws, speech_laws};

use base::Refusal;
use inner::Code;
use std::marker::PhantomData;

pub mod inner;

// The control code.
#[derive(Clone, Copy)]
pub struct Control;

// The first three generators of the control code.
#[derive(Clone, Copy)]
pub struct ControlThird;

// The speech code.
#[derive(Clone, Copy)]
pub struct Speech;

impl Code for ControlThird {
    ghost generators = { control_third };

    const RATE: usize = 3;

    ghost RATE = { 3 };

    fn outputs(at: usize, bit: u8, delayed: &[u8; 4], output: &mut [u8]) {
        let [newest, newer, older, oldest] = *delayed;
        output[at] = bit ^ newest ^ oldest;
        output[at + 1] = bit ^ newer ^ older ^ oldest;
        output[at + 2] = bit ^ newest ^ newer ^ oldest;
    }

    ghost laws = { control_third_laws };
}

impl Code for Control {
    ghost generators = { control };

    const RATE: usize = 4;

    ghost RATE = { 4 };

    fn outputs(at: usize, bit: u8, delayed: &[u8; 4], output: &mut [u8]) {
        let [newest, _, older, oldest] = *delayed;
        ControlThird::outputs(at, bit, delayed, output);
        output[at + 3] = bit ^ newest ^ older ^ oldest;
    }

    ghost laws = { control_laws };
}

impl Code for Speech {
    ghost generators = { speech };

    const RATE: usize = 3;

    ghost RATE = { 3 };

    fn outputs(at: usize, bit: u8, delayed: &[u8; 4], output: &mut [u8]) {
        let [newest, newer, older, oldest] = *delayed;
        output[at] = bit ^ newest ^ newer ^ older ^ oldest;
        output[at + 1] = bit ^ newest ^ older ^ oldest;
        output[at + 2] = bit ^ newer ^ oldest;
    }

    ghost laws = { speech_laws };
}

// An encoder: the last four bits that it took, the newest first.
#[derive(Clone, Copy)]
pub struct Encoder<C> {
    pub delayed: [u8; 4],
    code: PhantomData<C>,
}

// The control encoder.
pub type ConvEncState = Encoder<Control>;

// The speech encoder.
pub type SpeechConvEncState = Encoder<Speech>;

// What an encoder answers, and the encoder to go on from.
// Stays: the answer stands beside the encoder, since a refusal hands the encoder back as it was (`Encoded`).
#[derive(Clone, Copy)]
pub struct Coded<E> {
    pub outcome: Result<(), Refusal>,
    pub state: E,
}

// Which refusal an encoder of this rate owes.
fn encode_refusal(rate: usize, delayed: [u8; 4], input: &[u8], room: usize) -> Result<(), Refusal>
    requires { rate ≤ 4 }
    ensures { result ≡ encode_refusal rate delayed input.now room }
{
    let n = input.len();
    if n == 0 {
        return Ok(());
    }
    if 4096 < n {
        return Err(Refusal::Limit);
    }
    if room < rate * n {
        return Err(Refusal::Room);
    }
    if !base::inner::bits_only(input) {
        return Err(Refusal::Bit);
    }
    if !base::inner::bits_only(&delayed) {
        return Err(Refusal::Bit);
    }
    Ok(())
}

// The delays after an input of four bits or more: its last four, the newest first.
fn last_bits(input: &[u8]) -> [u8; 4]
    requires { 4 ≤ length input.now }
    ensures { result ≡ newest input.now (length input.now) }
{
    let n = input.len();
    [input[n - 1], input[n - 2], input[n - 3], input[n - 4]]
}

// The code from the fifth bit on, whose delays are the four bits before it in the input. Each code has a loop of its own.
fn encode_on<C: Code>(input: &[u8], output: &mut [u8])
    requires { length C.generators * length input.now ≤ length output.old }
    ensures { GoesOn C.generators input.now output.old output.new }
{
    for i in 4..input.len() {
        C::outputs(
            C::RATE * i,
            input[i],
            &[input[i - 1], input[i - 2], input[i - 3], input[i - 4]],
            output,
        );
    }
}

impl<C> From<[u8; 4]> for Encoder<C> {
    ghost from_gives = { λ delayed encoder. encoder.delayed ≡ delayed };

    fn from(delayed: [u8; 4]) -> Self {
        let code = PhantomData;
        Encoder { delayed, code }
    }
}

impl<C: Code> Encoder<C> {
    // An encoder that has taken nothing.
    pub fn new() -> Self
        ensures { result.delayed ≡ 0 ∷ 0 ∷ 0 ∷ 0 ∷ [] }
    {
        Encoder::from([0; 4])
    }

    // The same encoder, as if it had taken nothing.
    pub fn reset(self) -> Self
        ensures { result.delayed ≡ 0 ∷ 0 ∷ 0 ∷ 0 ∷ [] }
    {
        Encoder::new()
    }

    // The encoder after one more bit: it comes first, and the oldest goes.
    fn after(self, bit: u8) -> Self
        ensures { result.delayed ≡ delays self.delayed (bit ∷ []) }
    {
        let delayed = self.delayed;
        Encoder::from([bit, delayed[0], delayed[1], delayed[2]])
    }

    // The code of the input, each bit with the delays that the encoder holds.
    fn encode_each(self, input: &[u8], output: &mut [u8]) -> Self
        requires { encode_refusal (length C.generators) self.delayed input.now (length output.old) ≡ accepted }
        ensures { (result.delayed ≡ delays self.delayed input.now)
            × (output.new ≡ written (encode (outputs C.generators) (number self.delayed) input.now) output.old) }
    {
        let mut s = self;
        for (i, bit) in input.iter().enumerate() {
            C::outputs(C::RATE * i, *bit, &s.delayed, output);
            s = s.after(*bit);
        }
        s
    }

    // The code of the first four bits, which need the delays held so far, and the encoder after the whole input.
    fn encode_first(self, input: &[u8], output: &mut [u8]) -> Self
        requires { encode_refusal (length C.generators) self.delayed input.now (length output.old) ≡ accepted }
        ensures { (result.delayed ≡ delays self.delayed input.now)
            × (output.new ≡ written (encode (outputs C.generators) (number self.delayed) (take 4 input.now)) output.old) }
    {
        if input.len() < 4 {
            return self.encode_each(input, output);
        }
        self.encode_each(&input[..4], output);
        Encoder::from(last_bits(input))
    }

    // The mother code of the input, as many entries for each bit as the code has generators.
    pub fn encode(self, input: &[u8], output: &mut [u8]) -> Coded<Self>
        ensures { Encoded C.generators self.delayed input.now output.old result.outcome result.state.delayed output.new }
    {
        if let Err(refusal) = encode_refusal(C::RATE, self.delayed, input, output.len()) {
            return Coded {
                outcome: Err(refusal),
                state: self,
            };
        }
        let after = self.encode_first(input, output);
        encode_on::<C>(input, output);
        Coded {
            outcome: Ok(()),
            state: after,
        }
    }

    // The same, of an encoder that is lent: the next call goes on from where this one ends.
    pub fn encode_lent(&mut self, input: &[u8], output: &mut [u8]) -> Result<(), Refusal>
        ensures { Encoded C.generators self.old.delayed input.now output.old result self.new.delayed output.new }
    {
        let r = (*self).encode(input, output);
        *self = r.state;
        r.outcome
    }
}

impl Encoder<Control> {
    // The first three generators of the control code, three entries for each bit.
    pub fn encode_rate1_3(self, input: &[u8], output: &mut [u8]) -> Coded<Self>
        ensures { Encoded control_third self.delayed input.now output.old result.outcome result.state.delayed output.new }
    {
        let third: Encoder<ControlThird> = Encoder::from(self.delayed);
        let made = third.encode(input, output);
        Coded {
            outcome: made.outcome,
            state: Encoder::from(made.state.delayed),
        }
    }
}
