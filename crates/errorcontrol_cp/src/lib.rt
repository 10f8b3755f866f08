// The control channels' send and receive chains: data to air symbols and back, for the four kinds of block.
// Ported from lmac/components/errorcontrol.rs (encode_cp, decode_cp); changed: a kind stands for the logical channel, the
// start value is always the caller's, erasures are received, and the whole decoded word is written with its count of
// disagreements. A caller gets the word whose sending is nearest to what was received, and whether its check agrees.
#![tactic(auto)]

ghost use Rattle.std.specs.Prelude.{◌≡◌, true, false, not, ◌+◌, ◌*◌, ◌≤◌, eqb, length, replicate, MatchResult, ltb};
ghost use Rattle.base.specs.Refusal.{BIT, ROOM, accepted, when, sized, checked};
ghost use Rattle.base.specs.Bits.{bits_only};
ghost use Rattle.trellis.specs.Nearest.{encode};
ghost use Rattle.crc16.specs.Crc.{register, OK};
ghost use Rattle.convenc.specs.Generators.{control, outputs};
ghost use Rattle.puncturing.specs.Puncturing.{needed};
ghost use Rattle.interleaver.specs.Interleaving.{shared};
ghost use Rattle.errorcontrol_cp.specs.private.Kinds.{Numbers, IsUnknown};
ghost use Rattle.errorcontrol_cp.specs.private.Blocks.{sent_by, mother_by, Settles};
ghost use Rattle.errorcontrol_cp.specs.Sending.{word_of, Sends};
ghost use Rattle.errorcontrol_cp.specs.Receiving.{Receives};

use base::{Counts, Received, Refusal};
use stages::inner::Block;

// Puncturing mode 2_3. Stays: a mode is the number that puncturing looks its tables up by (docs/DECISIONS.md, "puncturing mode and kind").
const MODE: u8 = 0;

// A control kind's counts: data bits, word bits, air symbols, and the interleaver's step.
#[derive(Clone, Copy)]
struct Params {
    block: usize,
    word: usize,
    air: usize,
    step: usize,
    // Data, 16 check bits and 4 zeros.
    ghost tail: { word ≡ block + 20 },
    ghost most: { block ≤ 268 },
    ghost few: { air ≤ 432 },
    ghost small: { step ≤ 65535 },
    ghost alone: { shared air step ≡ false },
    ghost reach: { needed 0 air ≤ 4 * word },
}

// EN 300 392-2, 8.3.1, by kind.
// Stays: `encode_cp` and `decode_cp` take a kind as a number, and C calls them; past this no number stands for it.
#[tactic(auto, unfolding(interleaver::specs::Interleaving::shared, puncturing::specs::Puncturing::needed, puncturing::specs::Puncturing::position, crate::specs::Kinds::is_kind, crate::specs::Kinds::data_bits, crate::specs::Kinds::word_bits, crate::specs::Kinds::air_symbols, crate::specs::Kinds::interleaver_step))]
fn get_params(kind: u8) -> Result<Params, Refusal>
    ensures { MatchResult result (λ p. Numbers kind p.block p.word p.air p.step) (IsUnknown kind) }
{
    match kind {
        1 => Ok(Params {
            block: 60,
            word: 80,
            air: 120,
            step: 11,
        }),
        2 => Ok(Params {
            block: 92,
            word: 112,
            air: 168,
            step: 13,
        }),
        3 => Ok(Params {
            block: 124,
            word: 144,
            air: 216,
            step: 101,
        }),
        4 => Ok(Params {
            block: 268,
            word: 288,
            air: 432,
            step: 103,
        }),
        _ => Err(Refusal::Kind),
    }
}

// The word of data over a target of zeros: data, check, and four of the zeros.
fn write_word(data: &[u8], word: &mut [u8])
    requires { word.old ≡ replicate (length «data».now + 20) 0 }
    ensures { word.new ≡ word_of «data».now }
{
    let count = data.len();
    word[..count].copy_from_slice(data);
    crc16::inner::write_check(data, &mut word[count..]);
}

// The mother code of the data's word, over the whole target.
fn encode_word(data: &[u8], mother: &mut [u8])
    requires { (length «data».now ≤ 268) × (bits_only (length «data».now) «data».now ≡ true) × (length mother.old ≡ 4 * (length «data».now + 20)) }
    ensures { mother.new ≡ encode (outputs control) 0 (word_of «data».now) }
{
    let mut word = [0u8; 288];
    let n = data.len() + 20;
    write_word(data, &mut word[..n]);
    convenc::ConvEncState::new().encode(&word[..n], mother);
}

// What the register over data and check says.
fn judge(bits: &[u8], disagreements: usize) -> Received
    ensures { result ≡ checked (eqb (register 0xffff bits.now) OK) (record { disagreements = disagreements }) }
{
    let counts = Counts { disagreements };
    if crc16::crc16_ccitt_bits(bits, bits.len()) == crc16::TETRA_CRC_OK {
        Received::Good(counts)
    } else {
        Received::Bad(counts)
    }
}

impl Params {
    // How a block goes onto the air and comes off it.
    fn on_air(self, start: u32) -> Block
        ensures { (result.mode ≡ 0) × (result.count ≡ self.air) × (result.step ≡ self.step) × (result.start ≡ start) }
    {
        Block {
            mode: MODE,
            count: self.air,
            step: self.step,
            start,
        }
    }

    #[tactic(auto, using(base::proofs::BitLaws::bits_only_whole))]
    fn send_refusal(self, data: &[u8], air: usize) -> Result<(), Refusal>
        ensures { result ≡ sized (length «data».now) self.block air self.air (when (not (bits_only self.block «data».now)) BIT accepted) }
    {
        base::inner::sized(data.len(), self.block, air, self.air)?;
        if base::inner::bits_only(&data[..self.block]) {
            return Ok(());
        }
        Err(Refusal::Bit)
    }

    // The air symbols of the data's word, over the whole target.
    fn send(self, start: u32, data: &[u8], air: &mut [u8])
        requires { (length «data».now ≡ self.block) × (bits_only (length «data».now) «data».now ≡ true) × (length air.old ≡ self.air) }
        ensures { air.new ≡ sent_by self.air self.step start (word_of «data».now) }
    {
        let symbols = 4 * self.word;
        let mut mother = [0u8; 1152];
        encode_word(data, &mut mother[..symbols]);
        self.on_air(start).put_on_air(&mother[..symbols], air);
    }

    fn receive_refusal(self, air: usize, word: usize, trellis: usize) -> Result<(), Refusal>
        ensures { result ≡ sized air self.air word self.word (when (ltb trellis self.word) ROOM accepted) }
    {
        base::inner::sized(air, self.air, word, self.word)?;
        if trellis < self.word {
            return Err(Refusal::Room);
        }
        Ok(())
    }

    // The nearest word to the air symbols, over the front of the target, and what its check says.
    fn receive(self, start: u32, air: &[u8], word: &mut [u8], trellis: &mut [u16]) -> Received
        requires { (self.air ≤ length air.now) × (self.word ≤ length word.old) × (self.word ≤ length trellis.old) }
        ensures { Settles self.block self.word (mother_by self.word self.air self.step start air.now) word.old trellis.old result word.new trellis.new }
    {
        let symbols = 4 * self.word;
        let mut mother = [0xffu8; 1152];
        self.on_air(start).take_off_air(air, &mut mother[..symbols]);
        let disagreements = viterbi::inner::control(&mother[..symbols], word, self.word, trellis);
        judge(&word[..self.block + 16], disagreements)
    }
}

// Sends a data block as the air symbols of its kind, scrambled from start. Refusals: KIND, SHORT, ROOM, BIT.
pub fn encode_cp(kind: u8, start: u32, data: &[u8], air: &mut [u8]) -> Result<(), Refusal>
    ensures { Sends kind start «data».now air.old result air.new }
{
    let params = get_params(kind)?;
    params.send_refusal(data, air.len())?;
    params.send(start, &data[..params.block], &mut air[..params.air]);
    Ok(())
}

// Receives the air symbols of a block of its kind, scrambled from start: the whole decoded word, Good or Bad, with its
// disagreements. The trellis is work space, as long as the word, and is zero afterwards. Refusals: KIND, SHORT, ROOM.
pub fn decode_cp(
    kind: u8,
    start: u32,
    air: &[u8],
    word: &mut [u8],
    trellis: &mut [u16],
) -> Result<Received, Refusal>
    ensures { Receives kind start air.now word.old trellis.old result word.new trellis.new }
{
    let params = get_params(kind)?;
    params.receive_refusal(air.len(), word.len(), trellis.len())?;
    Ok(params.receive(start, air, word, trellis))
}
