// The speech slot's send and receive chains: 274 codec bits to 432 air symbols and back, whole or second half.
// Ported from lmac/components/errorcontrol.rs (encode_tp, decode_tp); changed: slices of any length, erasures, second-half receive,
// a count of disagreements and refusals. A caller gets the codec bits that the nearest word and the uncoded places hold.
#![tactic(auto)]

ghost use Rattle.std.specs.Prelude.{◌≡◌, true, ◌≤◌, length, take, drop, replicate};
ghost use mathlib.Core.List.{◌++◌, map};
ghost use Rattle.base.specs.Refusal.{checked};
ghost use Rattle.base.specs.Bits.{Bits, bits_only};
ghost use Rattle.tch_reorder.specs.Order.{channel_of, codec_of};
ghost use Rattle.speech_crc.specs.Check.{speech_check};
ghost use Rattle.trellis.specs.Nearest.{encode};
ghost use Rattle.convenc.specs.Generators.{outputs, speech};
ghost use Rattle.puncturing.specs.Puncturing.{punctured};
ghost use Rattle.errorcontrol_tp.specs.Sending.{send_refusal, on_air, slot, Sends};
ghost use Rattle.errorcontrol_tp.specs.Receiving.{receive_refusal, block_of, mother_of, read_bit, good, Receives};
ghost use Rattle.errorcontrol_tp.specs.private.Settling.{HeardOf};

use base::inner::sized;
use base::{Counts, Received, Refusal};
use stages::inner::Matrix;

// The puncturing modes of the two classes, 112_168 and 72_162.
// Stays: a mode is the number that puncturing looks its tables up by (docs/DECISIONS.md, "puncturing mode and kind").
const CLASS1: u8 = 4;

const CLASS2: u8 = 5;

// ---- sending

// Stays: the tests of `sized`, written out: behind its `?` it was not proved that 274 entries are there.
fn send_refusal(count: usize, codec: &[u8], air: usize) -> Result<(), Refusal>
    ensures { result ≡ send_refusal count codec.now air }
{
    if codec.len() < 274 {
        return Err(Refusal::Short);
    }
    if air < count {
        return Err(Refusal::Room);
    }
    if !base::inner::bits_only(&codec[..274]) {
        return Err(Refusal::Bit);
    }
    Ok(())
}

// The codec bits in channel order.
fn channel_bits(codec: &[u8]) -> [u8; 274]
    requires { 274 ≤ length codec.now }
    ensures { result ≡ channel_of codec.now }
{
    let mut channel = [0u8; 274];
    tch_reorder::codec_to_channel(codec, &mut channel).unwrap();
    channel
}

// Class 2 as the encoder takes it: 60 bits, their check, four zeros.
fn class2_bits(channel: [u8; 274]) -> [u8; 72]
    ensures { result ≡ take 60 (drop 214 channel) ++ speech_check (take 60 (drop 214 channel)) ++ replicate 4 0 }
{
    let mut word = [0u8; 72];
    word[0..60].copy_from_slice(&channel[214..274]);
    speech_crc::speech_crc(&channel[214..274], &mut word[60..68]).unwrap();
    word
}

// The mother code of a slot's word: the outputs of its first 112 bits, and those of the other 72.
#[derive(Drop)]
struct Mothers {
    first: [u8; 336],
    second: [u8; 216],
}

// Both classes by one encoder, lent to two calls and not reset between them.
fn encode_word(channel: [u8; 274], class2: [u8; 72]) -> Mothers
    requires { Bits channel × Bits class2 }
    ensures { result.first ++ result.second ≡ encode (outputs speech) 0 (take 112 (drop 102 channel) ++ class2) }
{
    let mut first = [0u8; 336];
    let mut second = [0u8; 216];
    convenc::inner::encode_both(&channel[102..214], &class2, &mut first, &mut second);
    Mothers { first, second }
}

// The block that is sent: uncoded bits, then what the two modes keep of the mother code.
fn block_bits(channel: [u8; 274], mothers: Mothers) -> [u8; 432]
    ensures { result ≡ take 102 channel ++ (punctured 4 168 mothers.first ++ punctured 5 162 mothers.second) }
{
    let mut block = [0u8; 432];
    block[0..102].copy_from_slice(&channel[0..102]);
    stages::inner::puncture(CLASS1, &mothers.first, &mut block[102..270]);
    stages::inner::puncture(CLASS2, &mothers.second, &mut block[270..432]);
    block
}

// Stays: put_on_air and take_off_air are apart, since each calls its own method of the matrix, the other's inverse; each writes the
// matrix out, since the prover then knows its sides as numbers.
// A block through the matrix of 24 lines and 18 columns, scrambled.
fn put_on_air(start: u32, block: [u8; 432]) -> [u8; 432]
    requires { Bits block }
    ensures { result ≡ on_air start block }
{
    let matrix = Matrix {
        lines: 24,
        columns: 18,
        start,
    };
    let mut air = [0u8; 432];
    matrix.put_on_air(&block, &mut air);
    air
}

// The slot that codec bits are sent as.
fn send(start: u32, codec: &[u8]) -> [u8; 432]
    requires { (274 ≤ length codec.now) × (bits_only 274 codec.now ≡ true) }
    ensures { result ≡ slot start codec.now }
{
    let channel = channel_bits(codec);
    let mothers = encode_word(channel, class2_bits(channel));
    put_on_air(start, block_bits(channel, mothers))
}

// The last symbols of a slot, so many. SHORT, ROOM, BIT.
fn send_last(count: usize, start: u32, codec: &[u8], air: &mut [u8]) -> Result<(), Refusal>
    requires { (216 ≤ count) × (count ≤ 432) }
    ensures { Sends count start codec.now air.old result air.new }
{
    send_refusal(count, codec, air.len())?;
    let symbols = send(start, codec);
    air[..count].copy_from_slice(&symbols[432 - count..]);
    Ok(())
}

// Stays: encode_tp and encode_tp_half are two entries over one routine, and so are decode_tp and decode_tp_half: the C interface has each.
// Sends a whole slot: 274 codec bits as 432 air symbols. SHORT, ROOM, BIT.
pub fn encode_tp(start: u32, codec: &[u8], air: &mut [u8]) -> Result<(), Refusal>
    ensures { Sends 432 start codec.now air.old result air.new }
{
    send_last(432, start, codec, air)
}

// Sends the second half of a slot: its entries 217 to 432. SHORT, ROOM, BIT.
pub fn encode_tp_half(start: u32, codec: &[u8], air: &mut [u8]) -> Result<(), Refusal>
    ensures { Sends 216 start codec.now air.old result air.new }
{
    send_last(216, start, codec, air)
}

// ---- receiving

fn receive_refusal(count: usize, air: usize, codec: usize, trellis: usize) -> Result<(), Refusal>
    ensures { result ≡ receive_refusal count air codec trellis }
{
    sized(air, count, codec, 274)?;
    if trellis < 184 {
        return Err(Refusal::Room);
    }
    Ok(())
}

// The block that came: descrambled and out of the matrix.
fn take_off_air(start: u32, air: &[u8; 432], block: &mut [u8; 432])
    ensures { block.new ≡ block_of start air.now }
{
    let matrix = Matrix {
        lines: 24,
        columns: 18,
        start,
    };
    matrix.take_off_air(air, block);
}

// The mother symbols of a received block, unkept places erased.
fn mother_symbols(block: &[u8; 432], mother: &mut [u8; 552])
    ensures { mother.new ≡ mother_of block.now }
{
    *mother = [0xffu8; 552];
    stages::inner::depuncture(CLASS1, &block[102..270], &mut mother[0..336]);
    stages::inner::depuncture(CLASS2, &block[270..432], &mut mother[336..552]);
}

// An erased bit reads 0.
fn read_bit(symbol: u8) -> u8
    ensures { result ≡ read_bit symbol }
{
    u8::from(symbol == 1)
}

// The uncoded bits of a block.
fn uncoded_bits(block: &[u8; 432]) -> [u8; 102]
    ensures { result ≡ map read_bit (take 102 block.now) }
{
    let mut bits = [0u8; 102];
    for (i, bit) in bits.iter_mut().enumerate() {
        *bit = read_bit(block[i]);
    }
    bits
}

// The word that is nearest to a received block, and how many of the block's symbols disagree with it.
#[derive(Clone, Copy)]
struct Heard {
    word: [u8; 184],
    disagreements: usize,
}

// The nearest word to a block.
fn hear(block: &[u8; 432], trellis: &mut [u16]) -> Heard
    requires { 184 ≤ length trellis.old }
    ensures { HeardOf block.now trellis.old trellis.new result }
{
    let mut mother = [0u8; 552];
    mother_symbols(block, &mut mother);
    let mut heard = Heard {
        word: [0u8; 184],
        disagreements: 0,
    };
    heard.disagreements = viterbi::inner::speech(&mother, &mut heard.word, 184, trellis);
    heard
}

impl Heard {
    // The channel frame: the uncoded bits of the block, then the decoded ones of both classes.
    fn channel(&self, block: &[u8; 432]) -> [u8; 274]
        ensures { result ≡ map read_bit (take 102 block.now) ++ take 172 self.now.word }
    {
        let bits = uncoded_bits(block);
        let mut channel = [0u8; 274];
        channel[0..102].copy_from_slice(&bits);
        channel[102..274].copy_from_slice(&self.word[0..172]);
        channel
    }

    // Whether the decoded check is the check of the decoded class 2.
    fn judge(&self) -> Received
        ensures { result ≡ checked (good self.now.word) (record { disagreements = self.now.disagreements }) }
    {
        let counts = Counts {
            disagreements: self.disagreements,
        };
        let mut check = [0u8; 8];
        speech_crc::speech_crc(&self.word[112..172], &mut check).unwrap();
        if self.word[172..180] == check[..] {
            Received::Good(counts)
        } else {
            Received::Bad(counts)
        }
    }

    // The codec bits that the word and the block's uncoded places hold, over the front of the target, and what the word's check says.
    fn deliver(&self, block: &[u8; 432], codec: &mut [u8]) -> Received
        requires { 274 ≤ length codec.old }
        ensures { (result ≡ checked (good self.now.word) (record { disagreements = self.now.disagreements }))
            × (codec.new ≡ codec_of (map read_bit (take 102 block.now) ++ take 172 self.now.word) codec.old) }
    {
        let channel = self.channel(block);
        tch_reorder::channel_to_codec(&channel, codec).unwrap();
        self.judge()
    }
}

// Receives the last symbols of a slot, so many: erasures are supplied before them. SHORT, ROOM.
fn receive_last(
    count: usize,
    start: u32,
    air: &[u8],
    codec: &mut [u8],
    trellis: &mut [u16],
) -> Result<Received, Refusal>
    requires { count ≤ 432 }
    ensures { Receives count start air.now codec.old trellis.old result codec.new trellis.new }
{
    receive_refusal(count, air.len(), codec.len(), trellis.len())?;
    let mut symbols = [0xffu8; 432];
    symbols[432 - count..].copy_from_slice(&air[..count]);
    let mut block = [0u8; 432];
    take_off_air(start, &symbols, &mut block);
    let heard = hear(&block, trellis);
    Ok(heard.deliver(&block, codec))
}

// Receives a whole slot: 432 symbols into 274 codec bits, with the verdict and the disagreements. SHORT, ROOM.
pub fn decode_tp(
    start: u32,
    air: &[u8],
    codec: &mut [u8],
    trellis: &mut [u16],
) -> Result<Received, Refusal>
    ensures { Receives 432 start air.now codec.old trellis.old result codec.new trellis.new }
{
    receive_last(432, start, air, codec, trellis)
}

// Receives a second half alone: 216 erasures are supplied before its 216 symbols. SHORT, ROOM.
pub fn decode_tp_half(
    start: u32,
    air: &[u8],
    codec: &mut [u8],
    trellis: &mut [u16],
) -> Result<Received, Refusal>
    ensures { Receives 216 start air.now codec.old trellis.old result codec.new trellis.new }
{
    receive_last(216, start, air, codec, trellis)
}
