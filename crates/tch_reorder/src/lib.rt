// The speech bits between the codec's order and the channel's, by sensitivity class (EN 300 395-2, table 4).
// Ported from lmac/components/tch_reorder.rs; changed: slices are lent, too few entries are refused, the class tables are one.
// A caller gets the 274 entries of its target, or a refusal and the target as it was.
#![tactic(auto)]

ghost use Rattle.std.specs.Prelude.{◌≡◌, ◌≤◌, length};
ghost use Rattle.base.specs.Refusal.{Leaves};
ghost use Rattle.base.specs.Places.{written};
ghost use Rattle.tch_reorder.specs.Order.{reorder_refusal, channel_of, codec_of};

mod classes;

use base::Refusal;
use classes::CLASS_POS;

// For each position in table order subframe 0's entry, then subframe 1's.
fn to_channel(codec: &[u8], channel: &mut [u8])
    requires { (274 ≤ length codec.now) × (274 ≤ length channel.old) }
    ensures { channel.new ≡ written (channel_of codec.now) channel.old }
{
    for (i, position) in CLASS_POS.iter().enumerate() {
        let at = *position as usize - 1;
        channel[2 * i] = codec[at];
        channel[2 * i + 1] = codec[137 + at];
    }
}

fn to_codec(channel: &[u8], codec: &mut [u8])
    requires { (274 ≤ length channel.now) × (274 ≤ length codec.old) }
    ensures { codec.new ≡ codec_of channel.now codec.old }
{
    for (j, position) in CLASS_POS.iter().enumerate() {
        let at = *position as usize - 1;
        codec[at] = channel[2 * j];
        codec[137 + at] = channel[2 * j + 1];
    }
}

// The 274 entries of a speech frame, put from codec order into channel order.
pub fn codec_to_channel(codec: &[u8], channel: &mut [u8]) -> Result<(), Refusal>
    ensures { Leaves (reorder_refusal (length codec.now) (length channel.old))
        (written (channel_of codec.now) channel.old) channel.old channel.new result }
{
    base::inner::sized(codec.len(), 274, channel.len(), 274)?;
    to_channel(codec, channel);
    Ok(())
}

// The 274 entries of a speech frame, put from channel order into codec order.
pub fn channel_to_codec(channel: &[u8], codec: &mut [u8]) -> Result<(), Refusal>
    ensures { Leaves (reorder_refusal (length channel.now) (length codec.old))
        (codec_of channel.now codec.old) codec.old codec.new result }
{
    base::inner::sized(channel.len(), 274, codec.len(), 274)?;
    to_codec(channel, codec);
    Ok(())
}
