// Shared among our own crates: this asks something of its caller.
ghost use Rattle.std.specs.Prelude.{◌≡◌, ◌≤◌, length};
ghost use Rattle.base.specs.Places.{written};
ghost use Rattle.crc16.specs.Crc.{check};

// The 16 check bits of the entries, over the front of target.
pub fn write_check(input: &[u8], target: &mut [u8])
    requires { 16 ≤ length target.old }
    ensures { target.new ≡ written (check input.now) target.old }
{
    let complement = 0xffff - crate::crc16_ccitt_bits(input, input.len());
    for i in 0..16 {
        target[i] = ((complement >> (15 - i)) % 2) as u8;
    }
}
