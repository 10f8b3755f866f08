// What a call says, in the form of compare/FORMAT.md.

// A refusal, beside the delays of an encoder, which stay.
fn refused(refusal: u8, delays: u64) -> u64 {
    if refusal == 0 {
        return 0;
    }
    delays | (8 << 32) | ((refusal as u64) << 40)
}

// Of value and disagreements one is always 0, and all are where the call was refused. Only an encoder has delays.
// Stays: the six numbers are what the exported functions say (include/caplattice.h).
pub fn packed(refusal: u8, said: [u64; 6], delays: u64) -> u64 {
    refused(refusal, delays)
        | ((said[1] | said[2]) & 0xffffffff)
        | (said[0] << 32)
        | (said[3] << 40)
}
