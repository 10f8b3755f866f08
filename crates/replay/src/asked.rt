// A request put to the exported function that it names.
use super::head::Request;
use caplattice::{chains, coding, leaves};

// The source holds the mother word and then the depunctured one.
fn comparing(n: usize, source: &[u8], said: &mut [u64; 6]) -> u8 {
    if n <= source.len() {
        return coding::caplattice_mother_memcmp(&source[..n], &source[n..], said);
    }
    0
}

// The number of the refusal, or 0; the rest of the answer goes into said, which has the form that the exported functions ask.
pub fn refusal(
    a: Request,
    source: &[u8],
    target: &mut [u8],
    trellis: &mut [u16],
    said: &mut [u64; 6],
) -> u8 {
    // Stays: the numbers are those of compare/FORMAT.md; an enum of 34 names would only say each function's name once more.
    match a.entry {
        0 => leaves::caplattice_crc16_itut_bits(a.half, source, a.second_size, said),
        1 => leaves::caplattice_crc16_itut_bytes(a.half, source, a.second_size, said),
        2 => leaves::caplattice_crc16_ccitt_bits(source, a.size, said),
        3 => leaves::caplattice_tetra_scramb_get_bits(a.word, target),
        4 => leaves::caplattice_tetra_scramb_bits(a.word, target),
        5 => leaves::caplattice_tetra_descramb_bits(a.word, target),
        6 => leaves::caplattice_tetra_scramb_get_init(a.half, a.second_half, a.third, said),
        7 => leaves::caplattice_block_interleave(a.size, a.second_size, source, target),
        8 => leaves::caplattice_block_deinterleave(a.size, a.second_size, source, target),
        9 => leaves::caplattice_matrix_interleave(a.size, a.second_size, source, target),
        10 => leaves::caplattice_matrix_deinterleave(a.size, a.second_size, source, target),
        11 => leaves::caplattice_tetra_rm3014_compute(a.half, said),
        12 => leaves::caplattice_tetra_rm3014_decode_naive(a.word, said),
        13 => leaves::caplattice_compute_syndrome(a.word, said),
        14 => leaves::caplattice_tetra_rm3014_decode_limited_ecc(a.word, said),
        15 => leaves::caplattice_codec_to_channel(source, target),
        16 => leaves::caplattice_channel_to_codec(source, target),
        17 => coding::caplattice_encode(a.word, source, target, said),
        18 => coding::caplattice_encode_rate1_3(a.word, source, target, said),
        19 => coding::caplattice_encode_speech(a.word, source, target, said),
        20 => coding::caplattice_get_punctured_rate(a.kind, source, a.second_size, target),
        21 => coding::caplattice_tetra_rcpc_depunct(a.kind, source, a.second_size, target),
        22 => comparing(a.size, source, said),
        23 => coding::caplattice_dec_sb1(source, target, a.size, trellis, said),
        24 => coding::caplattice_dec_speech(source, target, a.size, trellis, said),
        25 => leaves::caplattice_speech_crc(source, target),
        26 => chains::caplattice_encode_cp(a.kind, a.second_word, source, target),
        27 => chains::caplattice_decode_cp(a.kind, a.second_word, source, target, trellis, said),
        28 => chains::caplattice_encode_tp(a.word, source, target),
        29 => chains::caplattice_encode_tp_half(a.word, source, target),
        30 => chains::caplattice_decode_tp(a.word, source, target, trellis, said),
        31 => chains::caplattice_decode_tp_half(a.word, source, target, trellis, said),
        32 => chains::caplattice_encode_aach(a.word, source, target),
        // 33: no entry has a greater number.
        _ => chains::caplattice_decode_aach(a.word, source, said),
    }
}
