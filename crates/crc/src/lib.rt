// The checksum's register over either polynomial: its definition (specs/Crc.antt) and the laws that every fast way to
// compute it rests on (proofs/), each proved once over the polynomial.
//
// No function is here: `crc_short` and `crc_sliced` step the register, and `checksum` has the calls for users.
#![tactic(auto)]

// Which checksum: CRC-32 or CRC-32C.
#[derive(Clone, Copy)]
pub enum Polynomial {
    Ieee,
    Castagnoli,
}

// Four registers whose bytes are interleaved, eight bytes each.
#[derive(Clone, Copy)]
pub struct Lanes {
    pub first: u32,
    pub second: u32,
    pub third: u32,
    pub fourth: u32,
}
