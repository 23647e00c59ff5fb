// The ten header values: the one place that names them.

// Headers of an invoke.
pub const DEST_FLAGS: u32 = 0xe352035e;

pub const DEST_ACTOR: u32 = 0x7568aabd;

pub const DEST_ACTOR_FLAGS: u32 = 0xf0a5acf7;

pub const DIAGONAL: u32 = 0xbceb94c3;

pub const DIAGONAL_TARGETS: u32 = 0xee090e42;

pub const TL2_MARKER: u32 = 0x29324c54;

// What stands before a mask or an error inside a result.
pub const REQ_RESULT_HEADER: u32 = 0x8cc84ce1;

pub const REQ_ERROR: u32 = 0xb527877d;

pub const WRAPPED_ERROR: u32 = 0x7ae432f6;

pub const NUMBERED_ERROR: u32 = 0x7ae432f5;
