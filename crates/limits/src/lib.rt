// The papers' limits, each named once in code and once in specs/Limits.antt. The crate has no function.
#![tactic(auto)]

// Payload bytes of a frame at most: length byte 255 is reserved.
pub const MAX_PAYLOAD: usize = 254;

// Codewords that the peer holds, and frames of a burst, at most.
pub const MAX_SLOTS: usize = 64;

// Increments of a burst that leaves some unsent, at most.
pub const PARTIAL_MAX: usize = 62;

// Frames that a short ack lists, and so the frames of a burst at a short level at most.
pub const TINY_ACK_FRAMES: usize = 6;

// Bytes in flight at most: 16,256.
pub const MAX_FLYING: u32 = 64 * 254;

// Pieces at most.
pub const MAX_PIECES: usize = 2048;

// Bytes that wait at most.
pub const MAX_WAITING: u32 = 16384;

// Bytes taken at most: 2^32 - 1.
pub const MAX_TAKEN: u32 = 4294967295;

// Bits of a slot or an increment at most, and a mother length at most.
pub const MAX_BITS: u32 = 16384;

// The work area.
pub const AREA_BYTES: usize = 49152;

// Its first part: the flying bytes and then the waiting ones.
pub const STREAM_BYTES: usize = 32768;

// Messages that wait at most, the begun one counted.
pub const MAX_MESSAGES: usize = 256;

// Classes are 0, flash, to this, routine.
pub const MAX_CLASS: u8 = 3;
