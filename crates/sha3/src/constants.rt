// The sizes and the constants of SHA3-256.

// The rate, which is the length of a block, in bytes.
pub(crate) const RATE: usize = 136;

pub(crate) const LANE_BYTES: usize = 8;

pub(crate) const LANES: usize = 25;

pub(crate) const PLANE: usize = 5;

pub(crate) const ROUNDS: usize = 24;

pub(crate) type State = [u64; LANES];

pub(crate) static ROUND_CONSTANTS: [u64; ROUNDS] = [
    0x0000000000000001,
    0x0000000000008082,
    0x800000000000808a,
    0x8000000080008000,
    0x000000000000808b,
    0x0000000080000001,
    0x8000000080008081,
    0x8000000000008009,
    0x000000000000008a,
    0x0000000000000088,
    0x0000000080008009,
    0x000000008000000a,
    0x000000008000808b,
    0x800000000000008b,
    0x8000000000008089,
    0x8000000000008003,
    0x8000000000008002,
    0x8000000000000080,
    0x000000000000800a,
    0x800000008000000a,
    0x8000000080008081,
    0x8000000000008080,
    0x0000000080000001,
    0x8000000080008008,
];
