// Byte strings put together: the last block of a message, and the digest.
ghost use Rattle.std.specs.Prelude.{◌≡◌, ◌<◌, length, take};
ghost use Rattle.std.specs.List.{flat_map};
ghost use Rattle.arrays.specs.Items.{items};
ghost use Rattle.sha3.specs.Sha3.{lane_bytes, pad};

use crate::constants::{LANE_BYTES, RATE, State};
use arrays::array_vec::ArrayVec;
use interfaces::digest::DIGEST_LENGTH;

type Block = [u8; RATE];

// The suffix 01 of SHA-3 and the first bit 1 of the padding, from the lowest bit on.
const SUFFIX: u8 = 0x06;

// The last bit 1 of the padding.
const LAST_BIT: u8 = 0x80;

// The rest of a message, which fills no block, padded to one.
pub(crate) fn last_block(rest: &[u8]) -> Block
    requires { length rest.now < 136 }
    ensures { result ≡ pad rest.now }
{
    let n = rest.len();
    let mut block = [0; RATE];
    block[..n].copy_from_slice(rest);
    block[n] = SUFFIX;
    block[RATE - 1] |= LAST_BIT;
    block
}

// The digest: the first lanes of the state, the lowest byte of each first.
pub(crate) fn digest(s: State) -> ArrayVec<u8, DIGEST_LENGTH>
    ensures whole { items result ≡ flat_map lane_bytes (take 4 s) }
    ensures long { length (items result) ≡ 32 }
{
    let mut digest = ArrayVec::new(0);
    for lane in &s[..DIGEST_LENGTH / LANE_BYTES] {
        digest.extend(&lane.to_le_bytes()).unwrap();
    }
    digest
}
