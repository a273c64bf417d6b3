// The state, block by block.
ghost use Rattle.std.specs.Prelude.{◌≡◌};
ghost use Rattle.std.proofs.Common.{lit<};
ghost use Rattle.sha3.specs.Sha3.{first_lane, added, taken};

use crate::constants::{LANE_BYTES, RATE, State};
use crate::permutation::keccak_f;
use blocks::TakeBlock;

// What SHA3-256 makes of a state and a block.
pub(crate) struct Sponge;

impl TakeBlock<RATE> for Sponge {
    type State = State;

    ghost step = { taken };

    // Inlined, so that its callers share one permutation.
    #[inline(always)]
    fn take_block(s: State, block: &[u8; RATE]) -> State {
        keccak_f(add_lanes(s, block))
    }

    ghost some = { lit< tt };

    ghost fits = { lit< tt };
}

// The state `start` with a block added to it.
fn add_lanes(start: State, block: &[u8; RATE]) -> State
    ensures { result ≡ added 17 start block.now }
{
    let (lanes, _) = block.as_chunks::<LANE_BYTES>();
    let mut s = start;
    for (i, lane) in lanes.iter().enumerate() {
        s[i] ^= lane_of(lane);
    }
    s
}

// The lane of eight bytes, the lowest first.
fn lane_of(bytes: &[u8; LANE_BYTES]) -> u64
    ensures { result ≡ first_lane bytes.now }
{
    u64::from_le_bytes(*bytes)
}
