// The hash value, block by block.
ghost use Rattle.std.specs.Prelude.{◌≡◌};
ghost use Rattle.std.proofs.Common.{lit<};
ghost use Rattle.sha256.specs.Sha256.{compress};

use crate::constants::{BLOCK, State};
use crate::rounds::{add_all, all_rounds};
use blocks::TakeBlock;

// What SHA-256 makes of a hash value and a block.
pub(crate) struct Compression;

impl TakeBlock<BLOCK> for Compression {
    type State = State;

    ghost step = { compress };

    fn take_block(h: State, block: &[u8; BLOCK]) -> State {
        add_all(all_rounds(h, block), h)
    }

    ghost some = { lit< tt };

    ghost fits = { lit< tt };
}
