// A state block, judged when it is taken as a state.
ghost use Rattle.std.specs.Prelude.{◌≡◌, ℕ, ◌<◌, true, length, slice_index};
ghost use Rattle.block.specs.Layout.{block_length, in_range};

use crate::layout::BLOCK_LENGTH;

#[derive(Clone, Copy)]
pub struct Block<'a> {
    pub(crate) bytes: &'a [u8; BLOCK_LENGTH],
    ghost long: { length bytes.now ≡ block_length },
    ghost sound: { in_range bytes.now ≡ true },
    ghost small: { (k : ℕ) → slice_index bytes.now k < 256 },
}
