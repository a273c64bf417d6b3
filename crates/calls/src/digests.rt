// The digests of an `or`: two to eight.
ghost use Rattle.std.specs.Prelude.{◌≤◌, length};
ghost use Rattle.arrays.specs.Items.{items};
ghost use Rattle.calls.specs.Limits.{fewest_digests};

use arrays::array_vec::ArrayVec;
use interfaces::digest::Digest;

pub const FEWEST_DIGESTS: usize = 2;

pub const MOST_DIGESTS: usize = 8;

#[derive(Clone, Copy)]
pub struct Digests {
    pub(crate) digests: ArrayVec<Digest, MOST_DIGESTS>,
    ghost some: { fewest_digests ≤ length (items digests) },
}
