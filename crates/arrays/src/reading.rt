// An array of items, read.
ghost use Rattle.std.specs.Prelude.{◌≡◌, ◌≤◌, length};
ghost use Rattle.arrays.specs.Items.{items};

use crate::array_vec::ArrayVec;

impl<T, const N: usize> ArrayVec<T, N> {
    pub fn len(&self) -> usize
        ensures value { result ≡ length (items self.now) }
        ensures within { result ≤ N }
    {
        self.len
    }

    pub fn as_slice(&self) -> &[T]
        ensures value { result.now ≡ items self.now }
        ensures within { length result.now ≤ N }
    {
        &self.all[..self.len]
    }
}
