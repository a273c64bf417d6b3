// An array of items, made and changed.
ghost use Rattle.std.specs.Prelude.{◌≡◌, [], ◌∷◌, length, take, slice_set};
ghost use Rattle.arrays.specs.Items.{items, Puts};

use crate::array_vec::{ArrayVec, Full};

impl<T: Copy, const N: usize> ArrayVec<T, N> {
    // No items; `filler` stands in the places of those to come.
    pub fn new(filler: T) -> ArrayVec<T, N>
        ensures { items result ≡ [] }
    {
        ArrayVec {
            all: [filler; N],
            len: 0,
        }
    }

    // Puts items behind the last, if there is room for all of them.
    pub fn extend(&mut self, more: &[T]) -> Result<(), Full>
        ensures { Puts N (items self.old) more.now result (items self.new) }
    {
        if more.len() > N - self.len {
            return Err(Full);
        }
        let end = self.len + more.len();
        let all = &mut self.all[..];
        all[self.len..end].copy_from_slice(more);
        self.len = end;
        Ok(())
    }

    // Puts an item behind the last, if there is room.
    pub fn push(&mut self, item: T) -> Result<(), Full>
        ensures { Puts N (items self.old) (item ∷ []) result (items self.new) }
    {
        if self.len >= N {
            return Err(Full);
        }
        self.all[self.len] = item;
        self.len += 1;
        Ok(())
    }

    // Puts an item in the place of another; where there is none, nothing changes.
    pub fn set(&mut self, at: usize, item: T)
        ensures { items self.new ≡ slice_set (items self.old) at item }
    {
        if at < self.len {
            self.all[at] = item;
        }
    }

    // Lets go of all but the first `len` items.
    pub fn truncate(&mut self, len: usize)
        ensures { items self.new ≡ take len (items self.old) }
    {
        if len < self.len {
            self.len = len;
        }
    }
}
