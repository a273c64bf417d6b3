// Up to `N` items in an array of `N`.
ghost use Rattle.std.specs.Prelude.{◌≡◌, ◌≤◌, ⊤, length};

use std::alloc::AllocError;

// Like the library's `ArrayVec`, but `Copy` where its items are, as the values of a policy are.
#[derive(Drop)]
pub struct ArrayVec<T, const N: usize> {
    pub(crate) all: [T; N],
    pub(crate) len: usize,
    ghost long: { length all ≡ N },
    ghost within: { len ≤ N },
}

impl<T: Copy, const N: usize> Clone for ArrayVec<T, N> {
    ghost is_clone = { λ x y. y ≡ x };

    ghost is_infallible = { λ _. ⊤ };

    fn clone(&self) -> Result<ArrayVec<T, N>, AllocError> {
        Ok(*self)
    }
}

impl<T: Copy, const N: usize> Copy for ArrayVec<T, N> {}

// There is no room for all that was to be put.
#[derive(Clone, Copy, Debug, PartialEq, Eq)]
pub struct Full;
