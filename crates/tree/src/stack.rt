// The stack of trees that a policy text builds, by their digests.
use arrays::array_vec::ArrayVec;
use interfaces::digest::Digest;

pub const LINE_LIMIT: usize = 64;

// The trees' digests, lowest first, and how many `start` lines there were: the number of branches
// of all of them.
#[derive(Drop)]
pub(crate) struct Stack {
    pub(crate) digests: ArrayVec<Digest, LINE_LIMIT>,
    pub(crate) branches: usize,
}
