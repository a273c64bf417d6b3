// What digesting a policy text answers.
#[derive(Clone, Copy, Debug, PartialEq, Eq)]
pub struct Summary {
    pub lines: usize,
    pub branches: usize,
}
