// The Name of a stored value.
pub const NAME_LENGTH: usize = 34;

#[derive(Clone, Copy, Debug, PartialEq, Eq)]
pub struct Name {
    pub bytes: [u8; NAME_LENGTH],
}
