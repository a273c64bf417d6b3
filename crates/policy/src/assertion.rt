// An assertion whose fields have passed their checks.
use crate::operand::Operand;
use crate::operation::Operation;
use interfaces::digest::Digest;
pub use interfaces::name::{NAME_LENGTH, Name};

pub const SELECTION_LENGTH: usize = 3;

// The PCRs that are picked: bit i of byte j picks PCR 8 * j + i.
#[derive(Clone, Copy, Debug, PartialEq, Eq)]
pub struct Selection {
    pub bytes: [u8; SELECTION_LENGTH],
}

// A comparison as it is given, before its checks.
#[derive(Clone, Copy)]
pub struct GivenComparison<'a> {
    pub operand: &'a [u8],
    pub offset: u16,
    pub operation: u16,
}

#[derive(Clone, Copy)]
pub struct Comparison {
    pub operand: Operand,
    pub offset: u16,
    pub operation: Operation,
}

#[derive(Clone, Copy)]
pub enum Assertion {
    Pcr(Selection, Digest),
    Nv(Name, Comparison),
    Time(Comparison),
    // A byte with a bit for each locality of the set.
    Locality(u8),
    Command(u32),
    Presence,
    Password,
}
