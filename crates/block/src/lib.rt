// A reader state read in place from a block of 1,596 bytes.
#![tactic(auto)]

pub mod block;
mod judging;
mod layout;
mod reading;

pub use layout::BLOCK_LENGTH;
