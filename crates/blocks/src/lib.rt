// Messages that a hash function takes in block by block: definitions, their laws, and the loop.
#![tactic(auto)]

mod take_block;

pub use take_block::{TakeBlock, take_blocks};
