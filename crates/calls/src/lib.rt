// Policy calls: made from their fields, or read from the lines of a run.
#![tactic(auto)]

pub mod call;
pub mod digests;
pub mod line;
pub mod make;
mod read_or;
