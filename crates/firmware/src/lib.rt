// The entries that the C firmware calls: one for each hash, on byte slices, answering numbers.
#![tactic(auto)]

pub mod answer;
pub mod entries;
mod entry;
