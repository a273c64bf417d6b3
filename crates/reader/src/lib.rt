// The shipped reader: its state, as a reader state with setters.
#![tactic(auto)]

pub mod reader;
mod reading;
mod setting;
#[cfg(test)]
mod tests;
