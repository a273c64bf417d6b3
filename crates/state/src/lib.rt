// The reader's own state: PCRs that are extended, values put under Names, and what is set.
#![tactic(auto)]

pub mod entry;
pub mod own;
mod reading;
mod setting;
mod table;
pub mod time;
pub mod values;
