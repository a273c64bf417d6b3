// A reader state over any other, in which some PCRs have planned values.
#![tactic(auto)]

mod calls;
pub mod forecast;
pub mod planned;
mod reading;
