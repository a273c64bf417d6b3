// What an assertion asks of a reader state: PCRs that hash to a digest, and comparisons.
#![tactic(auto)]

mod compare;
pub mod meet;
mod picked;
