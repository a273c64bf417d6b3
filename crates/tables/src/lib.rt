// Small tables of values under keys, which own state, block and forecast share.
#![tactic(auto)]

pub mod put;
