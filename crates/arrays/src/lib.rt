// Items in place: up to a number that the type fixes, with no memory taken.
#![tactic(auto)]

pub mod array_vec;
mod reading;
mod writing;
