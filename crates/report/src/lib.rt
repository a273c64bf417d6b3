// What the programs print, made as bytes.
#![tactic(auto)]

mod book_file;
pub mod digest;
pub mod opening;
mod pieces;
pub mod report;
pub mod run;
pub mod state;
