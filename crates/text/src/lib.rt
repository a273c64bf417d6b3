// Texts as bytes: cut into lines and fields, digit pairs and decimals read and written.
#![tactic(auto)]

pub mod append;
pub mod cut;
pub mod number;
pub mod pairs;
pub mod word;
pub mod write;
