// What a policy can assert: lines read and judged, and the strings hashed for them.
#![tactic(auto)]

pub mod assertion;
pub mod commands;
mod compare;
pub mod extend;
pub mod line;
pub mod operand;
pub mod operation;
pub mod read;
