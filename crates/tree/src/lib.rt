// Policy texts: the tree that a text builds, its digest, its lines and its branches.
#![tactic(auto)]

pub mod digest;
mod fold;
mod grow;
mod stack;
pub mod summary;

pub use stack::LINE_LIMIT;
