// The chest: a shelf of books, and the opening of a book with a policy session.
#![tactic(auto)]

pub mod book;
mod judge;
pub mod opening;
mod same;
pub mod shelf;
