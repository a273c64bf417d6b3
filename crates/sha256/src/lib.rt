// SHA-256 after FIPS 180-4, as an implementation of the hash interface.
#![tactic(auto)]

mod compression;
mod constants;
mod functions;
mod hash;
mod message;
mod rounds;
mod schedule;

pub use hash::Sha256;
