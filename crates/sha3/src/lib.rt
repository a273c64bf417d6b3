// SHA3-256 after FIPS 202, as an implementation of the hash interface.
#![tactic(auto)]

mod constants;
mod hash;
mod message;
mod permutation;
mod sponge;
mod steps;

pub use hash::Sha3;
