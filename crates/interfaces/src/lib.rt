// What every part of the chest speaks: response codes, faults, digests, and the interfaces of hash
// and reader state.
#![tactic(auto)]

pub mod buffer;
pub mod byte_array;
pub mod code;
pub mod digest;
pub mod fault;
pub mod hash;
pub mod name;
pub mod pcr;
pub mod state;
