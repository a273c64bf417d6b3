// The time info: time, clock, reset count, restart count and the safe flag.
use interfaces::byte_array::ByteArray;
use interfaces::state::TIME_LENGTH;

pub type TimeInfo = ByteArray<TIME_LENGTH>;
