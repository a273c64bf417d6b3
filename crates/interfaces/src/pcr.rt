// The value of a PCR.
use crate::byte_array::ByteArray;
use crate::state::PCR_LENGTH;

pub type Pcr = ByteArray<PCR_LENGTH>;
