// Where the parts of a block lie.
ghost use Rattle.std.specs.Prelude.{◌≡◌, ◌<◌};
ghost use Rattle.block.specs.Layout.{entry_at, entry_count};

use interfaces::name::NAME_LENGTH;
use interfaces::state::{PCR_COUNT, PCR_LENGTH, TIME_LENGTH, VALUE_LIMIT};

pub(crate) const COUNT_LENGTH: usize = 8;

pub(crate) const COUNT_AT: usize = PCR_COUNT * PCR_LENGTH;

pub(crate) const TIME_AT: usize = COUNT_AT + COUNT_LENGTH;

pub(crate) const LOCALITY_AT: usize = TIME_AT + TIME_LENGTH;

pub(crate) const PRESENCE_AT: usize = LOCALITY_AT + 1;

pub(crate) const NUMBER_AT: usize = PRESENCE_AT + 1;

pub(crate) const ENTRIES_AT: usize = NUMBER_AT + 1;

pub(crate) const ENTRY_COUNT: usize = 8;

// A Name, the value's length, and the value with what is free behind it.
pub(crate) const ENTRY_LENGTH: usize = NAME_LENGTH + 1 + VALUE_LIMIT;

pub const BLOCK_LENGTH: usize = ENTRIES_AT + ENTRY_COUNT * ENTRY_LENGTH;

pub(crate) fn entry_at(i: usize) -> usize
    requires { i < entry_count }
    ensures { result ≡ entry_at i }
{
    ENTRIES_AT + ENTRY_LENGTH * i
}
