// The values that the reader holds, each under a Name of its own.
ghost use Rattle.std.specs.Prelude.{◌≡◌, true};
ghost use Rattle.std.specs.Str.{bytes_eq};
ghost use Rattle.arrays.specs.Items.{items};
ghost use Rattle.state.specs.Entries.{held_among};
ghost use Rattle.tables.specs.Tables.{distinct};

use crate::entry::Entry;
use arrays::array_vec::ArrayVec;

pub const VALUE_COUNT: usize = 8;

#[derive(Drop)]
pub struct Values {
    pub(crate) entries: ArrayVec<Entry, VALUE_COUNT>,
    ghost once: { distinct bytes_eq (held_among (items entries)) ≡ true },
}
