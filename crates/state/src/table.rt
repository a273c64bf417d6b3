// The table of values: looked up and put by Name.
ghost use Rattle.std.specs.Prelude.{◌≡◌, [], position};
ghost use Rattle.std.specs.Str.{bytes_eq};
ghost use Rattle.arrays.specs.Items.{items};
ghost use Rattle.interfaces.specs.Checks.{refused_with, settled};
ghost use Rattle.state.specs.Entries.{value_bytes, value_count};
ghost use Rattle.tables.specs.Tables.{full_flaw, put_under};
ghost use Rattle.state.specs.Views.{held};

use crate::entry::{Entry, StoredValue};
use crate::values::Values;
use arrays::array_vec::ArrayVec;
use interfaces::code::Code;
use interfaces::name::{NAME_LENGTH, Name};
use tables::put::put;

fn empty_entry() -> Entry {
    Entry {
        name: Name {
            bytes: [0; NAME_LENGTH],
        },
        value: StoredValue {
            bytes: ArrayVec::new(0),
        },
    }
}

impl Values {
    pub(crate) fn new() -> Values
        ensures { held result ≡ [] }
    {
        Values {
            entries: ArrayVec::new(empty_entry()),
        }
    }

    // The place of a Name.
    pub(crate) fn place(&self, name: &[u8]) -> Option<usize>
        ensures { result ≡ position (λ e. bytes_eq e.name.bytes name.now) (items self.now.entries) }
    {
        self.entries
            .as_slice()
            .iter()
            .position(|e| e.name.bytes.as_slice() == name)
    }

    // Puts the value in the place of one with its Name, or behind the last.
    pub(crate) fn put(&mut self, entry: Entry) -> Result<(), Code>
        ensures answer { result ≡ refused_with (full_flaw bytes_eq value_count (held self.old) entry.name.bytes) tt }
        ensures after { held self.new ≡ settled (full_flaw bytes_eq value_count (held self.old) entry.name.bytes) (put_under bytes_eq (held self.old) entry.name.bytes (value_bytes entry.value)) (held self.old) }
    {
        put(&mut self.entries, entry).map_err(|_| Code::Memory)
    }
}
