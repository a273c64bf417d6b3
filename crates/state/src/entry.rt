// A value stored under a Name.
ghost use Rattle.std.specs.Prelude.{◌≡◌, ℕ, ◌<◌, length, slice_index};
ghost use Rattle.arrays.specs.Items.{items};
ghost use Rattle.interfaces.specs.States.{name_length};

use arrays::array_vec::ArrayVec;
use interfaces::code::Code;
use interfaces::name::Name;
use interfaces::state::VALUE_LIMIT;
use tables::put::Keyed;

// Any items of an array are numbers to the logic, so the range of the bytes stands here.
#[derive(Clone, Copy)]
pub struct StoredValue {
    pub(crate) bytes: ArrayVec<u8, VALUE_LIMIT>,
    ghost small: { (k : ℕ) → slice_index (items bytes) k < 256 },
}

// A value over the limit is refused.
impl TryFrom<&[u8]> for StoredValue {
    ghost use Rattle.interfaces.specs.Checks.{meant, fitting};
    ghost use Rattle.interfaces.specs.States.{value_limit};
    ghost use Rattle.state.specs.Entries.{value_bytes};

    type Error = Code;

    ghost try_from_gives = { λ bytes r. meant value_bytes r ≡ fitting bytes.now value_limit };

    fn try_from(value: &[u8]) -> Result<StoredValue, Code> {
        let mut bytes = ArrayVec::new(0);
        bytes.extend(value).map_err(|_| Code::Size)?;
        Ok(StoredValue { bytes })
    }
}

#[derive(Clone, Copy)]
pub struct Entry {
    pub(crate) name: Name,
    pub(crate) value: StoredValue,
    ghost named: { length name.bytes ≡ name_length },
}

impl Keyed for Entry {
    ghost use Rattle.std.specs.Str.{bytes_eq};

    ghost same = { λ x y. bytes_eq x.name.bytes y.name.bytes };

    fn has_key_of(&self, other: &Entry) -> bool {
        self.name == other.name
    }
}
