// Entries put into a table by their keys.
ghost use Rattle.std.specs.Prelude.{◌≡◌, Bool};
ghost use Rattle.arrays.specs.Items.{items};
ghost use Rattle.tables.specs.Puts.{its_place, put_answer, with_put};

use arrays::array_vec::{ArrayVec, Full};

// An entry that stands under a key.
pub trait Keyed {
    ghost same: { Self → Self → Bool };

    // Whether both stand under one key.
    fn has_key_of(&self, other: &Self) -> bool
        ensures { result ≡ same self.now other.now };
}

fn place<T: Keyed>(entries: &[T], entry: &T) -> Option<usize>
    ensures { result ≡ its_place T.same entries.now entry.now }
{
    entries.iter().position(|e| e.has_key_of(entry))
}

// Puts an entry in the place of the one under its key, or behind the last if there is room.
pub fn put<T: Keyed + Copy, const N: usize>(
    entries: &mut ArrayVec<T, N>,
    entry: T,
) -> Result<(), Full>
    ensures answer { result ≡ put_answer T.same N (items entries.old) entry }
    ensures after { items entries.new ≡ with_put T.same N (items entries.old) entry }
{
    let Some(place) = place(entries.as_slice(), &entry) else {
        return entries.push(entry);
    };
    entries.set(place, entry);
    Ok(())
}
