// A block, read in place as a reader state.
ghost use Rattle.std.specs.Prelude.{◌≡◌, ◌+◌, ◌<◌, ◌≤◌, length, if◌then◌else◌, Some, None, nat_lt};
ghost use Rattle.std.specs.Option.{option_map};
ghost use Rattle.std.specs.Str.{bytes_eq};
ghost use Rattle.interfaces.specs.States.{pcr_count, pcr_length};
ghost use Rattle.tables.specs.Tables.{place_under};
ghost use Rattle.block.specs.Layout.{block_length, count_at, count_length, entries_in, entry_count, entry_in, name_in, number_in, part, pcr_in, value_in};
ghost use Rattle.block.specs.Views.{block_bytes, observed_block};
ghost use Rattle.block.specs.Meaning.{block_sound};

use crate::block::Block;
use crate::layout::{
    COUNT_AT, COUNT_LENGTH, LOCALITY_AT, NUMBER_AT, PRESENCE_AT, TIME_AT, entry_at,
};
use interfaces::buffer::{clear, fill};
use interfaces::code::Code;
use interfaces::name::NAME_LENGTH;
use interfaces::state::{
    PCR_LENGTH, ReaderState, TIME_LENGTH, admit_pcr, admit_stored, admit_time,
};

impl Block<'_> {
    fn part(&self, at: usize, len: usize) -> &[u8]
        requires { at + len ≤ block_length }
        ensures is { result.now ≡ part (block_bytes self.now) at len }
        ensures long { length result.now ≡ len }
    {
        let bytes = self.bytes.as_slice();
        &bytes[at..at + len]
    }

    // The value of a PCR.
    fn register(&self, index: usize) -> &[u8]
        requires { index < pcr_count }
        ensures is { result.now ≡ pcr_in (block_bytes self.now) index }
        ensures long { length result.now ≡ pcr_length }
    {
        self.part(PCR_LENGTH * index, PCR_LENGTH)
    }

    fn name(&self, i: usize) -> &[u8]
        requires { i < entry_count }
        ensures { result.now ≡ name_in (block_bytes self.now) i }
    {
        self.part(entry_at(i), NAME_LENGTH)
    }

    fn value(&self, i: usize) -> &[u8]
        requires { i < number_in (block_bytes self.now) }
        ensures { result.now ≡ value_in (block_bytes self.now) i }
    {
        let at = entry_at(i) + NAME_LENGTH;
        self.part(at + 1, self.bytes[at] as usize)
    }

    // How many of the entries are used.
    pub fn number(&self) -> usize
        ensures { result ≡ number_in (block_bytes self.now) }
    {
        self.bytes[NUMBER_AT] as usize
    }

    // A used entry: its Name and its value.
    pub fn entry(&self, i: usize) -> Option<(&[u8], &[u8])>
        ensures { option_map (λ p. (p.0.now, p.1.now)) result ≡ (if nat_lt i (number_in (block_bytes self.now)) then Some (entry_in (block_bytes self.now) i) else None) }
    {
        if i >= self.number() {
            return None;
        }
        Some((self.name(i), self.value(i)))
    }

    // The first of the used entries with the Name.
    pub fn place(&self, name: &[u8]) -> Option<usize>
        ensures { result ≡ place_under bytes_eq (entries_in (block_bytes self.now)) name.now }
    {
        (0..self.number()).position(|i| self.name(i) == name)
    }
}

impl<'a> ReaderState for Block<'a> {
    ghost observed = { observed_block };

    ghost lawful = { λ x. block_sound (block_bytes x) x.long x.sound x.small };

    fn pcr(&self, index: usize, out: &mut [u8]) -> Result<(), Code> {
        admit_pcr(index, out)?;
        out.copy_from_slice(self.register(index));
        Ok(())
    }

    fn change_count(&self) -> u64 {
        u64::from_be_bytes(self.part(COUNT_AT, COUNT_LENGTH).try_into().unwrap())
    }

    fn stored_value(&self, name: &[u8], out: &mut [u8]) -> Result<usize, Code> {
        admit_stored(name, out)?;
        let found = self.place(name);
        let Some(place) = found else {
            clear(out);
            return Err(Code::Handle);
        };
        fill(out, self.value(place))
    }

    fn time_info(&self, out: &mut [u8]) -> Result<(), Code> {
        admit_time(out)?;
        out.copy_from_slice(self.part(TIME_AT, TIME_LENGTH));
        Ok(())
    }

    fn locality(&self) -> u8 {
        self.bytes[LOCALITY_AT]
    }

    fn presence(&self) -> bool {
        self.bytes[PRESENCE_AT] == 1
    }
}
