// The reader's own state, changed. A refusal changes nothing.
ghost use Rattle.std.specs.Prelude.{◌≡◌, ◌++◌};
ghost use Rattle.interfaces.specs.Checks.{meant, refused_with, settled};
ghost use Rattle.interfaces.specs.Views.{pcr_bytes};
ghost use Rattle.sha256.specs.Sha256.{sha256};
ghost use Rattle.state.specs.Changes.{blank, extend_flaw, with_pcr_extended, lengths_flaw, Put, set_time_flaw, with_time, set_locality_flaw, with_locality, with_presence};
ghost use Rattle.state.specs.Entries.{entry_of};
ghost use Rattle.state.specs.Views.{own_snapshot};

use crate::entry::Entry;
use crate::own::Own;
use crate::time::TimeInfo;
use crate::values::Values;
use interfaces::code::Code;
use interfaces::digest::Digest;
use interfaces::name::Name;
use interfaces::pcr::Pcr;
use interfaces::state::{LAST_LOCALITY, PCR_COUNT};
use sha256::Sha256;

// SHA-256 of the old value with the new one behind it.
fn extended(old: &Pcr, new: &Pcr) -> Pcr
    ensures { pcr_bytes result ≡ sha256 (pcr_bytes old.now ++ pcr_bytes new.now) }
{
    let (old, new) = (old.bytes, new.bytes);
    let text = [old, new];
    // Within the limits hashing always succeeds.
    let digest = Digest::of(&Sha256, text.as_flattened()).unwrap();
    let bytes = digest.bytes;
    Pcr { bytes }
}

// A value to be put under a Name, if both have their lengths.
fn named(name: &[u8], value: &[u8]) -> Result<Entry, Code>
    ensures { meant entry_of result ≡ refused_with (lengths_flaw name.now value.now) (name.now, value.now) }
{
    let bytes = name.try_into()?;
    let value = value.try_into()?;
    Ok(Entry {
        name: Name { bytes },
        value,
    })
}

impl Own {
    // A new reader's state: zeros, and no values.
    pub fn new() -> Own
        ensures { own_snapshot result ≡ blank }
    {
        Own {
            pcrs: [Pcr::zero(); PCR_COUNT],
            count: 0,
            values: Values::new(),
            time: TimeInfo::zero(),
            locality: 0,
            presence: false,
        }
    }

    // Extends a PCR by 32 bytes.
    pub fn extend(&mut self, index: usize, value: &[u8]) -> Result<(), Code>
        ensures answer { result ≡ refused_with (extend_flaw (own_snapshot self.old) index value.now) tt }
        ensures after { own_snapshot self.new ≡ settled (extend_flaw (own_snapshot self.old) index value.now) (with_pcr_extended (own_snapshot self.old) index value.now) (own_snapshot self.old) }
    {
        let value = Pcr::try_from(value)?;
        if index >= PCR_COUNT {
            return Err(Code::Value);
        }
        let count = self.count.checked_add(1).ok_or(Code::Memory)?;
        self.pcrs[index] = extended(&self.pcrs[index], &value);
        self.count = count;
        Ok(())
    }

    // Puts a value under a Name, in the place of one that stood there.
    pub fn put_value(&mut self, name: &[u8], value: &[u8]) -> Result<(), Code>
        ensures { Put (own_snapshot self.old) name.now value.now result (own_snapshot self.new) }
    {
        self.values.put(named(name, value)?)
    }

    pub fn set_time_info(&mut self, info: &[u8]) -> Result<(), Code>
        ensures answer { result ≡ refused_with (set_time_flaw info.now) tt }
        ensures after { own_snapshot self.new ≡ settled (set_time_flaw info.now) (with_time (own_snapshot self.old) info.now) (own_snapshot self.old) }
    {
        self.time = info.try_into()?;
        Ok(())
    }

    pub fn set_locality(&mut self, locality: u8) -> Result<(), Code>
        ensures answer { result ≡ refused_with (set_locality_flaw locality) tt }
        ensures after { own_snapshot self.new ≡ settled (set_locality_flaw locality) (with_locality (own_snapshot self.old) locality) (own_snapshot self.old) }
    {
        if locality > LAST_LOCALITY {
            return Err(Code::Value);
        }
        self.locality = locality;
        Ok(())
    }

    pub fn set_presence(&mut self, presence: bool)
        ensures { own_snapshot self.new ≡ with_presence (own_snapshot self.old) presence }
    {
        self.presence = presence;
    }
}
