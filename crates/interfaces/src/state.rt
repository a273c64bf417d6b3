// The reader state as an interface: PCRs, their change count, stored values, time info, locality
// and presence, as they are at one moment.
ghost use Rattle.std.specs.Prelude.{◌≡◌, ◌<◌, length, replicate, OnOk};
ghost use Rattle.interfaces.specs.Checks.{counted, done, left_in, meant, refused_with, settled};
ghost use Rattle.interfaces.specs.Views.{pcr_bytes};
ghost use Rattle.interfaces.specs.States.{Snapshot, Sound, pcr_count, pcr_length, name_length, value_limit, time_length, pcr_flaw, stored_flaw, time_flaw, read_pcr, read_stored, read_time};

use crate::buffer::{admit_length, clear};
use crate::code::Code;
use crate::name::NAME_LENGTH;
use crate::pcr::Pcr;

// PCRs are numbered from 0.
pub const PCR_COUNT: usize = 24;

pub const PCR_LENGTH: usize = 32;

// The longest stored value.
pub const VALUE_LIMIT: usize = 64;

// Time 8, clock 8, reset count 4, restart count 4, safe flag 1.
pub const TIME_LENGTH: usize = 25;

pub const LAST_LOCALITY: u8 = 4;

pub trait ReaderState {
    ghost observed: { Self → Snapshot };

    // Writes the value of a PCR.
    fn pcr(&self, index: usize, out: &mut [u8]) -> Result<(), Code>
        ensures answer { result ≡ done (read_pcr (observed self.now) index (length out.old)) }
        ensures written { out.new ≡ left_in (length out.old) (read_pcr (observed self.now) index (length out.old)) };

    // How often a PCR was changed.
    fn change_count(&self) -> u64
        ensures { result ≡ (observed self.now).count };

    // Writes the value stored under a Name, with zeros behind it, and answers its length.
    fn stored_value(&self, name: &[u8], out: &mut [u8]) -> Result<usize, Code>
        ensures answer { result ≡ counted (read_stored (observed self.now) name.now (length out.old)) }
        ensures written { out.new ≡ left_in (length out.old) (read_stored (observed self.now) name.now (length out.old)) };

    // Writes the time info.
    fn time_info(&self, out: &mut [u8]) -> Result<(), Code>
        ensures answer { result ≡ done (read_time (observed self.now) (length out.old)) }
        ensures written { out.new ≡ left_in (length out.old) (read_time (observed self.now) (length out.old)) };

    fn locality(&self) -> u8
        ensures { result ≡ (observed self.now).locality };

    // Whether a person shows presence.
    fn presence(&self) -> bool
        ensures { result ≡ (observed self.now).presence };

    ghost lawful: { (x : Self) → Sound (observed x) };
}

// Judges a request to read a PCR, for every implementation: refused, the buffer is cleared.
pub fn admit_pcr(index: usize, out: &mut [u8]) -> Result<(), Code>
    ensures answer { result ≡ refused_with (pcr_flaw index (length out.old)) tt }
    ensures after { out.new ≡ settled (pcr_flaw index (length out.old)) out.old (replicate (length out.old) 0) }
    ensures fits { OnOk result ((length out.old ≡ pcr_length) × (index < pcr_count)) }
{
    admit_length(out, PCR_LENGTH)?;
    if index >= PCR_COUNT {
        clear(out);
        return Err(Code::Value);
    }
    Ok(())
}

// Judges a request to read a stored value, all but whether the Name is held.
pub fn admit_stored(name: &[u8], out: &mut [u8]) -> Result<(), Code>
    ensures answer { result ≡ refused_with (stored_flaw name.now (length out.old)) tt }
    ensures after { out.new ≡ settled (stored_flaw name.now (length out.old)) out.old (replicate (length out.old) 0) }
    ensures fits { OnOk result ((length name.now ≡ name_length) × (length out.old ≡ value_limit)) }
{
    if name.len() != NAME_LENGTH || out.len() != VALUE_LIMIT {
        clear(out);
        return Err(Code::Size);
    }
    Ok(())
}

// Judges a request to read the time info.
pub fn admit_time(out: &mut [u8]) -> Result<(), Code>
    ensures answer { result ≡ refused_with (time_flaw (length out.old)) tt }
    ensures after { out.new ≡ settled (time_flaw (length out.old)) out.old (replicate (length out.old) 0) }
    ensures fits { OnOk result (length out.old ≡ time_length) }
{
    admit_length(out, TIME_LENGTH)
}

// The value of a PCR, by itself.
pub fn read_pcr<S: ReaderState>(state: &S, index: usize) -> Result<Pcr, Code>
    ensures { meant pcr_bytes result ≡ read_pcr (S.observed state.now) index pcr_length }
{
    let mut bytes = [0; PCR_LENGTH];
    state.pcr(index, &mut bytes)?;
    Ok(Pcr { bytes })
}

// The time info, by itself.
pub fn read_time<S: ReaderState>(state: &S) -> [u8; TIME_LENGTH]
    ensures { result ≡ (S.observed state.now).time }
{
    let mut info = [0; TIME_LENGTH];
    // A buffer of this length is never refused.
    let _ = state.time_info(&mut info);
    info
}
