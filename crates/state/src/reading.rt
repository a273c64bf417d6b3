// The reader's own state, read.
ghost use Rattle.state.specs.Views.{own_snapshot};
ghost use Rattle.state.specs.Lawful.{own_sound};

use crate::own::Own;
use interfaces::buffer::{clear, fill};
use interfaces::code::Code;
use interfaces::state::{ReaderState, admit_pcr, admit_stored, admit_time};

impl ReaderState for Own {
    ghost observed = { own_snapshot };

    ghost lawful = { λ x. own_sound x };

    fn pcr(&self, index: usize, out: &mut [u8]) -> Result<(), Code> {
        admit_pcr(index, out)?;
        out.copy_from_slice(&self.pcrs[index].bytes);
        Ok(())
    }

    fn change_count(&self) -> u64 {
        self.count
    }

    fn stored_value(&self, name: &[u8], out: &mut [u8]) -> Result<usize, Code> {
        admit_stored(name, out)?;
        let found = self.values.place(name);
        let Some(place) = found else {
            clear(out);
            return Err(Code::Handle);
        };
        fill(
            out,
            self.values.entries.as_slice()[place].value.bytes.as_slice(),
        )
    }

    fn time_info(&self, out: &mut [u8]) -> Result<(), Code> {
        admit_time(out)?;
        out.copy_from_slice(&self.time.bytes);
        Ok(())
    }

    fn locality(&self) -> u8 {
        self.locality
    }

    fn presence(&self) -> bool {
        self.presence
    }
}
