// The shipped reader, read.
ghost use Rattle.reader.specs.Views.{reader_snapshot};
ghost use Rattle.std.proofs.Common.{subst, sym};
ghost use Rattle.interfaces.specs.States.{Sound};
ghost use Rattle.forecast.specs.Views.{plans_of};
ghost use Rattle.state.specs.Views.{own_snapshot};
ghost use Rattle.state.specs.Lawful.{own_sound};
ghost use Rattle.reader.specs.Plain.{plain};

use crate::reader::Reader;
use interfaces::code::Code;
use interfaces::state::ReaderState;

impl ReaderState for Reader {
    ghost observed = { reader_snapshot };

    ghost lawful = { λ x. subst Sound (sym (plain (plans_of x.state.planned) (own_snapshot x.state.below) x.unplanned)) (own_sound x.state.below) };

    fn pcr(&self, index: usize, out: &mut [u8]) -> Result<(), Code> {
        self.state.pcr(index, out)
    }

    fn change_count(&self) -> u64 {
        self.state.change_count()
    }

    fn stored_value(&self, name: &[u8], out: &mut [u8]) -> Result<usize, Code> {
        self.state.stored_value(name, out)
    }

    fn time_info(&self, out: &mut [u8]) -> Result<(), Code> {
        self.state.time_info(out)
    }

    fn locality(&self) -> u8 {
        self.state.locality()
    }

    fn presence(&self) -> bool {
        self.state.presence()
    }
}
