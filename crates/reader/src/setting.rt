// The shipped reader, changed. A refusal changes nothing.
ghost use Rattle.std.specs.Prelude.{◌≡◌};
ghost use Rattle.interfaces.specs.Checks.{refused_with, settled};
ghost use Rattle.state.specs.Changes.{blank, extend_flaw, with_pcr_extended, Put, set_time_flaw, with_time, set_locality_flaw, with_locality, with_presence};
ghost use Rattle.reader.specs.Views.{reader_snapshot};

use crate::reader::Reader;
use forecast::forecast::Forecast;
use interfaces::code::Code;
use state::own::Own;

impl Reader {
    // A new reader: zeros, and no values.
    pub fn new() -> Reader
        ensures { reader_snapshot result ≡ blank }
    {
        Reader {
            state: Forecast::new(Own::new()),
        }
    }

    // Extends a PCR by 32 bytes.
    pub fn extend(&mut self, index: usize, value: &[u8]) -> Result<(), Code>
        ensures answer { result ≡ refused_with (extend_flaw (reader_snapshot self.old) index value.now) tt }
        ensures after { reader_snapshot self.new ≡ settled (extend_flaw (reader_snapshot self.old) index value.now) (with_pcr_extended (reader_snapshot self.old) index value.now) (reader_snapshot self.old) }
    {
        self.state.below.extend(index, value)
    }

    // Puts a value under a Name, in the place of one that stood there.
    pub fn put_value(&mut self, name: &[u8], value: &[u8]) -> Result<(), Code>
        ensures { Put (reader_snapshot self.old) name.now value.now result (reader_snapshot self.new) }
    {
        self.state.below.put_value(name, value)
    }

    pub fn set_time_info(&mut self, info: &[u8]) -> Result<(), Code>
        ensures answer { result ≡ refused_with (set_time_flaw info.now) tt }
        ensures after { reader_snapshot self.new ≡ settled (set_time_flaw info.now) (with_time (reader_snapshot self.old) info.now) (reader_snapshot self.old) }
    {
        self.state.below.set_time_info(info)
    }

    pub fn set_locality(&mut self, locality: u8) -> Result<(), Code>
        ensures answer { result ≡ refused_with (set_locality_flaw locality) tt }
        ensures after { reader_snapshot self.new ≡ settled (set_locality_flaw locality) (with_locality (reader_snapshot self.old) locality) (reader_snapshot self.old) }
    {
        self.state.below.set_locality(locality)
    }

    pub fn set_presence(&mut self, presence: bool)
        ensures { reader_snapshot self.new ≡ with_presence (reader_snapshot self.old) presence }
    {
        self.state.below.set_presence(presence);
    }
}
