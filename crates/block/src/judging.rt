// A block taken as a state.
ghost use Rattle.std.specs.Prelude.{◌≡◌, ◌≤◌, replicate};
ghost use Rattle.interfaces.specs.Checks.{refused_with, settled};
ghost use Rattle.block.specs.Layout.{block_flaw, block_length, entry_count, in_range, lengths_fit};
ghost use Rattle.block.specs.Views.{block_bytes};

use crate::block::Block;
use crate::layout::{BLOCK_LENGTH, ENTRY_COUNT, LOCALITY_AT, NUMBER_AT, PRESENCE_AT, entry_at};
use interfaces::code::Code;
use interfaces::name::NAME_LENGTH;
use interfaces::state::{LAST_LOCALITY, VALUE_LIMIT};

// Whether the values of the first entries have their lengths.
fn lengths_fit(bytes: &[u8; BLOCK_LENGTH], number: usize) -> bool
    requires { number ≤ entry_count }
    ensures { result ≡ lengths_fit bytes.now number }
{
    (0..number).all(|i| bytes[entry_at(i) + NAME_LENGTH] as usize <= VALUE_LIMIT)
}

fn in_range(bytes: &[u8; BLOCK_LENGTH]) -> bool
    ensures { result ≡ in_range bytes.now }
{
    let number = bytes[NUMBER_AT] as usize;
    bytes[LOCALITY_AT] <= LAST_LOCALITY
        && bytes[PRESENCE_AT] <= 1
        && number <= ENTRY_COUNT
        && lengths_fit(bytes, number)
}

static ZEROS: [u8; BLOCK_LENGTH] = [0; BLOCK_LENGTH];

impl<'a> TryFrom<&'a [u8]> for Block<'a> {
    ghost use Rattle.interfaces.specs.Checks.{meant};

    type Error = Code;

    ghost try_from_gives = { λ bytes r. meant block_bytes r ≡ refused_with (block_flaw bytes.now) bytes.now };

    // Another length is refused, then a byte out of its range.
    fn try_from(bytes: &'a [u8]) -> Result<Block<'a>, Code> {
        let bytes = bytes.try_into()?;
        if !in_range(bytes) {
            return Err(Code::Value);
        }
        Ok(Block { bytes })
    }
}

impl<'a> Block<'a> {
    // The block of zeros, which is the state of a new reader.
    pub fn blank() -> Block<'a>
        ensures { block_bytes result ≡ replicate block_length 0 }
    {
        Block { bytes: &ZEROS }
    }

    // Takes the bytes for the block; where they are refused, the block is as it was.
    pub fn load(&mut self, bytes: &'a [u8]) -> Result<(), Code>
        ensures answer { result ≡ refused_with (block_flaw bytes.now) tt }
        ensures after { block_bytes self.new ≡ settled (block_flaw bytes.now) bytes.now (block_bytes self.old) }
    {
        *self = Block::try_from(bytes)?;
        Ok(())
    }
}
