// SHA3-256 as a hash.
ghost use Rattle.std.specs.Prelude.{◌≡◌, ◌/◌, length, refl};
ghost use Rattle.blocks.specs.Blocks.{absorb};
ghost use Rattle.sha3.specs.Sha3.{pad, taken, S0, sha3_256_hashing};
ghost use Rattle.std.proofs.Common.{lit<};
ghost use Rattle.sha3.specs.Digests.{sized, bytes};

use crate::constants::{LANES, RATE, State};
use crate::message::{digest, last_block};
use crate::sponge::Sponge;
use blocks::{TakeBlock, take_blocks};
use interfaces::code::Code;
use interfaces::hash::{Hash, admit};

// SHA3-256 in the list of algorithms of TPM 2.0.
const IDENTIFIER: u16 = 0x0027;

#[derive(Clone, Copy)]
pub struct Sha3;

impl Hash for Sha3 {
    ghost meaning = { λ _. sha3_256_hashing };

    ghost lawful = { λ x. record { sized = sized; bytes = bytes; long = refl; short = lit< tt } };

    fn identifier(&self) -> u16 {
        IDENTIFIER
    }

    fn hash(&self, text: &[u8], out: &mut [u8]) -> Result<(), Code> {
        admit(text, out)?;
        out.copy_from_slice(digest(final_state(text)).as_slice());
        Ok(())
    }
}

// The state after the last block of the padded text. Whole blocks are read where they lie.
fn final_state(text: &[u8]) -> State
    ensures { result ≡ absorb taken 136 (length (pad text.now) / 136) (pad text.now) S0 }
{
    let (s, rest) = take_blocks::<Sponge, RATE>([0; LANES], text);
    let last = last_block(rest);
    Sponge::take_block(s, &last)
}
