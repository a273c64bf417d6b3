// SHA-256 as a hash.
ghost use Rattle.std.specs.Prelude.{◌≡◌, ◌/◌, ◌^◌, ◌<◌, length, refl};
ghost use Rattle.blocks.specs.Blocks.{absorb};
ghost use Rattle.sha256.specs.Constants.{H0};
ghost use Rattle.sha256.specs.Sha256.{compress, pad, sha256_hashing};
ghost use Rattle.std.proofs.Common.{lit<};
ghost use Rattle.sha256.specs.Digests.{sized, bytes};

use crate::compression::Compression;
use crate::constants::{BLOCK, State, initial};
use crate::message::{TAIL, digest, pad};
use arrays::array_vec::ArrayVec;
use blocks::take_blocks;
use interfaces::code::Code;
use interfaces::hash::{Hash, admit};

// SHA-256 in the list of algorithms of TPM 2.0.
const IDENTIFIER: u16 = 0x000b;

#[derive(Clone, Copy)]
pub struct Sha256;

impl Hash for Sha256 {
    ghost meaning = { λ _. sha256_hashing };

    ghost lawful = { λ x. record { sized = sized; bytes = bytes; long = refl; short = lit< tt } };

    fn identifier(&self) -> u16 {
        IDENTIFIER
    }

    fn hash(&self, text: &[u8], out: &mut [u8]) -> Result<(), Code> {
        admit(text, out)?;
        out.copy_from_slice(digest(hash_value(text)).as_slice());
        Ok(())
    }
}

// The hash value after the last block of the padded text. Whole blocks are read where they lie.
fn hash_value(text: &[u8]) -> State
    requires { length text.now < 2 ^ 61 }
    ensures { result ≡ absorb compress 64 (length (pad text.now) / 64) (pad text.now) H0 }
{
    let (h, _) = take_blocks::<Compression, BLOCK>(initial(), text);
    // Not the rest that the call answers: where that lies the compiler cannot tell, and it would be
    // copied by `memmove`, which firmware need not have.
    let (_, rest) = text.as_chunks::<BLOCK>();
    let mut tail: ArrayVec<u8, TAIL> = ArrayVec::new(0);
    tail.extend(rest).unwrap();
    pad(&mut tail, text.len());
    let (last, _) = take_blocks::<Compression, BLOCK>(h, tail.as_slice());
    last
}
