// The hash as an interface: its meaning is one function from byte strings to digests.
ghost use Rattle.std.specs.Prelude.{◌≡◌, length, replicate, if◌then◌else◌};
ghost use Rattle.interfaces.specs.Hashing.{Hashing, Lawful, request_fits, hash_answer, hash_written};

use crate::buffer::clear;
use crate::code::Code;
use crate::digest::DIGEST_LENGTH;

pub const HASH_LIMIT: usize = 65536;

pub trait Hash {
    ghost meaning: { Self → Hashing };

    // The 16-bit algorithm identifier.
    fn identifier(&self) -> u16
        ensures { result ≡ (meaning self.now).identifier };

    // Writes the digest of `text`; a text over the limit or a buffer of another length than a
    // digest's is refused, and the buffer is then zeros.
    fn hash(&self, text: &[u8], out: &mut [u8]) -> Result<(), Code>
        ensures answer { result ≡ hash_answer text.now (length out.old) }
        ensures written { out.new ≡ hash_written (meaning self.now) text.now (length out.old) };

    ghost lawful: { (x : Self) → Lawful (meaning x) };
}

// Judges a request to hash, for every implementation: refused, the buffer is cleared.
pub fn admit(text: &[u8], out: &mut [u8]) -> Result<(), Code>
    ensures answer { result ≡ hash_answer text.now (length out.old) }
    ensures after { out.new ≡ (if request_fits text.now (length out.old) then out.old else replicate (length out.old) 0) }
{
    if text.len() > HASH_LIMIT || out.len() != DIGEST_LENGTH {
        clear(out);
        return Err(Code::Size);
    }
    Ok(())
}
