// A digest: the one type that knows how long one is.
ghost use Rattle.std.specs.Prelude.{◌≡◌, length, replicate};
ghost use Rattle.interfaces.specs.Checks.{meant, refused_with};
ghost use Rattle.interfaces.specs.Hashing.{digest_length, text_flaw};
ghost use Rattle.interfaces.specs.Views.{digest_bytes};

use crate::code::Code;
use crate::hash::Hash;

pub const DIGEST_LENGTH: usize = 32;

#[derive(Clone, Copy, Debug, PartialEq, Eq)]
pub struct Digest {
    pub bytes: [u8; DIGEST_LENGTH],
}

impl Digest {
    pub fn zero() -> Digest
        ensures { result.bytes ≡ replicate digest_length 0 }
    {
        Digest {
            bytes: [0; DIGEST_LENGTH],
        }
    }

    // The digest of a text; one over the limit is refused.
    pub fn of<H: Hash>(hash: &H, text: &[u8]) -> Result<Digest, Code>
        ensures { meant digest_bytes result ≡ refused_with (text_flaw text.now) ((H.meaning hash.now).digest text.now) }
    {
        let mut digest = Digest::zero();
        hash.hash(text, &mut digest.bytes)?;
        Ok(digest)
    }
}
