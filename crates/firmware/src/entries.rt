// The exported entries. A slice reaches them from C as a pointer and a length.
ghost use Rattle.std.specs.Prelude.{◌≡◌, length};
ghost use Rattle.sha256.specs.Sha256.{sha256_hashing};
ghost use Rattle.sha3.specs.Sha3.{sha3_256_hashing};
ghost use Rattle.tree.specs.Answers.{digested, answer_of, written_of};
ghost use Rattle.firmware.specs.Answers.{in_numbers};

use crate::answer::Answer;
use crate::entry::digest_entry;
use sha3::Sha3;
use sha256::Sha256;

// Digests a policy text under SHA-256 into 32 bytes.
#[unsafe(no_mangle)]
pub extern "C" fn puvlomir_digest_sha256(text: &[u8], out: &mut [u8]) -> Answer
    ensures answer { result ≡ in_numbers (answer_of text.now (digested text.now (length out.old))) }
    ensures written { out.new ≡ written_of sha256_hashing (length out.old) (digested text.now (length out.old)) }
{
    digest_entry(&Sha256, text, out)
}

// The same under SHA3-256.
#[unsafe(no_mangle)]
pub extern "C" fn puvlomir_digest_sha3_256(text: &[u8], out: &mut [u8]) -> Answer
    ensures answer { result ≡ in_numbers (answer_of text.now (digested text.now (length out.old))) }
    ensures written { out.new ≡ written_of sha3_256_hashing (length out.old) (digested text.now (length out.old)) }
{
    digest_entry(&Sha3, text, out)
}
