// Byte strings put together: the padded rest of a message, and the digest.
ghost use Rattle.std.specs.Prelude.{◌≡◌, ◌%◌, ◌^◌, ◌<◌, ◌++◌, length};
ghost use Rattle.std.specs.List.{flat_map};
ghost use Rattle.arrays.specs.Items.{items};
ghost use Rattle.sha256.specs.Sha256.{word_bytes, zeros_after, padding};

use crate::constants::{BLOCK, State};
use arrays::array_vec::ArrayVec;
use interfaces::digest::DIGEST_LENGTH;

// The bit 1 that ends a message, in a byte of its own.
const PAD_BYTE: u8 = 0x80;

const ZEROS: [u8; BLOCK] = [0; BLOCK];

// The length of a message is given in bits, in 64 bits.
const LENGTH_BYTES: usize = 8;

const BYTE_BITS: u64 = 8;

// The rest of a message, which fills no block, and the padding take two blocks at most.
pub(crate) const TAIL: usize = 2 * BLOCK;

// The digest: the words of the hash value, the highest byte of each first.
pub(crate) fn digest(h: State) -> ArrayVec<u8, DIGEST_LENGTH>
    ensures whole { items result ≡ flat_map word_bytes h }
    ensures long { length (items result) ≡ 32 }
{
    let mut digest = ArrayVec::new(0);
    for word in h {
        digest.extend(&word.to_be_bytes()).unwrap();
    }
    digest
}

// How many zeros stand between the bit 1 and the length of a message of `n` bytes.
fn zeros_after(n: usize) -> usize
    ensures value { result ≡ zeros_after n }
    ensures short { result < 64 }
{
    (TAIL - 1 - LENGTH_BYTES - n % BLOCK) % BLOCK
}

// Puts the padding of a message of `n` bytes behind its rest, which fills no block.
pub(crate) fn pad(rest: &mut ArrayVec<u8, TAIL>, n: usize)
    requires { (length (items rest.old) ≡ n % 64) × (n < 2 ^ 61) }
    ensures { items rest.new ≡ items rest.old ++ padding n }
{
    let bits = BYTE_BITS * n as u64;
    rest.push(PAD_BYTE).unwrap();
    rest.extend(&ZEROS[..zeros_after(n)]).unwrap();
    rest.extend(&bits.to_be_bytes()).unwrap();
}
