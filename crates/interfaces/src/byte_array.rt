// Byte strings of one length.
ghost use Rattle.std.specs.Prelude.{◌≡◌, ℕ, ◌<◌, length, replicate, slice_index};

use crate::code::Code;

// An array of bytes is any list to the logic, so its length and the range of its bytes stand here.
#[derive(Clone, Copy)]
pub struct ByteArray<const N: usize> {
    pub bytes: [u8; N],
    ghost long: { length bytes ≡ N },
    ghost small: { (k : ℕ) → slice_index bytes k < 256 },
}

impl<const N: usize> ByteArray<N> {
    pub fn zero() -> ByteArray<N>
        ensures { result.bytes ≡ replicate N 0 }
    {
        ByteArray { bytes: [0; N] }
    }
}

// Bytes of another length are refused.
impl<const N: usize> TryFrom<&[u8]> for ByteArray<N> {
    ghost use Rattle.interfaces.specs.Checks.{meant, of_length};
    ghost use Rattle.interfaces.specs.declared.byte_array.ByteArray.{ByteArray};

    type Error = Code;

    ghost try_from_gives = { λ bytes r. meant (λ (a : ByteArray N). a.bytes) r ≡ of_length N bytes.now };

    fn try_from(bytes: &[u8]) -> Result<ByteArray<N>, Code> {
        let bytes = bytes.try_into()?;
        Ok(ByteArray { bytes })
    }
}
