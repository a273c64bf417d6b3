// Digits put behind the items of an array; what does not fit is refused, and nothing is put.
ghost use Rattle.std.specs.Prelude.{decimal};
ghost use Rattle.arrays.specs.Items.{items, Puts};
ghost use Rattle.text.specs.Pairs.{pairs};

use crate::write::put_pairs;
use arrays::array_vec::{ArrayVec, Full};
use itoa::Buffer;

// How many bytes' digits are put at once: more than most fields have.
const PART: usize = 64;

pub fn append_pairs<const N: usize>(out: &mut ArrayVec<u8, N>, bytes: &[u8]) -> Result<(), Full>
    ensures { Puts N (items out.old) (pairs bytes.now) result (items out.new) }
{
    if bytes.len() > (N - out.len()) / 2 {
        return Err(Full);
    }
    let mut digits = [0; 2 * PART];
    for part in bytes.chunks(PART) {
        let end = put_pairs(&mut digits, 0, part).unwrap();
        out.extend(&digits[..end])?;
    }
    Ok(())
}

pub fn append_decimal<const N: usize>(out: &mut ArrayVec<u8, N>, n: usize) -> Result<(), Full>
    ensures { Puts N (items out.old) (decimal n) result (items out.new) }
{
    let mut digits = Buffer::new();
    out.extend(digits.format(n).as_bytes())
}
