// Bytes written into a buffer from a place on; what does not fit is refused, and nothing is written.
ghost use Rattle.std.specs.Prelude.{◌≡◌, ◌%◌, decimal};
ghost use Rattle.text.specs.Pairs.{hex_digit, pairs};
ghost use Rattle.text.specs.Writing.{Wrote};

use itoa::Buffer;

// Writes bytes, and answers where they end.
pub fn put(out: &mut [u8], at: usize, more: &[u8]) -> Option<usize>
    ensures { Wrote out.old at more.now result out.new }
{
    let end = at.checked_add(more.len())?;
    if end > out.len() {
        return None;
    }
    out[at..end].copy_from_slice(more);
    Some(end)
}

// The digit of the low four bits.
pub fn hex_digit(v: u8) -> u8
    ensures { result ≡ hex_digit (v % 16) }
{
    let low = v % 16;
    if low < 10 {
        b'0' + low
    } else {
        b'a' - 10 + low
    }
}

pub fn put_pairs(out: &mut [u8], at: usize, bytes: &[u8]) -> Option<usize>
    ensures { Wrote out.old at (pairs bytes.now) result out.new }
{
    if at > out.len() || bytes.len() > (out.len() - at) / 2 {
        return None;
    }
    for (i, b) in bytes.iter().enumerate() {
        out[at + 2 * i] = hex_digit(*b / 16);
        out[at + 2 * i + 1] = hex_digit(*b);
    }
    Some(at + 2 * bytes.len())
}

pub fn put_decimal(out: &mut [u8], at: usize, n: usize) -> Option<usize>
    ensures { Wrote out.old at (decimal n) result out.new }
{
    let mut digits = Buffer::new();
    put(out, at, digits.format(n).as_bytes())
}
