// Digests and passwords compared.
ghost use Rattle.std.specs.Prelude.{◌≡◌, bit_or, bit_xor};
ghost use Rattle.std.specs.List.{fold, zip};
ghost use Rattle.std.specs.Str.{bytes_eq};

// The bits in which the bytes differ, pair by pair, all in one byte.
fn differing_bits(a: &[u8], b: &[u8]) -> u8
    ensures { result ≡ fold (λ seen p. bit_or seen (bit_xor p.0 p.1)) 0 (zip a.now b.now) }
{
    a.iter().zip(b).fold(0, |seen, (x, y)| seen | (x ^ y))
}

// Whether the lengths and the bytes are equal. It does not leave at the first different byte; what the
// compiler makes of it, and the time that an answer takes, are not promised.
pub(crate) fn same_bytes(a: &[u8], b: &[u8]) -> bool
    ensures { result ≡ bytes_eq a.now b.now }
{
    a.len() == b.len() && differing_bits(a, b) == 0
}
