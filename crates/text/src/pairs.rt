// Byte strings as lower-case hexadecimal digit pairs.
ghost use Rattle.std.specs.Prelude.{◌≡◌, ℕ, ◌+◌, ◌*◌, List, length, replicate, Some, None, MatchOption};
ghost use Rattle.std.specs.Option.{option_map, unwrap_or};
ghost use Rattle.text.specs.Pairs.{hex_value, unpaired, of_length};

use interfaces::buffer::clear;

fn hex_value(c: u8) -> Option<u8>
    ensures { result ≡ hex_value c }
{
    match c {
        b'0'..=b'9' => Some(c - b'0'),
        b'a'..=b'f' => Some(c - b'a' + 10),
        _ => None,
    }
}

// How many bytes a field stands for; none where it is no lower-case digit pairs.
pub fn pair_count(field: &[u8]) -> Option<usize>
    ensures value { result ≡ option_map length (unpaired field.now) }
    ensures bytes { MatchOption result (unpaired field.now ≡ None) (λ n. (bs : List ℕ) × (unpaired field.now ≡ Some bs) × (length bs ≡ n)) }
{
    if field.len() % 2 != 0 {
        return None;
    }
    for c in field {
        hex_value(*c)?;
    }
    Some(field.len() / 2)
}

fn pair_value(high: u8, low: u8) -> u8
    ensures { result ≡ unwrap_or (hex_value high) 0 * 16 + unwrap_or (hex_value low) 0 }
{
    hex_value(high).unwrap_or(0) * 16 + hex_value(low).unwrap_or(0)
}

fn fill_pairs(field: &[u8], out: &mut [u8])
    requires { option_map length (unpaired field.now) ≡ Some (length out.old) }
    ensures { unpaired field.now ≡ Some out.new }
{
    for (i, byte) in out.iter_mut().enumerate() {
        *byte = pair_value(field[2 * i], field[2 * i + 1]);
    }
}

// Decodes a field that stands for exactly as many bytes as the buffer has; else there is no answer,
// and the buffer is zeros.
pub fn unpair(field: &[u8], out: &mut [u8]) -> Option<()>
    ensures answer { of_length (length out.old) (unpaired field.now) ≡ option_map (λ _. out.new) result }
    ensures cleared { result ≡ None → out.new ≡ replicate (length out.old) 0 }
{
    if pair_count(field) != Some(out.len()) {
        clear(out);
        return None;
    }
    fill_pairs(field, out);
    Some(())
}

// The bytes of a field that stands for exactly so many.
pub fn decode<const N: usize>(field: &[u8]) -> Option<[u8; N]>
    ensures { result ≡ of_length N (unpaired field.now) }
{
    let mut bytes = [0; N];
    unpair(field, &mut bytes)?;
    Some(bytes)
}
