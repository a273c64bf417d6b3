// Decimal fields.
ghost use Rattle.std.specs.Prelude.{◌≡◌};
ghost use Rattle.text.specs.Numbers.{digits_from, number};

pub const NUMBER_LIMIT: u32 = 65535;

fn digits_value(s: &[u8]) -> Option<u16>
    ensures { result ≡ digits_from 0 s.now }
{
    let mut n: u32 = 0;
    for c in s {
        if *c < b'0' || *c > b'9' {
            return None;
        }
        n = n * 10 + (*c - b'0') as u32;
        if n > NUMBER_LIMIT {
            return None;
        }
    }
    Some(n as u16)
}

// The number of a decimal field; none where it is empty, too large or has a leading zero.
pub fn read_number(s: &[u8]) -> Option<u16>
    ensures { result ≡ number s.now }
{
    match s {
        [] => None,
        [b'0', _, ..] => None,
        _ => digits_value(s),
    }
}
