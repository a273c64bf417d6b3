// How two byte strings of one length compare.
ghost use Rattle.std.specs.Prelude.{◌≡◌, length};
ghost use Rattle.policy.specs.Operations.{operation_number};
ghost use Rattle.conditions.specs.Comparing.{bits_clear, bits_set, compares, negative};

use policy::operation::Operation;

// The sign bit of a first byte, where there is one.
const SIGN: u8 = 0x80;

fn is_negative(a: &[u8]) -> bool
    ensures { result ≡ negative a.now }
{
    a.first().is_some_and(|byte| *byte >= SIGN)
}

fn has_bits_set(a: &[u8], b: &[u8]) -> bool
    ensures { result ≡ bits_set a.now b.now }
{
    a.iter().zip(b).all(|(x, y)| *x & *y == *y)
}

fn has_bits_clear(a: &[u8], b: &[u8]) -> bool
    ensures { result ≡ bits_clear a.now b.now }
{
    a.iter().zip(b).all(|(x, y)| *x & *y == 0)
}

// Whether the operation holds of a against b. Byte strings of one length are in the order of their
// unsigned numbers. Where the signs differ, the negative one is less; where they are the same, two's
// complement orders as unsigned numbers do.
pub(crate) fn compare(operation: Operation, a: &[u8], b: &[u8]) -> bool
    requires { length a.now ≡ length b.now }
    ensures { result ≡ compares (operation_number operation) a.now b.now }
{
    let a_negative = is_negative(a);
    let b_negative = is_negative(b);
    match operation {
        Operation::Equal => a == b,
        Operation::NotEqual => a != b,
        Operation::SignedGreater if a_negative != b_negative => b_negative,
        Operation::SignedGreater => a > b,
        Operation::UnsignedGreater => a > b,
        Operation::SignedLess if a_negative != b_negative => a_negative,
        Operation::SignedLess => a < b,
        Operation::UnsignedLess => a < b,
        Operation::SignedGreaterOrEqual if a_negative != b_negative => b_negative,
        Operation::SignedGreaterOrEqual => a >= b,
        Operation::UnsignedGreaterOrEqual => a >= b,
        Operation::SignedLessOrEqual if a_negative != b_negative => a_negative,
        Operation::SignedLessOrEqual => a <= b,
        Operation::UnsignedLessOrEqual => a <= b,
        Operation::BitsSet => has_bits_set(a, b),
        Operation::BitsClear => has_bits_clear(a, b),
    }
}
