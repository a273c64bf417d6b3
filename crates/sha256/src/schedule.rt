// The message schedule, four words at a time.
ghost use Rattle.std.specs.Prelude.{◌≡◌, ◌+◌, ◌<◌, ◌≤◌, ◌++◌, map, length, drop};
ghost use Rattle.sha256.specs.Functions.{ROTR, σ0, σ1};
ghost use Rattle.sha256.specs.Sha256.{first_word, words, extended};

use std::simd::prelude::*;

pub(crate) const LANES: usize = 4;

pub(crate) const VECTOR_BYTES: usize = LANES * WORD_BYTES;

const WORD_BYTES: usize = 4;

const WORD_BITS: u32 = 32;

// The word of four bytes, the highest first.
fn word_of(bytes: &[u8; WORD_BYTES]) -> u32
    ensures { result ≡ first_word bytes.now }
{
    u32::from_be_bytes(*bytes)
}

// The four words of sixteen bytes.
pub(crate) fn words_of(bytes: &[u8; VECTOR_BYTES]) -> u32x4
    ensures { result ≡ words 4 bytes.now }
{
    let (words, _) = bytes.as_chunks::<WORD_BYTES>();
    u32x4::from_array([
        word_of(&words[0]),
        word_of(&words[1]),
        word_of(&words[2]),
        word_of(&words[3]),
    ])
}

fn rotate_right(x: u32x4, n: u32) -> u32x4
    requires { (0 < n) × (n < 32) }
    ensures { result ≡ map (ROTR n) x }
{
    (x >> n) | (x << (WORD_BITS - n))
}

fn small_sigma0(x: u32x4) -> u32x4
    ensures { result ≡ map σ0 x }
{
    rotate_right(x, 7) ^ rotate_right(x, 18) ^ (x >> 3)
}

fn small_sigma1(x: u32x4) -> u32x4
    ensures { result ≡ map σ1 x }
{
    rotate_right(x, 17) ^ rotate_right(x, 19) ^ (x >> 10)
}

// The four words after sixteen. The last two stand on the first two, so these are finished first,
// beside zeros, of which σ1 is zero.
pub(crate) fn next_words(a: u32x4, b: u32x4, c: u32x4, d: u32x4) -> u32x4
    ensures { result ≡ drop 16 (extended 4 (a ++ (b ++ (c ++ d)))) }
{
    let zeros = u32x4::splat(0);
    let most = a + small_sigma0(a.shuffle(b, [1, 2, 3, 4])) + c.shuffle(d, [1, 2, 3, 4]);
    let two = most + small_sigma1(d.shuffle(zeros, [2, 3, 4, 5]));
    two + small_sigma1(zeros.shuffle(two, [0, 1, 4, 5]))
}
