// The rounds on the eight working variables.
ghost use Rattle.std.specs.Prelude.{◌≡◌, length};
ghost use Rattle.sha256.specs.Constants.{K};
ghost use Rattle.sha256.specs.Sha256.{round, rounds, schedule, sums};

use crate::constants::{BLOCK, ROUND_CONSTANTS, State};
use crate::functions::{big_sigma0, big_sigma1, ch, maj};
use crate::schedule::{LANES, VECTOR_BYTES, next_words, words_of};
use std::array;
use std::simd::prelude::*;

// A round needs no more of its constant and its word than their sum.
fn one_round(v: State, sum: u32) -> State
    ensures { result ≡ round v 0 sum }
{
    let [a, b, c, d, e, f, g, h] = v;
    let t1 = h
        .wrapping_add(big_sigma1(e))
        .wrapping_add(ch(e, f, g))
        .wrapping_add(sum);
    let t2 = big_sigma0(a).wrapping_add(maj(a, b, c));
    [t1.wrapping_add(t2), a, b, c, d.wrapping_add(t1), e, f, g]
}

fn four_rounds(v: State, k: u32x4, w: u32x4) -> State
    ensures { result ≡ rounds k w v }
{
    let terms = (k + w).to_array();
    let v1 = one_round(v, terms[0]);
    let v2 = one_round(v1, terms[1]);
    let v3 = one_round(v2, terms[2]);
    one_round(v3, terms[3])
}

// The rounds of a block. The schedule goes along with them, a window of its next sixteen words in
// four vectors: its work then fills the time in which a round waits for the one before.
pub(crate) fn all_rounds(start: State, block: &[u8; BLOCK]) -> State
    ensures { result ≡ rounds K (schedule block.now) start }
{
    let (parts, _) = block.as_chunks::<VECTOR_BYTES>();
    let mut a = words_of(&parts[0]);
    let mut b = words_of(&parts[1]);
    let mut c = words_of(&parts[2]);
    let mut d = words_of(&parts[3]);
    let mut v = start;
    let (constants, _) = ROUND_CONSTANTS.as_chunks::<LANES>();
    for four in constants {
        let later = four_rounds(v, u32x4::from_array(*four), a);
        v = later;
        let next = next_words(a, b, c, d);
        a = b;
        b = c;
        c = d;
        d = next;
    }
    v
}

// The sums, word by word, that end a block.
pub(crate) fn add_all(v: State, h: State) -> State
    ensures { result ≡ sums v h }
{
    array::from_fn(|i| v[i].wrapping_add(h[i]))
}
