// The PCRs that a selection picks, joined and hashed.
ghost use Rattle.std.specs.Prelude.{◌≡◌, ◌+◌, ◌*◌, ◌<◌, ◌≤◌, [], ◌++◌, length, slice_index_or};
ghost use Rattle.arrays.specs.Items.{items};
ghost use Rattle.interfaces.specs.States.{pcr_count, pcr_length};
ghost use Rattle.conditions.specs.Picking.{bit, byte_bits, picked};

use arrays::array_vec::ArrayVec;
use interfaces::digest::Digest;
use interfaces::hash::Hash;
use interfaces::state::{PCR_COUNT, PCR_LENGTH, ReaderState, read_pcr};
use policy::assertion::Selection;

const BYTE_BITS: usize = 8;

// All PCRs joined.
const JOINED_LIMIT: usize = PCR_COUNT * PCR_LENGTH;

fn is_set(byte: u8, i: usize) -> bool
    requires { i < byte_bits }
    ensures { result ≡ bit byte i }
{
    (byte >> i) & 1 == 1
}

// Puts the value of a PCR behind those before.
fn append_pcr<S: ReaderState>(state: &S, index: usize, joined: &mut ArrayVec<u8, JOINED_LIMIT>)
    requires number { index < pcr_count }
    requires room { length (items joined.old) + pcr_length ≤ JOINED_LIMIT }
    ensures end { length (items joined.new) ≡ length (items joined.old) + pcr_length }
    ensures joined { items joined.new ≡ items joined.old ++ slice_index_or (S.observed state.now).pcrs index [] }
{
    let value = read_pcr(state, index).unwrap();
    joined.extend(&value.bytes).unwrap();
}

// Joins the values of the picked PCRs in rising order.
fn join_picked<S: ReaderState>(state: &S, selection: &Selection) -> ArrayVec<u8, JOINED_LIMIT>
    ensures { items result ≡ picked selection.now.bytes (S.observed state.now).pcrs }
{
    let mut joined = ArrayVec::new(0);
    for (j, byte) in selection.bytes.iter().enumerate() {
        for i in 0..BYTE_BITS {
            if is_set(*byte, i) {
                append_pcr(state, BYTE_BITS * j + i, &mut joined);
            }
        }
    }
    joined
}

// The hash of the picked PCRs.
pub(crate) fn picked_digest<H: Hash, S: ReaderState>(
    hash: &H,
    state: &S,
    selection: &Selection,
) -> Digest
    ensures { result.bytes ≡ (H.meaning hash.now).digest (picked selection.now.bytes (S.observed state.now).pcrs) }
{
    Digest::of(hash, join_picked(state, selection).as_slice()).unwrap()
}
