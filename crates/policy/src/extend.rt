// Digests extended by an assertion and joined: the strings that are hashed.
ghost use Rattle.std.specs.Prelude.{◌≡◌, ◌+◌, ◌*◌, ◌≤◌, ◌++◌, map, length};
ghost use Rattle.std.specs.List.{flat_map};
ghost use Rattle.arrays.specs.Items.{items};
ghost use Rattle.interfaces.specs.Checks.{meant};
ghost use Rattle.interfaces.specs.Hashing.{zeros};
ghost use Rattle.policy.specs.Lines.{be4};
ghost use Rattle.policy.specs.Cases.{PasswordHashes36, AnyOfEightHashes292};
ghost use Rattle.policy.specs.Strings.{comparison_string, body, extended, or_code, join_answer};
ghost use Rattle.policy.specs.Views.{assertion_of, comparison_of, digest_bytes};

use crate::assertion::{Assertion, Comparison};
use crate::commands::POLICY_OR;
use crate::line::{FEWEST_TREES, MOST_TREES};
use crate::operand::OPERAND_LIMIT;
use arrays::array_vec::ArrayVec;
use interfaces::code::Code;
use interfaces::digest::{DIGEST_LENGTH, Digest};
use interfaces::hash::Hash;
use interfaces::name::NAME_LENGTH;

// A command code's length.
const CODE_LENGTH: usize = 4;

// The longest string hashed for a comparison: its operand, offset and operation.
const COMPARISON_LIMIT: usize = OPERAND_LIMIT + 2 + 2;

// The most that follows a command code, for `nv`.
const BODY_LIMIT: usize = DIGEST_LENGTH + NAME_LENGTH;

// The longest of the strings hashed to extend a digest.
const STEP_LIMIT: usize = DIGEST_LENGTH + CODE_LENGTH + BODY_LIMIT;

// The string hashed to join the most digests.
const JOIN_LIMIT: usize = DIGEST_LENGTH + CODE_LENGTH + MOST_TREES * DIGEST_LENGTH;

// One bank is selected, SHA-256's, by three bytes.
const BANK: [u8; 7] = [0, 0, 0, 1, 0, 0x0b, 3];

// Puts bytes for which there is room.
fn append<const N: usize>(text: &mut ArrayVec<u8, N>, more: &[u8])
    requires { length (items text.old) + length more.now ≤ N }
    ensures { items text.new ≡ items text.old ++ more.now }
{
    text.extend(more).unwrap();
}

// The zero digest, with which every tree begins.
pub fn zero_digest<H: Hash>(hash: &H) -> Digest
    ensures { result.bytes ≡ zeros (H.meaning hash.now) }
{
    let _ = hash;
    Digest::zero()
}

fn comparison_digest<H: Hash>(hash: &H, comparison: &Comparison) -> Digest
    ensures { result.bytes ≡ (H.meaning hash.now).digest (comparison_string (comparison_of comparison.now)) }
{
    let mut text = ArrayVec::<u8, COMPARISON_LIMIT>::new(0);
    append(&mut text, comparison.operand.as_slice());
    append(&mut text, &comparison.offset.to_be_bytes());
    append(&mut text, &u16::from(comparison.operation).to_be_bytes());
    Digest::of(hash, text.as_slice()).unwrap()
}

// Puts what follows the command code in the string hashed.
fn append_body<H: Hash, const N: usize>(hash: &H, assertion: &Assertion, text: &mut ArrayVec<u8, N>)
    requires { length (items text.old) + BODY_LIMIT ≤ N }
    ensures { items text.new ≡ items text.old ++ body (H.meaning hash.now) (assertion_of assertion.now) }
{
    match assertion {
        Assertion::Pcr(selection, digest) => {
            append(text, &BANK);
            append(text, &selection.bytes);
            append(text, &digest.bytes);
        }
        Assertion::Nv(name, comparison) => {
            append(text, &comparison_digest(hash, comparison).bytes);
            append(text, &name.bytes);
        }
        Assertion::Time(comparison) => append(text, &comparison_digest(hash, comparison).bytes),
        Assertion::Locality(set) => append(text, &[*set]),
        Assertion::Command(code) => append(text, &code.to_be_bytes()),
        Assertion::Presence => {}
        Assertion::Password => {}
    }
}

// The digest extended by an assertion.
pub fn extend_digest<H: Hash>(hash: &H, old: &Digest, assertion: &Assertion) -> Digest
    ensures password_case { PasswordHashes36 }
    ensures value { result.bytes ≡ extended (H.meaning hash.now) old.now.bytes (assertion_of assertion.now) }
{
    let mut text = ArrayVec::<u8, STEP_LIMIT>::new(0);
    append(&mut text, &old.bytes);
    append(&mut text, &assertion.command_code().to_be_bytes());
    append_body(hash, assertion, &mut text);
    Digest::of(hash, text.as_slice()).unwrap()
}

fn append_digests<const N: usize>(text: &mut ArrayVec<u8, N>, digests: &[Digest])
    requires { length (items text.old) + DIGEST_LENGTH * length digests.now ≤ N }
    ensures { items text.new ≡ items text.old ++ flat_map digest_bytes digests.now }
{
    for digest in digests {
        append(text, &digest.bytes);
    }
}

// The digest that two to eight digests are joined into, lowest first: in front stands the zero
// digest, whatever was before.
pub fn join_digests<H: Hash>(hash: &H, digests: &[Digest]) -> Result<Digest, Code>
    ensures any_case { AnyOfEightHashes292 }
    ensures value { meant digest_bytes result ≡ join_answer (H.meaning hash.now) (map digest_bytes digests.now) }
{
    if digests.len() < FEWEST_TREES || digests.len() > MOST_TREES {
        return Err(Code::Size);
    }
    let mut text = ArrayVec::<u8, JOIN_LIMIT>::new(0);
    append(&mut text, &zero_digest(hash).bytes);
    append(&mut text, &POLICY_OR.to_be_bytes());
    append_digests(&mut text, digests);
    Digest::of(hash, text.as_slice())
}
