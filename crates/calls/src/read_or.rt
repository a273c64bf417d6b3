// The digests of an `or` line: the form of all fields first, then their number and lengths.
ghost use Rattle.std.specs.Prelude.{◌≡◌, is_some};
ghost use Rattle.std.specs.Option.{option_map};
ghost use Rattle.interfaces.specs.Checks.{meant};
ghost use Rattle.interfaces.specs.Hashing.{digest_length};
ghost use Rattle.text.specs.Cut.{further};
ghost use Rattle.policy.specs.Reading.{judged};
ghost use Rattle.calls.specs.Calls.{or};
ghost use Rattle.calls.specs.Filling.{Fills};
ghost use Rattle.calls.specs.Reading.{call_line_flaw, unpaired_all};
ghost use Rattle.calls.specs.Views.{digests_of};

use crate::digests::{Digests, FEWEST_DIGESTS, MOST_DIGESTS};
use arrays::array_vec::ArrayVec;
use interfaces::code::Code;
use interfaces::digest::Digest;
use interfaces::fault::Refusal;
use text::cut::Fields;
use text::pairs::{decode, pair_count};

// Whether every field is digit pairs.
fn all_paired(rest: Option<&[u8]>) -> bool
    ensures { result ≡ is_some (unpaired_all (further (option_map (λ x. x.now) rest.entry))) }
{
    Fields::new(rest).all(|field| pair_count(field).is_some())
}

// The digests that the fields are; none where one is no digest, or they are too many.
fn fill_digests(rest: Option<&[u8]>) -> Option<ArrayVec<Digest, MOST_DIGESTS>>
    ensures { Fills (further (option_map (λ x. x.now) rest.entry)) result }
{
    let mut digests = ArrayVec::new(Digest::zero());
    for field in Fields::new(rest) {
        let bytes = decode(field)?;
        digests.push(Digest { bytes }).ok()?;
    }
    Some(digests)
}

pub(crate) fn read_digests(rest: Option<&[u8]>) -> Result<Digests, Refusal>
    ensures { meant (λ d. or (digests_of d)) result ≡ judged (call_line_flaw digest_length) (option_map or (unpaired_all (further (option_map (λ x. x.now) rest.entry)))) }
{
    if !all_paired(rest) {
        return Err(Refusal::form());
    }
    let digests = fill_digests(rest).ok_or(Refusal::call(Code::Size))?;
    if digests.len() < FEWEST_DIGESTS {
        return Err(Refusal::call(Code::Size));
    }
    Ok(Digests { digests })
}
