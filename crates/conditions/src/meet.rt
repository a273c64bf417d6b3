// The checks of an assertion against a reader state.
ghost use Rattle.std.specs.Prelude.{◌≡◌};
ghost use Rattle.interfaces.specs.declared.code.Code.TheVariants.{Range};
ghost use Rattle.interfaces.specs.Checks.{refused_with};
ghost use Rattle.policy.specs.Reading.{refused_by};
ghost use Rattle.policy.specs.Views.{assertion_of, comparison_of};
ghost use Rattle.conditions.specs.Cases.{WorkedComparisons, WorkedSelections};
ghost use Rattle.conditions.specs.Meeting.{comparison_unmet, pcrs_unmet, stored_unmet, unmet};

use crate::compare::compare;
use crate::picked::picked_digest;
use interfaces::code::Code;
use interfaces::digest::Digest;
use interfaces::fault::Refusal;
use interfaces::hash::Hash;
use interfaces::name::Name;
use interfaces::state::{ReaderState, VALUE_LIMIT, read_time};
use policy::assertion::{Assertion, Comparison, Selection};

fn check_pcrs<H: Hash, S: ReaderState>(
    hash: &H,
    state: &S,
    selection: &Selection,
    digest: &Digest,
) -> Result<(), Code>
    ensures { result ≡ refused_with (pcrs_unmet (H.meaning hash.now) (S.observed state.now) selection.now.bytes digest.now.bytes) tt }
{
    if picked_digest(hash, state, selection) == *digest {
        Ok(())
    } else {
        Err(Code::Value)
    }
}

fn check_comparison(value: &[u8], comparison: &Comparison, past: Code) -> Result<(), Code>
    ensures { result ≡ refused_with (comparison_unmet past value.now (comparison_of comparison.now)) tt }
{
    let operand = comparison.operand.as_slice();
    let offset = comparison.offset as usize;
    let end = offset + operand.len();
    if end > value.len() {
        return Err(past);
    }
    if !compare(comparison.operation, &value[offset..end], operand) {
        return Err(Code::Policy);
    }
    Ok(())
}

fn check_stored<S: ReaderState>(
    state: &S,
    name: &Name,
    comparison: &Comparison,
) -> Result<(), Refusal>
    ensures { result ≡ refused_by (stored_unmet ((S.observed state.now).stored name.now.bytes) (comparison_of comparison.now)) tt }
{
    let mut value = [0; VALUE_LIMIT];
    let len = state
        .stored_value(&name.bytes, &mut value)
        .map_err(Refusal::state)?;
    check_comparison(&value[..len], comparison, Code::NvRange).map_err(Refusal::call)
}

fn check_time<S: ReaderState>(state: &S, comparison: &Comparison) -> Result<(), Code>
    ensures { result ≡ refused_with (comparison_unmet Range (S.observed state.now).time (comparison_of comparison.now)) tt }
{
    check_comparison(&read_time(state), comparison, Code::Range)
}

// Judges what an assertion asks of the state as it is: the first refusal, if any.
pub fn meet<H: Hash, S: ReaderState>(
    hash: &H,
    state: &S,
    assertion: &Assertion,
) -> Result<(), Refusal>
    ensures comparisons { WorkedComparisons }
    ensures selections { WorkedSelections }
    ensures value { result ≡ refused_by (unmet (H.meaning hash.now) (S.observed state.now) (assertion_of assertion.now)) tt }
{
    match assertion {
        Assertion::Pcr(selection, digest) => {
            check_pcrs(hash, state, selection, digest).map_err(Refusal::call)
        }
        Assertion::Nv(name, comparison) => check_stored(state, name, comparison),
        Assertion::Time(comparison) => check_time(state, comparison).map_err(Refusal::call),
        Assertion::Locality(_) => Ok(()),
        Assertion::Command(_) => Ok(()),
        Assertion::Presence => Ok(()),
        Assertion::Password => Ok(()),
    }
}
