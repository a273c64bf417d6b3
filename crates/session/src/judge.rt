// The checks of a call against the records and the state.
ghost use Rattle.std.specs.Prelude.{◌≡◌, not, map, None, ◌==◌};
ghost use Rattle.std.specs.Option.{option_map};
ghost use Rattle.interfaces.specs.declared.code.Code.TheVariants.{Value, Range};
ghost use Rattle.interfaces.specs.Checks.{first, refused_with, unless};
ghost use Rattle.interfaces.specs.Faults.{call_refusal};
ghost use Rattle.interfaces.specs.Hashing.{digest_length};
ghost use Rattle.policy.specs.Reading.{refused_by};
ghost use Rattle.policy.specs.Views.{assertion_of, digest_bytes};
ghost use Rattle.calls.specs.Calls.{call_flaw};
ghost use Rattle.calls.specs.Views.{call_of};
ghost use Rattle.conditions.specs.Meeting.{unmet};
ghost use Rattle.session.specs.Steps.{allows, among, common_set, count_flaw, record_flaw, refusal, state_flaw};
ghost use Rattle.session.specs.Views.{progress_of};

use crate::progress::Progress;
use crate::setting::Setting;
use calls::call::Call;
use conditions::meet::meet;
use interfaces::code::Code;
use interfaces::digest::Digest;
use interfaces::fault::Refusal;
use interfaces::hash::Hash;
use interfaces::state::ReaderState;
use policy::assertion::Assertion;

// The bits common with the recorded set, or the set itself where none is recorded.
pub(crate) fn common_set(recorded: Option<u8>, set: u8) -> u8
    ensures { result ≡ common_set recorded set }
{
    recorded.map_or(set, |old| old & set)
}

fn judge_set(recorded: Option<u8>, set: u8) -> Result<(), Code>
    ensures { result ≡ refused_with (unless (not ((common_set recorded set) == 0)) Range) tt }
{
    if common_set(recorded, set) == 0 {
        return Err(Code::Range);
    }
    Ok(())
}

// A record allows the same value again, and any where nothing is recorded.
pub fn judge_same<T: PartialEq + Drop>(
    recorded: Option<T>,
    value: T,
    refused: Code,
) -> Result<(), Code>
    ensures { result ≡ refused_with (unless (allows T.eq recorded value) refused) tt }
{
    match recorded {
        Some(old) if old != value => Err(refused),
        _ => Ok(()),
    }
}

impl Progress {
    fn judge_records(&self, call: &Call) -> Result<(), Code>
        ensures { result ≡ refused_with (record_flaw (progress_of self.now) (call_of call.now)) tt }
    {
        match call {
            Call::Assert(Assertion::Locality(set)) => judge_set(self.localities, *set),
            Call::Assert(Assertion::Command(code)) => judge_same(self.command, *code, Code::Value),
            _ => Ok(()),
        }
    }

    fn judge_assertion(&self, count: u64, assertion: &Assertion) -> Result<(), Code>
        ensures { result ≡ refused_with (count_flaw (progress_of self.now) count (assertion_of assertion.now)) tt }
    {
        match assertion {
            Assertion::Pcr(_, _) => judge_same(self.count, count, Code::PcrChanged),
            _ => Ok(()),
        }
    }

    fn judge_digest(&self, digests: &[Digest]) -> Result<(), Code>
        ensures { result ≡ refused_with (unless (among (progress_of self.now).digest (map digest_bytes digests.now)) Value) tt }
    {
        if !digests.contains(&self.digest) {
            return Err(Code::Value);
        }
        Ok(())
    }
}

impl<H: Hash, S: ReaderState> Setting<'_, H, S> {
    fn judge_assertion(&self, progress: &Progress, assertion: &Assertion) -> Result<(), Refusal>
        ensures { result ≡ refused_by (first (option_map call_refusal (count_flaw (progress_of progress.now) (S.observed self.now.state.now).count (assertion_of assertion.now))) (unmet (H.meaning self.now.hash.now) (S.observed self.now.state.now) (assertion_of assertion.now))) tt }
    {
        let count = self.state.change_count();
        progress
            .judge_assertion(count, assertion)
            .map_err(Refusal::call)?;
        meet(self.hash, self.state, assertion)
    }

    fn judge_state(&self, progress: &Progress, call: &Call) -> Result<(), Refusal>
        ensures { result ≡ refused_by (state_flaw (H.meaning self.now.hash.now) (S.observed self.now.state.now) (progress_of progress.now) (call_of call.now)) tt }
    {
        match call {
            Call::Assert(assertion) => self.judge_assertion(progress, assertion),
            Call::Or(digests) => progress
                .judge_digest(digests.as_slice())
                .map_err(Refusal::call),
        }
    }

    // The first refusal of a call whose fields have passed their checks.
    pub(crate) fn judge(&self, progress: &Progress, call: &Call) -> Result<(), Refusal>
        requires { call_flaw digest_length (call_of call.now) ≡ None }
        ensures { result ≡ refused_by (refusal self.now.checked (H.meaning self.now.hash.now) (S.observed self.now.state.now) (progress_of progress.now) (call_of call.now)) tt }
    {
        progress.judge_records(call).map_err(Refusal::call)?;
        if !self.checked {
            return Ok(());
        }
        self.judge_state(progress, call)
    }
}
