// The policy calls on a session of either kind. Each is judged, its fields first, then against the
// records, then, in a policy session, against the state; refused, it changes nothing.
ghost use Rattle.std.specs.Prelude.{◌≡◌, map};
ghost use Rattle.interfaces.specs.Checks.{meant};
ghost use Rattle.policy.specs.Assertions.{command as command_of, locality as locality_of, nv as nv_of, password as password_of, pcr as pcr_of, presence as presence_of, time as time_of};
ghost use Rattle.policy.specs.Views.{given_of};
ghost use Rattle.calls.specs.Calls.{Call as AnyCall, assert, judged_call, or as or_of};
ghost use Rattle.calls.specs.Views.{call_of};
ghost use Rattle.session.specs.Cases.{WorkedSets};
ghost use Rattle.session.specs.Kept.{Makes};

use crate::kind::Kind;
use crate::session::Session;
use calls::call::Call;
use interfaces::code::Code;
use interfaces::fault::Refusal;
use interfaces::hash::Hash;
use interfaces::state::ReaderState;
use policy::assertion::{Assertion, GivenComparison, Selection};

impl<H: Hash, K: Kind> Session<H, K> {
    // Makes a call, if its fields are sound.
    fn take<S: ReaderState>(&mut self, state: &S, made: Result<Call, Code>) -> Result<(), Refusal>
        requires { (c : AnyCall) × (meant call_of made ≡ judged_call c) }
        ensures { (c : AnyCall) → meant call_of made ≡ judged_call c → Makes K.checked H.meaning (S.observed state.now) self.old c result self.new }
    {
        let call = made.map_err(Refusal::call)?;
        self.step(state, &call)
    }

    // The picked PCRs hash to the digest.
    pub fn pcr<S: ReaderState>(
        &mut self,
        state: &S,
        selection: Selection,
        digest: &[u8],
    ) -> Result<(), Refusal>
        ensures { Makes K.checked H.meaning (S.observed state.now) self.old (assert (pcr_of selection.bytes digest.now)) result self.new }
    {
        self.take(state, Call::pcr(selection, digest))
    }

    // The value stored under the Name compares.
    pub fn nv<S: ReaderState>(
        &mut self,
        state: &S,
        name: &[u8],
        comparison: GivenComparison<'_>,
    ) -> Result<(), Refusal>
        ensures { Makes K.checked H.meaning (S.observed state.now) self.old (assert (nv_of name.now (given_of comparison.entry))) result self.new }
    {
        self.take(state, Call::nv(name, comparison))
    }

    // The time info compares.
    pub fn time<S: ReaderState>(
        &mut self,
        state: &S,
        comparison: GivenComparison<'_>,
    ) -> Result<(), Refusal>
        ensures { Makes K.checked H.meaning (S.observed state.now) self.old (assert (time_of (given_of comparison.entry))) result self.new }
    {
        self.take(state, Call::time(comparison))
    }

    // The session is used at a locality of the set.
    pub fn locality<S: ReaderState>(&mut self, state: &S, set: u8) -> Result<(), Refusal>
        ensures sets { WorkedSets }
        ensures makes { Makes K.checked H.meaning (S.observed state.now) self.old (assert (locality_of set)) result self.new }
    {
        self.take(state, Call::locality(set))
    }

    // The session is used by the command of this code.
    pub fn command<S: ReaderState>(&mut self, state: &S, code: u32) -> Result<(), Refusal>
        ensures { Makes K.checked H.meaning (S.observed state.now) self.old (assert (command_of code)) result self.new }
    {
        self.take(state, Ok(Call::Assert(Assertion::Command(code))))
    }

    // A person shows presence where the session is used.
    pub fn presence<S: ReaderState>(&mut self, state: &S) -> Result<(), Refusal>
        ensures { Makes K.checked H.meaning (S.observed state.now) self.old (assert presence_of) result self.new }
    {
        self.take(state, Ok(Call::Assert(Assertion::Presence)))
    }

    // The book's password is given where the session is used.
    pub fn password<S: ReaderState>(&mut self, state: &S) -> Result<(), Refusal>
        ensures { Makes K.checked H.meaning (S.observed state.now) self.old (assert password_of) result self.new }
    {
        self.take(state, Ok(Call::Assert(Assertion::Password)))
    }

    // The session's digest is one of these.
    pub fn or<S: ReaderState>(&mut self, state: &S, digests: &[&[u8]]) -> Result<(), Refusal>
        ensures { Makes K.checked H.meaning (S.observed state.now) self.old (or_of (map (λ x. x.now) digests.now)) result self.new }
    {
        self.take(state, Call::or(digests))
    }
}
