// One call on a session.
ghost use Rattle.std.specs.Prelude.{◌≡◌, None};
ghost use Rattle.interfaces.specs.Hashing.{digest_length};
ghost use Rattle.policy.specs.Reading.{refused_by};
ghost use Rattle.calls.specs.Calls.{call_flaw};
ghost use Rattle.calls.specs.Views.{call_of};
ghost use Rattle.session.specs.Kept.{Kept};
ghost use Rattle.session.specs.Steps.{refusal, stepped};
ghost use Rattle.session.specs.Views.{progress_of};

use crate::kind::Kind;
use crate::progress::Progress;
use crate::session::Session;
use crate::setting::Setting;
use calls::call::Call;
use interfaces::fault::Refusal;
use interfaces::hash::Hash;
use interfaces::state::ReaderState;

impl<H: Hash, S: ReaderState> Setting<'_, H, S> {
    // Makes a call whose fields have passed their checks; refused, it changes nothing.
    fn step(&self, progress: &mut Progress, call: &Call) -> Result<(), Refusal>
        requires { call_flaw digest_length (call_of call.now) ≡ None }
        ensures answer { result ≡ refused_by (refusal self.now.checked (H.meaning self.now.hash.now) (S.observed self.now.state.now) (progress_of progress.old) (call_of call.now)) tt }
        ensures after { progress_of progress.new ≡ stepped self.now.checked (H.meaning self.now.hash.now) (S.observed self.now.state.now) (progress_of progress.old) (call_of call.now) }
    {
        self.judge(progress, call)?;
        *progress = self.next(progress, call);
        Ok(())
    }
}

impl<H: Hash, K: Kind> Session<H, K> {
    // The same on a session of either kind.
    pub(crate) fn step<S: ReaderState>(&mut self, state: &S, call: &Call) -> Result<(), Refusal>
        requires { call_flaw digest_length (call_of call.now) ≡ None }
        ensures answer { result ≡ refused_by (refusal (K.checked self.old.kind) (H.meaning self.old.hash) (S.observed state.now) (progress_of self.old.progress) (call_of call.now)) tt }
        ensures after { progress_of self.new.progress ≡ stepped (K.checked self.old.kind) (H.meaning self.old.hash) (S.observed state.now) (progress_of self.old.progress) (call_of call.now) }
        ensures kept { Kept self.old self.new }
    {
        let setting = Setting {
            hash: &self.hash,
            state,
            checked: self.kind.is_checked(),
        };
        setting.step(&mut self.progress, call)
    }
}
