// What an accepted call leaves: the new digest, and its record.
ghost use Rattle.std.specs.Prelude.{◌≡◌};
ghost use Rattle.policy.specs.Views.{assertion_of};
ghost use Rattle.calls.specs.Views.{call_of};
ghost use Rattle.session.specs.Steps.{after, recorded, with_digest};
ghost use Rattle.session.specs.Views.{progress_of};

use crate::judge::common_set;
use crate::progress::Progress;
use crate::setting::Setting;
use calls::call::Call;
use interfaces::digest::Digest;
use interfaces::hash::Hash;
use interfaces::state::ReaderState;
use policy::assertion::Assertion;
use policy::extend::{extend_digest, join_digests};

impl Progress {
    // What an accepted assertion records, where the state's change count is `current`.
    fn with_record(self, checked: bool, current: u64, assertion: &Assertion) -> Progress
        ensures { progress_of result ≡ recorded checked current (assertion_of assertion.now) (progress_of self) }
    {
        let mut next = self;
        match assertion {
            Assertion::Pcr(_, _) => {
                if checked {
                    next.count = Some(current);
                }
            }
            Assertion::Nv(_, _) => {}
            Assertion::Time(_) => {}
            Assertion::Locality(set) => next.localities = Some(common_set(self.localities, *set)),
            Assertion::Command(code) => next.command = Some(*code),
            Assertion::Presence => next.presence = true,
            Assertion::Password => next.password = true,
        }
        next
    }

    fn with_digest(self, digest: Digest) -> Progress
        ensures { progress_of result ≡ with_digest (progress_of self) digest.bytes }
    {
        Progress { digest, ..self }
    }
}

impl<H: Hash, S: ReaderState> Setting<'_, H, S> {
    // The session after an accepted call.
    pub(crate) fn next(&self, progress: &Progress, call: &Call) -> Progress
        ensures { progress_of result ≡ after self.now.checked (H.meaning self.now.hash.now) (S.observed self.now.state.now) (progress_of progress.now) (call_of call.now) }
    {
        match call {
            Call::Assert(assertion) => {
                let digest = extend_digest(self.hash, &progress.digest, assertion);
                let count = self.state.change_count();
                progress
                    .with_digest(digest)
                    .with_record(self.checked, count, assertion)
            }
            Call::Or(digests) => {
                // An `or` has two to eight digests, so that joining them always succeeds.
                let digest = join_digests(self.hash, digests.as_slice()).unwrap();
                progress.with_digest(digest)
            }
        }
    }
}
