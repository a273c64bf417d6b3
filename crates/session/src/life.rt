// Sessions made, restarted, read and ended.
ghost use Rattle.std.specs.Prelude.{◌≡◌, true, [], length};
ghost use Rattle.interfaces.specs.Checks.{done, left_in};
ghost use Rattle.session.specs.Events.{Follows, progress_after, restarted};
ghost use Rattle.session.specs.Kept.{Kept};
ghost use Rattle.session.specs.Steps.{fresh};
ghost use Rattle.session.specs.Reading.{read_digest};
ghost use Rattle.session.specs.Views.{progress_of};

use crate::kind::{Kind, Policy, Trial};
use crate::progress::Progress;
use crate::session::Session;
use interfaces::buffer::admit_length;
use interfaces::code::Code;
use interfaces::digest::DIGEST_LENGTH;
use interfaces::hash::Hash;
use policy::extend::zero_digest;

impl Progress {
    // The zero digest and no records.
    fn fresh<H: Hash>(hash: &H) -> Progress
        ensures { progress_of result ≡ fresh (H.meaning hash.now) }
    {
        Progress {
            digest: zero_digest(hash),
            count: None,
            command: None,
            localities: None,
            presence: false,
            password: false,
        }
    }
}

impl<H: Hash, K> Session<H, K> {
    fn fresh(hash: H, kind: K) -> Session<H, K>
        ensures fresh { progress_of result.progress ≡ fresh (H.meaning hash) }
        ensures hash { result.hash ≡ hash }
    {
        let progress = Progress::fresh(&hash);
        Session {
            hash,
            kind,
            progress,
        }
    }
}

impl<H: Hash> Session<H, Policy> {
    // A fresh policy session: no events lead to it.
    pub fn policy(hash: H) -> Session<H, Policy>
        ensures fresh { progress_of result.progress ≡ fresh (H.meaning hash) }
        ensures history { progress_after true (H.meaning hash) [] ≡ progress_of result.progress }
        ensures hash { result.hash ≡ hash }
    {
        Session::fresh(hash, Policy)
    }
}

impl<H: Hash> Session<H, Trial> {
    // A fresh trial session.
    pub fn trial(hash: H) -> Session<H, Trial>
        ensures fresh { progress_of result.progress ≡ fresh (H.meaning hash) }
        ensures hash { result.hash ≡ hash }
    {
        Session::fresh(hash, Trial)
    }
}

impl<H: Hash, K: Kind> Session<H, K> {
    // Makes the session fresh again.
    pub fn restart(&mut self)
        ensures after { progress_of self.new.progress ≡ fresh (H.meaning self.old.hash) }
        ensures follows { Follows (K.checked self.old.kind) (H.meaning self.old.hash) (progress_of self.old.progress) restarted (progress_of self.new.progress) }
        ensures kept { Kept self.old self.new }
    {
        self.progress = Progress::fresh(&self.hash);
    }

    // The digest and the records.
    pub fn progress(&self) -> Progress
        ensures { result ≡ self.now.progress }
    {
        self.progress
    }

    // The identifier of the session's hash.
    pub fn identifier(&self) -> u16
        ensures { result ≡ (H.meaning self.now.hash).identifier }
    {
        self.hash.identifier()
    }

    // Writes the session's digest.
    pub fn read_digest(&self, out: &mut [u8]) -> Result<(), Code>
        ensures answer { result ≡ done (read_digest (progress_of self.now.progress) (length out.old)) }
        ensures written { out.new ≡ left_in (length out.old) (read_digest (progress_of self.now.progress) (length out.old)) }
    {
        admit_length(out, DIGEST_LENGTH)?;
        out.copy_from_slice(&self.progress.digest.bytes);
        Ok(())
    }
}

impl<H: Hash, K: Kind + Drop> Session<H, K> {
    // Ends the session, and gives its hash back.
    pub fn end(self) -> H
        ensures { result ≡ self.hash }
    {
        let Session {
            hash,
            kind: _,
            progress: _,
        } = self;
        hash
    }
}
