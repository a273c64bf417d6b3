// The two kinds of session. A policy session checks calls against the reader state and records the
// change count; a trial session does neither.
ghost use Rattle.std.specs.Prelude.{◌≡◌, Bool, true, false};

pub trait Kind {
    ghost checked: { Self → Bool };

    fn is_checked(&self) -> bool
        ensures { result ≡ checked self.now };
}

#[derive(Clone, Copy)]
pub struct Policy;

impl Kind for Policy {
    ghost checked = { λ _. true };

    fn is_checked(&self) -> bool {
        true
    }
}

#[derive(Clone, Copy)]
pub struct Trial;

impl Kind for Trial {
    ghost checked = { λ _. false };

    fn is_checked(&self) -> bool {
        false
    }
}
