// How far a session has come: its digest, and what its calls recorded.
use interfaces::digest::Digest;

#[derive(Clone, Copy)]
pub struct Progress {
    pub digest: Digest,
    // The change count of the state at a `pcr` call.
    pub count: Option<u64>,
    // The code of the one command that may use the session.
    pub command: Option<u32>,
    // The localities at which it may be used, a byte with a bit for each.
    pub localities: Option<u8>,
    pub presence: bool,
    pub password: bool,
}
