// A policy call whose fields have passed their checks.
use crate::digests::Digests;
use policy::assertion::Assertion;

#[derive(Clone, Copy)]
pub enum Call {
    Assert(Assertion),
    // The session's digest is one of these.
    Or(Digests),
}
