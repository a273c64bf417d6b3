// A session: its hash, its kind and how far it has come. It is neither copied nor let go: it is ended.
use crate::progress::Progress;

pub struct Session<H, K> {
    pub(crate) hash: H,
    pub(crate) kind: K,
    pub(crate) progress: Progress,
}
