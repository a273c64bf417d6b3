// What a call is judged by.

// The hash, the reader state, and whether calls are checked against the state.
#[derive(Clone, Copy)]
pub(crate) struct Setting<'a, H, S> {
    pub(crate) hash: &'a H,
    pub(crate) state: &'a S,
    pub(crate) checked: bool,
}
