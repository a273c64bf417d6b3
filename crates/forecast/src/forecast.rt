// The state below, by value, and the planned PCRs over it.
use crate::planned::Planned;

#[derive(Drop)]
pub struct Forecast<S> {
    pub below: S,
    pub(crate) planned: Planned,
}
