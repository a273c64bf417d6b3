// The reader's own state.
ghost use Rattle.std.specs.Prelude.{◌≡◌, ◌^◌, ◌<◌, ◌≤◌, length};
ghost use Rattle.interfaces.specs.States.{pcr_count, last_locality};

use crate::time::TimeInfo;
use crate::values::Values;
use interfaces::pcr::Pcr;
use interfaces::state::PCR_COUNT;

#[derive(Drop)]
pub struct Own {
    pub(crate) pcrs: [Pcr; PCR_COUNT],
    pub(crate) count: u64,
    pub(crate) values: Values,
    pub(crate) time: TimeInfo,
    pub(crate) locality: u8,
    pub(crate) presence: bool,
    ghost all: { length pcrs ≡ pcr_count },
    ghost fits: { count < 2 ^ 64 },
    ghost within: { locality ≤ last_locality },
}
