// The shipped reader stands on a forecast with nothing planned over its own state.
ghost use Rattle.std.specs.Prelude.{◌≡◌, []};
ghost use Rattle.forecast.specs.Views.{plans_of};

use forecast::forecast::Forecast;
use state::own::Own;

#[derive(Drop)]
pub struct Reader {
    pub(crate) state: Forecast<Own>,
    ghost unplanned: { plans_of state.planned ≡ [] },
}
