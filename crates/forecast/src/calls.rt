// A forecast made and planned.
ghost use Rattle.std.specs.Prelude.{◌≡◌, [], nat_eq};
ghost use Rattle.interfaces.specs.Checks.{refused_with, settled};
ghost use Rattle.forecast.specs.Plans.{forecast_snapshot, plan_flaw, with_pcr};
ghost use Rattle.forecast.specs.Views.{plans_of};
ghost use Rattle.tables.specs.Tables.{put_under};

use crate::forecast::Forecast;
use crate::planned::PlannedPcr;
use arrays::array_vec::ArrayVec;
use interfaces::code::Code;
use interfaces::pcr::Pcr;
use interfaces::state::{PCR_COUNT, ReaderState};
use tables::put::put;

impl<S: ReaderState> Forecast<S> {
    // A forecast with nothing planned: it means what the state below means.
    pub fn new(below: S) -> Forecast<S>
        ensures plans { plans_of result.planned ≡ [] }
        ensures below { result.below ≡ below }
        ensures means { forecast_snapshot (plans_of result.planned) (S.ReaderState.observed result.below) ≡ S.ReaderState.observed below }
    {
        let blank = PlannedPcr {
            index: 0,
            value: Pcr::zero(),
        };
        let planned = ArrayVec::new(blank);
        Forecast { below, planned }
    }

    // Plans the value of a PCR, in the place of one that was planned for it.
    pub fn plan(&mut self, index: usize, value: &[u8]) -> Result<(), Code>
        ensures answer { result ≡ refused_with (plan_flaw (plans_of self.old.planned) index value.now) tt }
        ensures plans { plans_of self.new.planned ≡ settled (plan_flaw (plans_of self.old.planned) index value.now) (put_under nat_eq (plans_of self.old.planned) index value.now) (plans_of self.old.planned) }
        ensures below { self.new.below ≡ self.old.below }
        ensures means { forecast_snapshot (plans_of self.new.planned) (S.ReaderState.observed self.new.below) ≡ settled (plan_flaw (plans_of self.old.planned) index value.now) (with_pcr (forecast_snapshot (plans_of self.old.planned) (S.ReaderState.observed self.old.below)) index value.now) (forecast_snapshot (plans_of self.old.planned) (S.ReaderState.observed self.old.below)) }
    {
        let value = Pcr::try_from(value)?;
        if index >= PCR_COUNT {
            return Err(Code::Value);
        }
        put(&mut self.planned, PlannedPcr { index, value }).map_err(|_| Code::Memory)
    }
}
