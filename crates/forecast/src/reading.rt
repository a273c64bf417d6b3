// A forecast, read: a planned PCR has its planned value, all else is as below.
ghost use Rattle.forecast.specs.Plans.{forecast_snapshot};
ghost use Rattle.forecast.specs.Views.{plans_of};
ghost use Rattle.std.specs.Prelude.{◌≡◌, find, length, nat_eq};
ghost use Rattle.std.specs.Option.{option_map};
ghost use Rattle.arrays.specs.Items.{items};
ghost use Rattle.std.proofs.Common.{◌∙◌};
ghost use Rattle.interfaces.specs.Checks.{Bytes};
ghost use Rattle.interfaces.specs.States.{pcr_length};
ghost use Rattle.forecast.specs.Overlays.{overlaid-length, overlaid_all, planned_long, planned_bytes};

use crate::forecast::Forecast;
use crate::planned::{Planned, PlannedPcr};
use interfaces::code::Code;
use interfaces::state::{ReaderState, admit_pcr};

fn planned_pcr(planned: &Planned, index: usize) -> Option<&PlannedPcr>
    ensures { option_map (λ p. p.now) result ≡ find (λ p. nat_eq p.index index) (items planned.now) }
{
    planned.as_slice().iter().find(|p| p.index == index)
}

impl<S: ReaderState> ReaderState for Forecast<S> {
    ghost observed = { λ f. forecast_snapshot (plans_of f.planned) (S.ReaderState.observed f.below) };

    ghost lawful = { λ x.
        let s = S.ReaderState.observed x.below in
        let below = S.ReaderState.lawful x.below in
        let plans = plans_of x.planned in
        record {
          pcrs_all = overlaid-length plans 0 s.pcrs ∙ below.pcrs_all;
          pcrs_long = overlaid_all (λ p. length p ≡ pcr_length) plans (planned_long x.planned) 0 s.pcrs below.pcrs_long;
          pcrs_bytes = overlaid_all Bytes plans (planned_bytes x.planned) 0 s.pcrs below.pcrs_bytes;
          count_fits = below.count_fits;
          names_long = below.names_long;
          values_short = below.values_short;
          values_bytes = below.values_bytes;
          time_long = below.time_long;
          time_bytes = below.time_bytes;
          locality_within = below.locality_within;
        } };

    fn pcr(&self, index: usize, out: &mut [u8]) -> Result<(), Code> {
        admit_pcr(index, out)?;
        let Some(planned) = planned_pcr(&self.planned, index) else {
            return self.below.pcr(index, out);
        };
        out.copy_from_slice(&planned.value.bytes);
        Ok(())
    }

    fn change_count(&self) -> u64 {
        self.below.change_count()
    }

    fn stored_value(&self, name: &[u8], out: &mut [u8]) -> Result<usize, Code> {
        self.below.stored_value(name, out)
    }

    fn time_info(&self, out: &mut [u8]) -> Result<(), Code> {
        self.below.time_info(out)
    }

    fn locality(&self) -> u8 {
        self.below.locality()
    }

    fn presence(&self) -> bool {
        self.below.presence()
    }
}
