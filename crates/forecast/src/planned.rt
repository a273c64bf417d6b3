// The planned PCRs: a plain table of up to eight.
use arrays::array_vec::ArrayVec;
use interfaces::pcr::Pcr;
use tables::put::Keyed;

pub const PLAN_COUNT: usize = 8;

#[derive(Clone, Copy)]
pub struct PlannedPcr {
    pub(crate) index: usize,
    pub(crate) value: Pcr,
}

impl Keyed for PlannedPcr {
    ghost use Rattle.std.specs.Prelude.{nat_eq};

    ghost same = { λ x y. nat_eq x.index y.index };

    fn has_key_of(&self, other: &PlannedPcr) -> bool {
        self.index == other.index
    }
}

pub type Planned = ArrayVec<PlannedPcr, PLAN_COUNT>;
