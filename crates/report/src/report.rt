// The bytes that a program prints.
ghost use Rattle.std.specs.Prelude.{◌≡◌, []};
ghost use Rattle.report.specs.Views.{report_bytes};

use arrays::array_vec::ArrayVec;

// The longest report on a policy text: three lines, two of them with a number of up to 20 digits, one
// with 64.
pub const REPORT_LIMIT: usize = 129;

// Room for the longest report on a state, with all its PCRs and values.
pub const STATE_REPORT_LIMIT: usize = 4000;

// A report of up to `N` bytes.
#[derive(Clone, Copy)]
pub struct Report<const N: usize> {
    pub(crate) text: ArrayVec<u8, N>,
}

impl<const N: usize> Report<N> {
    pub(crate) fn new() -> Report<N>
        ensures { report_bytes result ≡ [] }
    {
        Report {
            text: ArrayVec::new(0),
        }
    }

    pub fn as_bytes(&self) -> &[u8]
        ensures { result.now ≡ report_bytes self.now }
    {
        self.text.as_slice()
    }
}
