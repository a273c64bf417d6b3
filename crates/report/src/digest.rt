// The report on a policy text.
ghost use Rattle.std.specs.Prelude.{◌≡◌};
ghost use Rattle.report.specs.Reports.{digest_report};
ghost use Rattle.report.specs.Views.{report_bytes};

use crate::report::{REPORT_LIMIT, Report};
use interfaces::digest::Digest;
use interfaces::hash::Hash;
use tree::digest::digest_text;

// The lines that say what a policy text digests to, or its fault.
pub fn digest_report<H: Hash>(hash: &H, text: &[u8]) -> Report<REPORT_LIMIT>
    ensures { report_bytes result ≡ digest_report (H.meaning hash.now) text.now }
{
    let mut digest = Digest::zero();
    let mut report = Report::new();
    match digest_text(hash, text, &mut digest.bytes) {
        Ok(summary) => report.add_summary(&summary, &digest),
        Err(fault) => report.add_fault(&fault),
    }
    report
}
