// The one entry, for every hash.
ghost use Rattle.std.specs.Prelude.{◌≡◌, length};
ghost use Rattle.tree.specs.Answers.{digested, answer_of, written_of};
ghost use Rattle.firmware.specs.Answers.{in_numbers};

use crate::answer::Answer;
use interfaces::hash::Hash;
use tree::digest::digest_text;

pub(crate) fn digest_entry<H: Hash>(hash: &H, text: &[u8], out: &mut [u8]) -> Answer
    ensures answer { result ≡ in_numbers (answer_of text.now (digested text.now (length out.old))) }
    ensures written { out.new ≡ written_of (H.meaning hash.now) (length out.old) (digested text.now (length out.old)) }
{
    match digest_text(hash, text, out) {
        Ok(summary) => Answer {
            lines: summary.lines,
            branches: summary.branches,
            line: 0,
            layer: 0,
            code: 0,
        },
        Err(fault) => Answer {
            lines: 0,
            branches: 0,
            line: fault.line,
            layer: fault.layer.into(),
            code: fault.code.into(),
        },
    }
}
