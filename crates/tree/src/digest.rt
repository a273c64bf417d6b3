// The digest of a policy text.
ghost use Rattle.std.specs.Prelude.{◌≡◌, length};
ghost use Rattle.interfaces.specs.Checks.{meant};
ghost use Rattle.interfaces.specs.Hashing.{digest_length};
ghost use Rattle.text.specs.Cut.{lines as text_lines};
ghost use Rattle.tree.specs.Answers.{figures, figures_of, digested, answer_of, written_of, Means};
ghost use Rattle.tree.specs.Texts.{size_fits, built};

use crate::stack::{LINE_LIMIT, Stack};
use crate::summary::Summary;
use interfaces::buffer::clear;
use interfaces::code::Code;
use interfaces::digest::{DIGEST_LENGTH, Digest};
use interfaces::fault::{Fault, Refusal};
use interfaces::hash::Hash;
use text::cut::count_lines;

// The most bytes of a policy text: 64 lines of 210 bytes, the longest a sound line has.
pub const TEXT_LIMIT: usize = 13440;

fn size_fits(text: &[u8], lines: usize) -> bool
    requires { lines ≡ length (text_lines text.now) }
    ensures { result ≡ size_fits text.now }
{
    text.len() <= TEXT_LIMIT && lines >= 1 && lines <= LINE_LIMIT
}

fn fold_text<H: Hash>(hash: &H, text: &[u8]) -> Result<(Digest, Summary), Fault>
    ensures { meant figures result ≡ figures_of (H.meaning hash.now) text.now (built digest_length text.now) }
{
    let lines = count_lines(text);
    if !size_fits(text, lines) {
        return Err(Refusal::text(Code::Size).at(0));
    }
    let mut stack = Stack::empty();
    stack.take_lines(hash, text)?;
    let [digest] = stack.digests.as_slice() else {
        return Err(Refusal::form().at(lines));
    };
    let summary = Summary {
        lines,
        branches: stack.branches,
    };
    Ok((*digest, summary))
}

// Digests a policy text: the number of its lines and branches, and the digest in the buffer, or the
// first fault and a buffer of zeros. A text is refused exactly when it writes down no sound tree.
pub fn digest_text<H: Hash>(hash: &H, text: &[u8], out: &mut [u8]) -> Result<Summary, Fault>
    ensures answer { result ≡ answer_of text.now (digested text.now (length out.old)) }
    ensures written { out.new ≡ written_of (H.meaning hash.now) (length out.old) (digested text.now (length out.old)) }
    ensures means { Means (H.meaning hash.now) text.now (length out.old) result out.new }
{
    clear(out);
    if out.len() != DIGEST_LENGTH {
        return Err(Refusal::call(Code::Size).at(0));
    }
    let (digest, summary) = fold_text(hash, text)?;
    out.copy_from_slice(&digest.bytes);
    Ok(summary)
}
