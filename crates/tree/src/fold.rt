// All lines of a policy text, from the first to the last.
ghost use Rattle.std.specs.Prelude.{◌≡◌, ◌≤◌, [], length};
ghost use Rattle.interfaces.specs.Checks.{meant};
ghost use Rattle.interfaces.specs.Hashing.{digest_length};
ghost use Rattle.policy.specs.Reading.{read_line};
ghost use Rattle.text.specs.Cut.{lines};
ghost use Rattle.tree.specs.Stacks.{grown, tree_figure};
ghost use Rattle.tree.specs.Texts.{line_limit};
ghost use Rattle.tree.specs.Views.{HasRoom, Took, shows, shows_of};

use crate::stack::Stack;
use interfaces::fault::{Fault, Refusal};
use interfaces::hash::Hash;
use policy::line::read_line;
use text::cut::Lines;

impl Stack {
    fn take_line<H: Hash>(&mut self, hash: &H, line: &[u8]) -> Result<(), Refusal>
        requires { HasRoom self.old }
        ensures { Took (H.meaning hash.now) (read_line digest_length line.now) self.old result self.new }
    {
        self.grow(hash, read_line(line)?)
    }

    // Takes all lines of a text, from the empty stack on, or answers the fault of the first that is
    // refused. The stack is the caller's, so that firmware's holds it once.
    pub(crate) fn take_lines<H: Hash>(&mut self, hash: &H, text: &[u8]) -> Result<(), Fault>
        requires few { length (lines text.now) ≤ line_limit }
        requires empty { shows self.old ≡ ([], 0) }
        ensures { meant (λ _. shows self.new) result ≡ meant (shows_of (H.meaning hash.now)) (grown tree_figure digest_length 0 (lines text.now) []) }
    {
        for (i, line) in Lines::new(text).enumerate() {
            self.take_line(hash, line)
                .map_err(|refusal| refusal.at(i + 1))?;
        }
        Ok(())
    }
}
