// Lines put on the stack.
ghost use Rattle.std.specs.Prelude.{◌≡◌, ◌<◌, ◌≤◌, [], ◌∷◌, ◌++◌, take, None};
ghost use Rattle.interfaces.specs.Hashing.{digest_length};
ghost use Rattle.policy.specs.Views.{line_of, assertion_of};
ghost use Rattle.policy.specs.Lines.{start, any, extend, fewest_trees, most_trees, line_flaw};
ghost use Rattle.tree.specs.Texts.{line_limit};
ghost use Rattle.tree.specs.Views.{stack_of, HasRoom, Put, shows};

use crate::stack::Stack;
use arrays::array_vec::ArrayVec;
use interfaces::digest::Digest;
use interfaces::fault::Refusal;
use interfaces::hash::Hash;
use policy::assertion::Assertion;
use policy::extend::{extend_digest, join_digests, zero_digest};
use policy::line::Line;

impl Stack {
    pub(crate) fn empty() -> Stack
        ensures { shows result ≡ ([], 0) }
    {
        Stack {
            digests: ArrayVec::new(Digest::zero()),
            branches: 0,
        }
    }

    fn begin_tree<H: Hash>(&mut self, hash: &H)
        requires { HasRoom self.old }
        ensures { Put (H.meaning hash.now) start self.old (Ok tt) self.new }
    {
        self.digests.push(zero_digest(hash)).unwrap();
        self.branches += 1;
    }

    // One tree in the place of all but the first `low`.
    fn replace(&mut self, low: usize, digest: Digest)
        requires { low < line_limit }
        ensures digests { stack_of self.new ≡ take low (stack_of self.old) ++ digest.bytes ∷ [] }
        ensures branches { self.new.branches ≡ self.old.branches }
    {
        self.digests.truncate(low);
        self.digests.push(digest).unwrap();
    }

    fn extend_top<H: Hash>(&mut self, hash: &H, assertion: &Assertion) -> Result<(), Refusal>
        ensures { Put (H.meaning hash.now) (extend (assertion_of assertion.now)) self.old result self.new }
    {
        let height = self.digests.len();
        let low = height.checked_sub(1).ok_or(Refusal::form())?;
        let digest = extend_digest(hash, &self.digests.as_slice()[low], assertion);
        self.replace(low, digest);
        Ok(())
    }

    fn join_top<H: Hash>(&mut self, hash: &H, trees: usize) -> Result<(), Refusal>
        requires few { fewest_trees ≤ trees }
        requires many { trees ≤ most_trees }
        ensures { Put (H.meaning hash.now) (any trees) self.old result self.new }
    {
        let height = self.digests.len();
        let low = height.checked_sub(trees).ok_or(Refusal::form())?;
        let digest = join_digests(hash, &self.digests.as_slice()[low..]).map_err(Refusal::text)?;
        self.replace(low, digest);
        Ok(())
    }

    pub(crate) fn grow<H: Hash>(&mut self, hash: &H, line: Line) -> Result<(), Refusal>
        requires room { HasRoom self.old }
        requires sound { line_flaw digest_length (line_of line) ≡ None }
        ensures { Put (H.meaning hash.now) (line_of line) self.old result self.new }
    {
        match line {
            Line::Start => {
                self.begin_tree(hash);
                Ok(())
            }
            Line::Any(trees) => self.join_top(hash, trees),
            Line::Extend(assertion) => self.extend_top(hash, &assertion),
        }
    }
}
