// Runs: the calls that the lines of a text stand for, up to the first refused one.
ghost use Rattle.std.specs.Prelude.{◌≡◌};
ghost use Rattle.policy.specs.Reading.{refused_by};
ghost use Rattle.session.specs.Kept.{Kept, Runs};
ghost use Rattle.session.specs.Runs.{line_after, line_refusal};
ghost use Rattle.session.specs.Views.{progress_of};

use crate::kind::Kind;
use crate::session::Session;
use calls::line::read_call;
use interfaces::code::Code;
use interfaces::fault::{Fault, Refusal};
use interfaces::hash::Hash;
use interfaces::state::ReaderState;
use text::cut::{Lines, count_lines};
use tree::LINE_LIMIT;
use tree::digest::TEXT_LIMIT;

impl<H: Hash, K: Kind> Session<H, K> {
    fn run_line<S: ReaderState>(&mut self, state: &S, line: &[u8]) -> Result<(), Refusal>
        ensures answer { result ≡ refused_by (line_refusal (K.checked self.old.kind) (H.meaning self.old.hash) (S.observed state.now) (progress_of self.old.progress) line.now) tt }
        ensures after { progress_of self.new.progress ≡ line_after (K.checked self.old.kind) (H.meaning self.old.hash) (S.observed state.now) (progress_of self.old.progress) line.now }
        ensures kept { Kept self.old self.new }
    {
        let call = read_call(line)?;
        self.step(state, &call)
    }

    // Runs a text of up to 64 calls, which may be empty: answers their number, or the first fault, before
    // which the earlier lines stand.
    pub fn run<S: ReaderState>(&mut self, state: &S, text: &[u8]) -> Result<usize, Fault>
        ensures { Runs K.checked H.meaning (S.observed state.now) self.old text.now result self.new }
    {
        let oversized = Refusal::text(Code::Size).at(0);
        if text.len() > TEXT_LIMIT {
            return Err(oversized);
        }
        let count = count_lines(text);
        if count > LINE_LIMIT {
            return Err(oversized);
        }
        for (i, line) in Lines::new(text).enumerate() {
            self.run_line(state, line)
                .map_err(|refusal| refusal.at(i + 1))?;
        }
        Ok(count)
    }
}
