// The report on a run over a state block.
ghost use Rattle.std.specs.Prelude.{◌≡◌, ◌+◌, ◌*◌, ◌≤◌, [], ◌∷◌, length, codes, decimal};
ghost use Rattle.text.specs.Pairs.{pairs};
ghost use Rattle.policy.specs.Lines.{be4};
ghost use Rattle.session.specs.Views.{progress_of};
ghost use Rattle.report.specs.RunReports.{run_report, shown_lines, shown_need, shown_progress, shown_record};
ghost use Rattle.report.specs.Reports.{labelled};
ghost use Rattle.report.specs.Rooms.{lines_room, progress_room};
ghost use Rattle.report.specs.Views.{Adds, report_bytes};

use crate::report::{Report, STATE_REPORT_LIMIT};
use block::block::Block;
use interfaces::fault::{Fault, Refusal};
use interfaces::hash::Hash;
use session::progress::Progress;
use session::session::Session;

impl<const N: usize> Report<N> {
    fn add_recorded_count(&mut self, count: Option<u64>)
        requires { length (report_bytes self.old) + 27 ≤ N }
        ensures { Adds (report_bytes self.old) (shown_record (codes "count") decimal count) 27 (report_bytes self.new) }
    {
        match count {
            Some(n) => self.add_count(b"count", n as usize),
            None => self.add_word(b"count", b"none"),
        }
    }

    fn add_recorded_command(&mut self, command: Option<u32>)
        requires { length (report_bytes self.old) + 17 ≤ N }
        ensures { Adds (report_bytes self.old) (shown_record (codes "command") (λ code. pairs (be4 code)) command) 17 (report_bytes self.new) }
    {
        match command {
            Some(code) => self.add_bytes(b"command", &code.to_be_bytes()),
            None => self.add_word(b"command", b"none"),
        }
    }

    fn add_recorded_set(&mut self, localities: Option<u8>)
        requires { length (report_bytes self.old) + 16 ≤ N }
        ensures { Adds (report_bytes self.old) (shown_record (codes "localities") (λ set. pairs (set ∷ [])) localities) 16 (report_bytes self.new) }
    {
        match localities {
            Some(set) => self.add_bytes(b"localities", &[set]),
            None => self.add_word(b"localities", b"none"),
        }
    }

    fn add_need(&mut self, word: &[u8], needed: bool)
        requires { length (report_bytes self.old) + length word.now + 5 ≤ N }
        ensures { Adds (report_bytes self.old) (shown_need word.now needed) (length word.now + 5) (report_bytes self.new) }
    {
        self.add_word(word, if needed { b"yes" } else { b"no" });
    }

    pub(crate) fn add_progress(&mut self, progress: &Progress)
        requires { length (report_bytes self.old) + progress_room ≤ N }
        ensures { Adds (report_bytes self.old) (shown_progress (progress_of progress.now)) progress_room (report_bytes self.new) }
    {
        self.add_bytes(b"digest", &progress.digest.bytes);
        self.add_recorded_count(progress.count);
        self.add_recorded_command(progress.command);
        self.add_recorded_set(progress.localities);
        self.add_need(b"presence", progress.presence);
        self.add_need(b"password", progress.password);
    }

    pub(crate) fn add_lines(&mut self, answer: &Result<usize, Fault>)
        requires { length (report_bytes self.old) + lines_room ≤ N }
        ensures { Adds (report_bytes self.old) (shown_lines answer.now) lines_room (report_bytes self.new) }
    {
        match answer {
            Ok(lines) => self.add_count(b"lines", *lines),
            Err(fault) => self.add_fault(fault),
        }
    }
}

// The lines that say what a run on a fresh policy session over a state block came to.
pub fn run_report<H: Hash + Drop>(hash: H, block: &[u8], text: &[u8]) -> Report<STATE_REPORT_LIMIT>
    ensures { report_bytes result ≡ run_report (H.meaning hash) block.now text.now }
{
    let mut report = Report::new();
    let state = match Block::try_from(block) {
        Ok(state) => state,
        Err(code) => {
            report.add_fault(&Refusal::call(code).at(0));
            return report;
        }
    };
    let mut session = Session::policy(hash);
    report.add_lines(&session.run(&state, text));
    report.add_progress(&session.progress());
    session.end();
    report
}
