// The pieces of a report, put behind one another.
ghost use Rattle.std.specs.Prelude.{◌≡◌, ◌+◌, ◌*◌, ◌≤◌, length, decimal};
ghost use Rattle.text.specs.Pairs.{pairs};
ghost use Rattle.report.specs.Reports.{labelled, shown_code, shown_fault, shown_summary};
ghost use Rattle.report.specs.Views.{Adds, report_bytes};

use crate::report::Report;
use interfaces::code::Code;
use interfaces::digest::Digest;
use interfaces::fault::Fault;
use text::append::{append_decimal, append_pairs};
use text::write::hex_digit;
use tree::summary::Summary;

impl<const N: usize> Report<N> {
    pub(crate) fn add(&mut self, more: &[u8])
        requires { length (report_bytes self.old) + length more.now ≤ N }
        ensures { Adds (report_bytes self.old) more.now (length more.now) (report_bytes self.new) }
    {
        self.text.extend(more).unwrap();
    }

    pub(crate) fn add_decimal(&mut self, n: usize)
        requires { length (report_bytes self.old) + 20 ≤ N }
        ensures { Adds (report_bytes self.old) (decimal n) 20 (report_bytes self.new) }
    {
        append_decimal(&mut self.text, n).unwrap();
    }

    pub(crate) fn add_pairs(&mut self, bytes: &[u8])
        requires { length (report_bytes self.old) + 2 * length bytes.now ≤ N }
        ensures { Adds (report_bytes self.old) (pairs bytes.now) (2 * length bytes.now) (report_bytes self.new) }
    {
        append_pairs(&mut self.text, bytes).unwrap();
    }

    // A word, a tab, a number and a line feed.
    pub(crate) fn add_count(&mut self, word: &[u8], n: usize)
        requires { length (report_bytes self.old) + length word.now + 22 ≤ N }
        ensures { Adds (report_bytes self.old) (labelled word.now (decimal n)) (length word.now + 22) (report_bytes self.new) }
    {
        self.add(word);
        self.add(b"\t");
        self.add_decimal(n);
        self.add(b"\n");
    }

    // A word, a tab, bytes as pairs and a line feed.
    pub(crate) fn add_bytes(&mut self, word: &[u8], bytes: &[u8])
        requires { length (report_bytes self.old) + length word.now + 2 * length bytes.now + 2 ≤ N }
        ensures { Adds (report_bytes self.old) (labelled word.now (pairs bytes.now)) (length word.now + 2 * length bytes.now + 2) (report_bytes self.new) }
    {
        self.add(word);
        self.add(b"\t");
        self.add_pairs(bytes);
        self.add(b"\n");
    }

    // A word, a tab, another word and a line feed.
    pub(crate) fn add_word(&mut self, word: &[u8], value: &[u8])
        requires { length (report_bytes self.old) + length word.now + length value.now + 2 ≤ N }
        ensures { Adds (report_bytes self.old) (labelled word.now value.now) (length word.now + length value.now + 2) (report_bytes self.new) }
    {
        self.add(word);
        self.add(b"\t");
        self.add(value);
        self.add(b"\n");
    }
}

pub(crate) fn code_digits(code: Code) -> [u8; 3]
    ensures { result ≡ shown_code code }
{
    let n = u16::from(code);
    [
        hex_digit((n / 256 % 16) as u8),
        hex_digit((n / 16 % 16) as u8),
        hex_digit((n % 16) as u8),
    ]
}

impl<const N: usize> Report<N> {
    // Three lines: the number of lines, of branches, and the digest.
    pub(crate) fn add_summary(&mut self, summary: &Summary, digest: &Digest)
        requires { length (report_bytes self.old) + 129 ≤ N }
        ensures { Adds (report_bytes self.old) (shown_summary summary.now digest.now.bytes) 129 (report_bytes self.new) }
    {
        self.add_count(b"lines", summary.lines);
        self.add_count(b"branches", summary.branches);
        self.add(b"digest\t");
        self.add_pairs(&digest.bytes);
        self.add(b"\n");
    }

    // One line: the fault's line, layer and code.
    pub(crate) fn add_fault(&mut self, fault: &Fault)
        requires { length (report_bytes self.old) + 129 ≤ N }
        ensures { Adds (report_bytes self.old) (shown_fault fault.now) 129 (report_bytes self.new) }
    {
        self.add(b"fault\t");
        self.add_decimal(fault.line);
        self.add(b"\t");
        self.add(fault.layer.word());
        self.add(b"\t");
        self.add(&code_digits(fault.code));
        self.add(b"\n");
    }
}
