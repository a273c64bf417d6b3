// Reads a policy text from standard input and prints its lines, branches and digest under SHA-256,
// or its fault.
#![tactic(auto)]

use input::read_up_to;
use report::digest::digest_report;
use sha256::Sha256;
use std::io;
use std::io::Write;
use tree::digest::TEXT_LIMIT;

// One byte more than a policy text may have, so that a longer one is seen to be longer.
const INPUT_LIMIT: usize = TEXT_LIMIT + 1;

fn main(rt: HostRuntime) -> io::Result<()> {
    let mut buffer = [0; INPUT_LIMIT];
    let len = read_up_to(&mut rt.stdin(), &mut buffer)?;
    let report = digest_report(&Sha256, &buffer[..len]);
    rt.stdout().write_all(report.as_bytes())
}
