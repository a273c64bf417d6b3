// Reads a state block from standard input and prints what it means, or its refusal.
#![tactic(auto)]

use block::BLOCK_LENGTH;
use input::read_up_to;
use report::state::state_report;
use std::io;
use std::io::Write;

// One byte more than a block has, so that a longer input is seen to be longer.
const INPUT_LIMIT: usize = BLOCK_LENGTH + 1;

fn main(rt: HostRuntime) -> io::Result<()> {
    let mut buffer = [0; INPUT_LIMIT];
    let len = read_up_to(&mut rt.stdin(), &mut buffer)?;
    let report = state_report(&buffer[..len]);
    rt.stdout().write_all(report.as_bytes())
}
