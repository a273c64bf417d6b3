// Runs texts over a state block, each on a fresh policy session under SHA-256, and prints what each run
// came to: `policy_run BLOCK TEXT..`, the names of files.
#![tactic(auto)]

use anyhow::Context;
use report::run::run_report;
use sha256::Sha256;
use std::io::Write;
use std::{env, fs};

fn print_run(rt: &HostRuntime, block: &[u8], name: &str) -> anyhow::Result<()> {
    let text = fs::read(rt, name)?;
    let report = run_report(Sha256, block, text.as_slice());
    let mut output = rt.stdout();
    output.write_all(report.as_bytes())?;
    Ok(())
}

fn main(rt: HostRuntime) -> anyhow::Result<()> {
    let mut names = env::args(&rt)?.skip(1);
    let name = names.next().context("no state block is named")?;
    let block = fs::read(&rt, name.as_str())?;
    for name in names {
        print_run(&rt, block.as_slice(), name.as_str())?;
    }
    Ok(())
}
