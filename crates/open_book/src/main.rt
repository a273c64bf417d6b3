// Runs a text over a state block on a fresh policy session under SHA-256, opens a book with that session and
// prints what came of both: `open_book BLOCK TEXT BOOK [PASSWORD]`, the names of files and the password given.
// More openings over the block may follow, each with a session and a shelf of its own.
#![tactic(auto)]

use anyhow::{Context, bail};
use report::opening::opening_report;
use sha256::Sha256;
use std::io::Write;
use std::{env, fs};

// How many words an opening has: a text, a book and a password.
const OPENING_WORDS: usize = 3;

// Where no password is given, it is empty.
fn print_opening(rt: &HostRuntime, block: &[u8], words: &[String]) -> anyhow::Result<()> {
    let (text, book, given) = match words {
        [text, book] => (text, book, ""),
        [text, book, given] => (text, book, given.as_str()),
        _ => bail!("an opening takes a text and a book"),
    };
    let text = fs::read(rt, text.as_str())?;
    let book = fs::read(rt, book.as_str())?;
    let report = opening_report(
        Sha256,
        block,
        text.as_slice(),
        book.as_slice(),
        given.as_bytes(),
    );
    let mut output = rt.stdout();
    output.write_all(report.as_bytes())?;
    Ok(())
}

fn main(rt: HostRuntime) -> anyhow::Result<()> {
    let words: Vec<String> = env::args(&rt)?.skip(1).collect(rt.alloc())?;
    let (block, openings) = words
        .as_slice()
        .split_first()
        .context("no state block is named")?;
    let block = fs::read(&rt, block.as_str())?;
    for opening in openings.chunks(OPENING_WORDS) {
        print_opening(&rt, block.as_slice(), opening)?;
    }
    Ok(())
}
