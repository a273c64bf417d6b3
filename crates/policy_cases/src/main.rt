// Prints the report on each policy text that an argument names, under both hashes, to be held to
// what an independent model says.
#![tactic(auto)]

use report::digest::digest_report;
use sha3::Sha3;
use sha256::Sha256;
use std::io::Write;
use std::{env, fs};

fn print_report(rt: &HostRuntime, name: &str) -> anyhow::Result<()> {
    let text = fs::read(rt, name)?;
    let report = digest_report(&Sha256, text.as_slice());
    let report3 = digest_report(&Sha3, text.as_slice());
    let mut output = rt.stdout();
    println!(rt; "{name}")?;
    output.write_all(report.as_bytes())?;
    output.write_all(report3.as_bytes())?;
    Ok(())
}

fn main(rt: HostRuntime) -> anyhow::Result<()> {
    for name in env::args(&rt)?.skip(1) {
        print_report(&rt, name.as_str())?;
    }
    Ok(())
}

#[cfg(test)]
mod tests {
    use interfaces::code::Code;
    use interfaces::fault::{Fault, Layer};
    use sha256::Sha256;
    use tree::digest::digest_text;
    use tree::summary::Summary;

    const NO_ROOM: Fault = Fault {
        line: 0,
        layer: Layer::Call,
        code: Code::Size,
    };

    #[test]
    fn buffer_comes_before_text(rt: HostRuntime) {
        let mut short = [7; 31];
        assert_eq!(rt; digest_text(&Sha256, b"", &mut short), Err(NO_ROOM));
        assert_eq!(rt; short, [0; 31]);
        let mut long = [7; 33];
        assert_eq!(rt; digest_text(&Sha256, b"start", &mut long), Err(NO_ROOM));
        assert_eq!(rt; long, [0; 33]);
    }

    #[test]
    fn fault_clears(rt: HostRuntime) {
        let mut out = [7; 32];
        assert!(rt; digest_text(&Sha256, b"stop", &mut out).is_err());
        assert_eq!(rt; out, [0; 32]);
    }

    #[test]
    fn answer(rt: HostRuntime) {
        let mut out = [7; 32];
        let summary = Summary {
            lines: 1,
            branches: 1,
        };
        assert_eq!(rt; digest_text(&Sha256, b"start", &mut out), Ok(summary));
        assert_eq!(rt; out, [0; 32]);
    }
}
