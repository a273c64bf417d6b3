// Prints the digests of known messages by each hash, to be held to what another implementation says.
#![tactic(auto)]

ghost use Rattle.std.specs.Prelude.{◌≡◌, ℕ, ◌+◌, ◌*◌, ◌%◌, ◌<◌, ◌≤◌, length, slice_index};

use anyhow::anyhow;
use interfaces::digest::Digest;
use interfaces::hash::Hash;
use sha3::Sha3;
use sha256::Sha256;
use std::fmt;

// The longest of the texts that are made here: two blocks of any hash, and a byte.
const LONGEST: usize = 273;

const FACTOR: usize = 7;

const MODULUS: usize = 251;

// A digest as lower-case hex digits.
#[derive(Drop)]
struct Hex(Digest);

impl fmt::Display for Hex {
    fn fmt<W: fmt::Write>(&self, f: &mut fmt::Formatter<W>) -> fmt::Result {
        for byte in self.0.bytes {
            write!(f, "{byte:02x}")?;
        }
        Ok(())
    }
}

// Fills `text` with bytes that tell it from the texts of the other lengths.
fn fill(text: &mut [u8])
    requires { length text.old ≤ 273 }
    ensures { (k : ℕ) → k < length text.new → slice_index text.new k ≡ (k * 7 + length text.old) % 251 }
{
    let n = text.len();
    for (i, byte) in text.iter_mut().enumerate() {
        *byte = ((i * FACTOR + n) % MODULUS) as u8;
    }
}

fn print_digest<H: Hash>(
    rt: &HostRuntime,
    hash: &H,
    name: &str,
    label: impl fmt::Display + Drop,
    text: &[u8],
) -> anyhow::Result<()> {
    let digest = Digest::of(hash, text).map_err(|_| anyhow!("refused"))?;
    let hex = Hex(digest);
    println!(rt; "{name} {label}\t{hex}")?;
    Ok(())
}

fn print_lengths<H: Hash>(
    rt: &HostRuntime,
    hash: &H,
    name: &str,
    first: usize,
    last: usize,
) -> anyhow::Result<()>
    requires { last ≤ 273 }
{
    for n in first..=last {
        let mut buffer = [0; LONGEST];
        let text = &mut buffer[0..n];
        fill(text);
        print_digest(rt, hash, name, format_args!("len {n}"), text)?;
    }
    Ok(())
}

fn print_all<H: Hash>(rt: &HostRuntime, hash: &H, name: &str) -> anyhow::Result<()> {
    print_digest(rt, hash, name, "empty", b"")?;
    print_digest(rt, hash, name, "abc", b"abc")?;
    print_digest(
        rt,
        hash,
        name,
        "448",
        b"abcdbcdecdefdefgefghfghighijhijkijkljklmklmnlmnomnopnopq",
    )?;
    print_digest(
        rt,
        hash,
        name,
        "896",
        b"abcdefghbcdefghicdefghijdefghijkefghijklfghijklmghijklmnhijklmnoijklmnopjklmnopqklmnopqrlmnopqrsmnopqrstnopqrstu",
    )?;
    // Around each end of a block of 64 bytes, and of 136.
    print_lengths(rt, hash, name, 0, 130)?;
    print_lengths(rt, hash, name, 134, 138)?;
    print_lengths(rt, hash, name, 271, 273)
}

fn main(rt: HostRuntime) -> anyhow::Result<()> {
    print_all(&rt, &Sha256, "sha256")?;
    print_all(&rt, &Sha3, "sha3-256")
}

#[cfg(test)]
mod tests {
    use interfaces::code::Code;
    use interfaces::hash::{HASH_LIMIT, Hash};
    use sha3::Sha3;
    use sha256::Sha256;

    #[test]
    fn limit_of_the_text(rt: HostRuntime) {
        let text = [0; HASH_LIMIT + 1];
        let mut out = [7; 32];
        assert_eq!(rt; Sha256.hash(&text, &mut out), Err(Code::Size));
        assert_eq!(rt; out, [0; 32]);
        assert_eq!(rt; Sha256.hash(&text[1..], &mut out), Ok(()));
    }

    #[test]
    fn length_of_the_buffer(rt: HostRuntime) {
        let mut out = [7; 33];
        assert_eq!(rt; Sha256.hash(b"abc", &mut out), Err(Code::Size));
        assert_eq!(rt; out, [0; 33]);
        assert_eq!(rt; Sha256.identifier(), 0x000b);
    }

    #[test]
    fn requests_to_sha3(rt: HostRuntime) {
        let text = [0; HASH_LIMIT + 1];
        let mut out = [7; 32];
        assert_eq!(rt; Sha3.hash(&text, &mut out), Err(Code::Size));
        assert_eq!(rt; out, [0; 32]);
        assert_eq!(rt; Sha3.hash(&text[1..], &mut out), Ok(()));
        assert_eq!(rt; Sha3.identifier(), 0x0027);
    }
}
