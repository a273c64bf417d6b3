// Entries for the benchmark: the hashes by themselves, exported to C.
#![tactic(auto)]

ghost use Rattle.std.specs.Prelude.{◌≡◌, length};
ghost use Rattle.interfaces.specs.Hashing.{hash_answer, hash_written};
ghost use Rattle.sha256.specs.Sha256.{sha256_hashing};
ghost use Rattle.sha3.specs.Sha3.{sha3_256_hashing};
ghost use Rattle.bench_entries.specs.Codes.{code_or_zero};

use interfaces::code::Code;
use interfaces::hash::Hash;
use sha3::Sha3;
use sha256::Sha256;

// The number of a refusal's code, or 0.
fn number(answer: Result<(), Code>) -> u16
    ensures { result ≡ code_or_zero answer }
{
    match answer {
        Ok(()) => 0,
        Err(code) => code.into(),
    }
}

#[unsafe(no_mangle)]
pub extern "C" fn bench_sha256(text: &[u8], out: &mut [u8]) -> u16
    ensures answer { result ≡ code_or_zero (hash_answer text.now (length out.old)) }
    ensures written { out.new ≡ hash_written sha256_hashing text.now (length out.old) }
{
    number(Sha256.hash(text, out))
}

#[unsafe(no_mangle)]
pub extern "C" fn bench_sha3_256(text: &[u8], out: &mut [u8]) -> u16
    ensures answer { result ≡ code_or_zero (hash_answer text.now (length out.old)) }
    ensures written { out.new ≡ hash_written sha3_256_hashing text.now (length out.old) }
{
    number(Sha3.hash(text, out))
}
