// Output buffers.
ghost use Rattle.std.specs.Prelude.{◌≡◌, length, replicate, OnOk};
ghost use Rattle.interfaces.specs.Checks.{counted, fitting, left_in, length_flaw, refused_with, settled};

use crate::code::Code;

// Leaves zeros in the whole buffer, as every refusal does.
pub fn clear(out: &mut [u8])
    ensures { out.new ≡ replicate (length out.old) 0 }
{
    out.fill(0);
}

// Judges a buffer that should have a length; refused, it is cleared.
pub fn admit_length(out: &mut [u8], len: usize) -> Result<(), Code>
    ensures answer { result ≡ refused_with (length_flaw len (length out.old)) tt }
    ensures after { out.new ≡ settled (length_flaw len (length out.old)) out.old (replicate (length out.old) 0) }
    ensures fits { OnOk result (length out.old ≡ len) }
{
    if out.len() != len {
        clear(out);
        return Err(Code::Size);
    }
    Ok(())
}

// Writes the bytes and zeros behind them, and answers how many bytes there are; where they do not
// fit, the buffer is zeros.
pub fn fill(out: &mut [u8], bytes: &[u8]) -> Result<usize, Code>
    ensures answer { result ≡ counted (fitting bytes.now (length out.old)) }
    ensures written { out.new ≡ left_in (length out.old) (fitting bytes.now (length out.old)) }
{
    clear(out);
    let len = bytes.len();
    if len > out.len() {
        return Err(Code::Size);
    }
    out[0..len].copy_from_slice(bytes);
    Ok(len)
}
