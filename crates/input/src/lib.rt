// An input read into a buffer, with no memory taken.
#![tactic(auto)]

ghost use Rattle.std.specs.Prelude.{◌≤◌, ◌<◌, length, take, IfOk};
ghost use Rattle.std.specs.Io.KnownBytes.{Consumes, IsAtEnd};

use std::io;
use std::io::Read;

// Reads until the input ends or the buffer is full. Each read is offered all the room that is left: a packet
// pipe or a message socket loses what does not fit into one read. Every turn but the last brings a byte.
pub fn read_up_to<R: Read>(input: &mut R, buffer: &mut [u8]) -> io::Result<usize>
    ensures within { IfOk result (λ n. n ≤ length buffer.old) }
    ensures bytes { IfOk result (λ n. Consumes (R.remaining input.old) (R.remaining input.new) (take n buffer.new)) }
    ensures whole { IfOk result (λ n. n < length buffer.old → IsAtEnd (R.remaining input.new)) }
{
    let mut len = 0;
    for _ in 0..buffer.len() {
        let got = input.read(&mut buffer[len..])?;
        if got == 0 {
            break;
        }
        len += got;
    }
    Ok(len)
}
