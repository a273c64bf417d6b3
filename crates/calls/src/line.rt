// A line of a run, read and judged by itself.
ghost use Rattle.std.specs.Prelude.{◌≡◌};
ghost use Rattle.std.specs.Option.{option_map};
ghost use Rattle.interfaces.specs.Checks.{meant};
ghost use Rattle.interfaces.specs.Hashing.{digest_length};
ghost use Rattle.text.specs.Cut.{further};
ghost use Rattle.policy.specs.Reading.{judged};
ghost use Rattle.calls.specs.Reading.{call_line_flaw, parse_call_word, read_call, ReadsCall};
ghost use Rattle.calls.specs.Views.{call_of};

use crate::call::Call;
use crate::read_or::read_digests;
use interfaces::fault::Refusal;
use policy::read::read_assertion;
use text::cut::first_field;

fn read_word(word: &[u8], rest: Option<&[u8]>) -> Result<Call, Refusal>
    ensures { meant call_of result ≡ judged (call_line_flaw digest_length) (parse_call_word word.now (further (option_map (λ x. x.now) rest.entry))) }
{
    match word {
        b"or" => Ok(Call::Or(read_digests(rest)?)),
        _ => Ok(Call::Assert(read_assertion(word, rest)?)),
    }
}

// Reads a line of a run: form first, then the checks of the call's fields. What was read is what the
// line says, and only what is no call at all is refused for its form.
pub fn read_call(line: &[u8]) -> Result<Call, Refusal>
    ensures value { meant call_of result ≡ read_call digest_length line.now }
    ensures reads { ReadsCall digest_length line.now (meant call_of result) }
{
    let (word, rest) = first_field(line);
    read_word(word, rest)
}
