// A line of a policy text, read and judged by itself.
ghost use Rattle.std.specs.Prelude.{◌≡◌};
ghost use Rattle.std.specs.Option.{option_map};
ghost use Rattle.interfaces.specs.Checks.{meant};
ghost use Rattle.interfaces.specs.Hashing.{digest_length};
ghost use Rattle.text.specs.Cut.{further};
ghost use Rattle.policy.specs.Judging.{read_line_as};
ghost use Rattle.policy.specs.Lines.{extend};
ghost use Rattle.policy.specs.Reading.{parse_any, parse_assertion, parse_word, read_line, Reads};
ghost use Rattle.policy.specs.Views.{line_of};

use crate::assertion::Assertion;
use crate::read::{read_assertion, read_none};
use interfaces::code::Code;
use interfaces::fault::Refusal;
use text::cut::{Fields, first_field};
use text::number::read_number;

// The fewest and the most trees that `any` joins.
pub const FEWEST_TREES: usize = 2;

pub const MOST_TREES: usize = 8;

#[derive(Clone, Copy)]
pub enum Line {
    // Begins a tree.
    Start,
    // Joins so many of the top trees into one.
    Any(usize),
    // Extends the top tree.
    Extend(Assertion),
}

fn read_any(rest: Option<&[u8]>) -> Result<Line, Refusal>
    ensures { meant line_of result ≡ read_line_as parse_any (further (option_map (λ x. x.now) rest.entry)) }
{
    let mut fields = Fields::new(rest);
    let (Some(field), None) = (fields.next(), fields.next()) else {
        return Err(Refusal::form());
    };
    let trees = read_number(field).ok_or(Refusal::form())? as usize;
    if trees < FEWEST_TREES || trees > MOST_TREES {
        return Err(Refusal::text(Code::Size));
    }
    Ok(Line::Any(trees))
}

fn read_word(word: &[u8], rest: Option<&[u8]>) -> Result<Line, Refusal>
    ensures { meant line_of result ≡ read_line_as (parse_word word.now) (further (option_map (λ x. x.now) rest.entry)) }
{
    match word {
        b"start" => {
            read_none(rest).ok_or(Refusal::form())?;
            Ok(Line::Start)
        }
        b"any" => read_any(rest),
        _ => Ok(Line::Extend(read_assertion(word, rest)?)),
    }
}

fn read_fields(line: &[u8]) -> Result<Line, Refusal>
    ensures { meant line_of result ≡ read_line digest_length line.now }
{
    let (word, rest) = first_field(line);
    read_word(word, rest)
}

// Reads a line of a policy text: form first, then the line's own checks. What was read is what the
// line says, and only what is no line at all is refused for its form.
pub fn read_line(line: &[u8]) -> Result<Line, Refusal>
    ensures value { meant line_of result ≡ read_line digest_length line.now }
    ensures reads { Reads digest_length line.now (meant line_of result) }
{
    read_fields(line)
}
