// Assertions read from the fields of a line: the form of all fields first, then their checks.
ghost use Rattle.std.specs.Prelude.{◌≡◌};
ghost use Rattle.std.specs.Option.{option_map};
ghost use Rattle.interfaces.specs.Checks.{meant};
ghost use Rattle.text.specs.Cut.{further};
ghost use Rattle.policy.specs.Reading.{parse_pcr, parse_nv, parse_time, parse_locality, parse_command, none, parse_assertion};
ghost use Rattle.policy.specs.Judging.{read_as};
ghost use Rattle.policy.specs.Views.{assertion_of};

use crate::assertion::{Assertion, Selection};
use crate::compare::comparison_fields;
use interfaces::code::Code;
use interfaces::digest::Digest;
use interfaces::fault::Refusal;
use interfaces::name::Name;
use text::cut::Fields;
use text::pairs::{decode, pair_count};

// The set of all localities, 0 to 4.
pub const ALL_LOCALITIES: u8 = 0x1f;

fn read_pcr(rest: Option<&[u8]>) -> Result<Assertion, Refusal>
    ensures { meant assertion_of result ≡ read_as parse_pcr (further (option_map (λ x. x.now) rest.entry)) }
{
    let mut fields = Fields::new(rest);
    let (Some(selection), Some(digest), None) = (fields.next(), fields.next(), fields.next()) else {
        return Err(Refusal::form());
    };
    let picked = decode(selection).ok_or(Refusal::form())?;
    pair_count(digest).ok_or(Refusal::form())?;
    let bytes = decode(digest).ok_or(Refusal::call(Code::Size))?;
    Ok(Assertion::Pcr(Selection { bytes: picked }, Digest { bytes }))
}

fn read_nv(rest: Option<&[u8]>) -> Result<Assertion, Refusal>
    ensures { meant assertion_of result ≡ read_as parse_nv (further (option_map (λ x. x.now) rest.entry)) }
{
    let mut fields = Fields::new(rest);
    let (Some(name), Some(operand), Some(offset), Some(operation), None) = (
        fields.next(),
        fields.next(),
        fields.next(),
        fields.next(),
        fields.next(),
    ) else {
        return Err(Refusal::form());
    };
    pair_count(name).ok_or(Refusal::form())?;
    let comparison = comparison_fields(operand, offset, operation).ok_or(Refusal::form())?;
    let bytes = decode(name).ok_or(Refusal::call(Code::Size))?;
    let comparison = comparison.judge().map_err(Refusal::call)?;
    Ok(Assertion::Nv(Name { bytes }, comparison))
}

fn read_time(rest: Option<&[u8]>) -> Result<Assertion, Refusal>
    ensures { meant assertion_of result ≡ read_as parse_time (further (option_map (λ x. x.now) rest.entry)) }
{
    let mut fields = Fields::new(rest);
    let (Some(operand), Some(offset), Some(operation), None) = (
        fields.next(),
        fields.next(),
        fields.next(),
        fields.next(),
    ) else {
        return Err(Refusal::form());
    };
    let comparison = comparison_fields(operand, offset, operation).ok_or(Refusal::form())?;
    let comparison = comparison.judge().map_err(Refusal::call)?;
    Ok(Assertion::Time(comparison))
}

fn read_locality(rest: Option<&[u8]>) -> Result<Assertion, Refusal>
    ensures { meant assertion_of result ≡ read_as parse_locality (further (option_map (λ x. x.now) rest.entry)) }
{
    let mut fields = Fields::new(rest);
    let (Some(field), None) = (fields.next(), fields.next()) else {
        return Err(Refusal::form());
    };
    let [set] = decode::<1>(field).ok_or(Refusal::form())?;
    if set < 1 || set > ALL_LOCALITIES {
        return Err(Refusal::call(Code::Range));
    }
    Ok(Assertion::Locality(set))
}

fn read_command(rest: Option<&[u8]>) -> Result<Assertion, Refusal>
    ensures { meant assertion_of result ≡ read_as parse_command (further (option_map (λ x. x.now) rest.entry)) }
{
    let mut fields = Fields::new(rest);
    let (Some(field), None) = (fields.next(), fields.next()) else {
        return Err(Refusal::form());
    };
    let code = decode(field).ok_or(Refusal::form())?;
    Ok(Assertion::Command(u32::from_be_bytes(code)))
}

// That no field follows the word.
pub(crate) fn read_none(rest: Option<&[u8]>) -> Option<()>
    ensures { result ≡ none (further (option_map (λ x. x.now) rest.entry)) }
{
    match Fields::new(rest).next() {
        None => Some(()),
        Some(_) => None,
    }
}

// An assertion by its word and what follows the word's tab.
pub fn read_assertion(word: &[u8], rest: Option<&[u8]>) -> Result<Assertion, Refusal>
    ensures { meant assertion_of result ≡ read_as (parse_assertion word.now) (further (option_map (λ x. x.now) rest.entry)) }
{
    match word {
        b"pcr" => read_pcr(rest),
        b"nv" => read_nv(rest),
        b"time" => read_time(rest),
        b"locality" => read_locality(rest),
        b"command" => read_command(rest),
        b"presence" => {
            read_none(rest).ok_or(Refusal::form())?;
            Ok(Assertion::Presence)
        }
        b"password" => {
            read_none(rest).ok_or(Refusal::form())?;
            Ok(Assertion::Password)
        }
        _ => Err(Refusal::form()),
    }
}
