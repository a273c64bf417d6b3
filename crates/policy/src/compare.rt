// The fields of a comparison that have their form, and the comparison that they make if they pass
// their checks.
ghost use Rattle.std.specs.Prelude.{◌≡◌, IfSome};
ghost use Rattle.std.specs.Option.{option_map};
ghost use Rattle.interfaces.specs.Checks.{meant};
ghost use Rattle.policy.specs.ComparisonFields.{fields_of, Counted};
ghost use Rattle.policy.specs.Judging.{judged_comparison};
ghost use Rattle.policy.specs.Reading.{parse_comparison};
ghost use Rattle.policy.specs.Views.{comparison_of, given_of};

use crate::assertion::{Comparison, GivenComparison};
use crate::operand::OPERAND_LIMIT;
use interfaces::code::Code;
use text::number::read_number;
use text::pairs::{pair_count, unpair};

// The first flaw of a comparison as given is refused.
impl TryFrom<GivenComparison<'_>> for Comparison {
    type Error = Code;

    ghost try_from_gives = { λ given r. meant comparison_of r ≡ judged_comparison (given_of given) };

    fn try_from(given: GivenComparison<'_>) -> Result<Comparison, Code> {
        Ok(Comparison {
            operand: given.operand.try_into()?,
            offset: given.offset,
            operation: given.operation.try_into()?,
        })
    }
}

#[derive(Clone, Copy)]
pub(crate) struct ComparisonFields<'a> {
    operand: &'a [u8],
    // How many bytes the operand's field stands for.
    len: usize,
    offset: u16,
    operation: u16,
}

pub(crate) fn comparison_fields<'a>(
    operand: &'a [u8],
    offset: &[u8],
    operation: &[u8],
) -> Option<ComparisonFields<'a>>
    ensures parsed { option_map fields_of result ≡ parse_comparison operand.now offset.now operation.now }
    ensures counted { IfSome result Counted }
{
    let len = pair_count(operand)?;
    let offset = read_number(offset)?;
    let operation = read_number(operation)?;
    Some(ComparisonFields {
        operand,
        len,
        offset,
        operation,
    })
}

impl ComparisonFields<'_> {
    pub(crate) fn judge(self) -> Result<Comparison, Code>
        requires { Counted self }
        ensures { meant comparison_of result ≡ judged_comparison (fields_of self.entry) }
    {
        let mut bytes = [0; OPERAND_LIMIT];
        if self.len > bytes.len() {
            return Err(Code::Size);
        }
        let operand = &mut bytes[..self.len];
        unpair(self.operand, operand);
        let given = GivenComparison {
            operand,
            offset: self.offset,
            operation: self.operation,
        };
        given.try_into()
    }
}
