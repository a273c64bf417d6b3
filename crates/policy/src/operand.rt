// The bytes that a comparison compares with.
ghost use Rattle.std.specs.Prelude.{◌≡◌, ◌≤◌, length};
ghost use Rattle.arrays.specs.Items.{items};

use arrays::array_vec::ArrayVec;
use interfaces::code::Code;

pub const OPERAND_LIMIT: usize = 64;

#[derive(Clone, Copy)]
pub struct Operand {
    pub(crate) bytes: ArrayVec<u8, OPERAND_LIMIT>,
    ghost some: { 1 ≤ length (items bytes) },
}

impl Operand {
    ghost use Rattle.policy.specs.Views.{operand_bytes};

    pub fn as_slice(&self) -> &[u8]
        ensures { result.now ≡ operand_bytes self.now }
    {
        self.bytes.as_slice()
    }
}

// No bytes, and more than the limit, are refused.
impl TryFrom<&[u8]> for Operand {
    ghost use Rattle.interfaces.specs.Checks.{meant, refused_with};
    ghost use Rattle.policy.specs.Checks.{operand_flaw};
    ghost use Rattle.policy.specs.Views.{operand_bytes};

    type Error = Code;

    ghost try_from_gives = { λ given r. meant operand_bytes r ≡ refused_with (operand_flaw given.now) given.now };

    fn try_from(given: &[u8]) -> Result<Operand, Code> {
        if given.is_empty() {
            return Err(Code::Size);
        }
        let mut bytes = ArrayVec::new(0);
        bytes.extend(given).map_err(|_| Code::Size)?;
        Ok(Operand { bytes })
    }
}
