// The twelve operations of a comparison, numbered as TPM 2.0 does.
ghost use Rattle.std.specs.Prelude.{◌≡◌};
ghost use Rattle.interfaces.specs.Checks.{meant, refused_with};
ghost use Rattle.policy.specs.Checks.{operation_flaw};
ghost use Rattle.policy.specs.Operations.{operation_number};

use interfaces::code::Code;

#[derive(Clone, Copy, Debug, PartialEq, Eq)]
pub enum Operation {
    Equal,
    NotEqual,
    SignedGreater,
    UnsignedGreater,
    SignedLess,
    UnsignedLess,
    SignedGreaterOrEqual,
    UnsignedGreaterOrEqual,
    SignedLessOrEqual,
    UnsignedLessOrEqual,
    BitsSet,
    BitsClear,
}

// An operation's number.
impl From<Operation> for u16 {
    ghost from_gives = { λ operation n. n ≡ operation_number operation };

    fn from(operation: Operation) -> u16 {
        operation as u16
    }
}

// A number past the last operation's is refused.
impl TryFrom<u16> for Operation {
    type Error = Code;

    ghost try_from_gives = { λ n r. meant operation_number r ≡ refused_with (operation_flaw n) n };

    fn try_from(n: u16) -> Result<Operation, Code> {
        Ok(match n {
            0 => Operation::Equal,
            1 => Operation::NotEqual,
            2 => Operation::SignedGreater,
            3 => Operation::UnsignedGreater,
            4 => Operation::SignedLess,
            5 => Operation::UnsignedLess,
            6 => Operation::SignedGreaterOrEqual,
            7 => Operation::UnsignedGreaterOrEqual,
            8 => Operation::SignedLessOrEqual,
            9 => Operation::UnsignedLessOrEqual,
            10 => Operation::BitsSet,
            11 => Operation::BitsClear,
            _ => return Err(Code::Value),
        })
    }
}
