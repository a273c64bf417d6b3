// The response codes, named after TPM 2.0.
ghost use Rattle.std.specs.Prelude.{◌≡◌};
ghost use Rattle.interfaces.specs.declared.code.Code.TheVariants.{Size};
ghost use Rattle.interfaces.specs.Numbers.{code_number};

use std::array::TryFromSliceError;

#[derive(Clone, Copy, Debug, PartialEq, Eq)]
pub enum Code {
    Value = 0x084,
    Handle = 0x08b,
    Range = 0x08d,
    AuthFail = 0x08e,
    Pp = 0x090,
    Size = 0x095,
    PolicyFail = 0x09d,
    PolicyCc = 0x0a4,
    Policy = 0x126,
    PcrChanged = 0x128,
    NvRange = 0x146,
    Memory = 0x904,
    Locality = 0x907,
    Lockout = 0x921,
}

// A code's number.
impl From<Code> for u16 {
    ghost from_gives = { λ code n. n ≡ code_number code };

    fn from(code: Code) -> u16 {
        code as u16
    }
}

// Bytes of another length than they should have are refused with this code.
impl From<TryFromSliceError> for Code {
    ghost from_gives = { λ _ code. code ≡ Size };

    fn from(_error: TryFromSliceError) -> Code {
        Code::Size
    }
}
