// The codes of the TPM 2.0 commands that make the assertions.
ghost use Rattle.std.specs.Prelude.{◌≡◌};
ghost use Rattle.policy.specs.Strings.{command_code};
ghost use Rattle.policy.specs.Views.{assertion_of};

use crate::assertion::Assertion;

const POLICY_PCR: u32 = 0x0000017f;

const POLICY_NV: u32 = 0x00000149;

const POLICY_COUNTER_TIMER: u32 = 0x0000016d;

const POLICY_LOCALITY: u32 = 0x0000016f;

const POLICY_COMMAND_CODE: u32 = 0x0000016c;

const POLICY_PHYSICAL_PRESENCE: u32 = 0x00000187;

// A password is asserted as an authorization value is, by PolicyAuthValue and not PolicyPassword.
const POLICY_AUTH_VALUE: u32 = 0x0000016b;

pub const POLICY_OR: u32 = 0x00000171;

impl Assertion {
    pub fn command_code(&self) -> u32
        ensures { result ≡ command_code (assertion_of self.now) }
    {
        match self {
            Assertion::Pcr(_, _) => POLICY_PCR,
            Assertion::Nv(_, _) => POLICY_NV,
            Assertion::Time(_) => POLICY_COUNTER_TIMER,
            Assertion::Locality(_) => POLICY_LOCALITY,
            Assertion::Command(_) => POLICY_COMMAND_CODE,
            Assertion::Presence => POLICY_PHYSICAL_PRESENCE,
            Assertion::Password => POLICY_AUTH_VALUE,
        }
    }
}
