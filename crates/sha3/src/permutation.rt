// The permutation Keccak-f[1600].
ghost use Rattle.std.specs.Prelude.{◌≡◌};
ghost use Rattle.sha3.specs.Keccak.{keccak_f};

use crate::constants::{ROUND_CONSTANTS, State};
use crate::steps::round;

pub(crate) fn keccak_f(start: State) -> State
    ensures { result ≡ keccak_f start }
{
    let mut s = start;
    for constant in &ROUND_CONSTANTS {
        let next = round(s, *constant);
        s = next;
    }
    s
}
