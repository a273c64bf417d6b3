// Calls made from their fields, which are judged first.
ghost use Rattle.std.specs.Prelude.{◌≡◌, ◌≤◌, map, length};
ghost use Rattle.interfaces.specs.Checks.{meant};
ghost use Rattle.policy.specs.Assertions.{locality as locality_of, nv as nv_of, pcr as pcr_of, time as time_of};
ghost use Rattle.policy.specs.Views.{digest_bytes, given_of};
ghost use Rattle.calls.specs.Calls.{assert, judged_call, or as or_of};
ghost use Rattle.calls.specs.Limits.{fewest_digests, most_digests};
ghost use Rattle.calls.specs.Views.{call_of, digests_of};

use crate::call::Call;
use crate::digests::{Digests, FEWEST_DIGESTS, MOST_DIGESTS};
use arrays::array_vec::ArrayVec;
use interfaces::code::Code;
use interfaces::digest::Digest;
use interfaces::name::Name;
use policy::assertion::{Assertion, Comparison, GivenComparison, Selection};
use policy::read::ALL_LOCALITIES;

impl Digests {
    pub fn as_slice(&self) -> &[Digest]
        ensures bytes { map digest_bytes result.now ≡ digests_of self.now }
        ensures some { fewest_digests ≤ length result.now }
        ensures few { length result.now ≤ most_digests }
    {
        self.digests.as_slice()
    }
}

impl Call {
    pub fn pcr(selection: Selection, digest: &[u8]) -> Result<Call, Code>
        ensures { meant call_of result ≡ judged_call (assert (pcr_of selection.bytes digest.now)) }
    {
        let bytes = digest.try_into()?;
        Ok(Call::Assert(Assertion::Pcr(selection, Digest { bytes })))
    }

    pub fn nv(name: &[u8], comparison: GivenComparison<'_>) -> Result<Call, Code>
        ensures { meant call_of result ≡ judged_call (assert (nv_of name.now (given_of comparison.entry))) }
    {
        let bytes = name.try_into()?;
        let comparison = Comparison::try_from(comparison)?;
        Ok(Call::Assert(Assertion::Nv(Name { bytes }, comparison)))
    }

    pub fn time(comparison: GivenComparison<'_>) -> Result<Call, Code>
        ensures { meant call_of result ≡ judged_call (assert (time_of (given_of comparison.entry))) }
    {
        let comparison = Comparison::try_from(comparison)?;
        Ok(Call::Assert(Assertion::Time(comparison)))
    }

    pub fn or(digests: &[&[u8]]) -> Result<Call, Code>
        ensures { meant call_of result ≡ judged_call (or_of (map (λ x. x.now) digests.now)) }
    {
        if digests.len() < FEWEST_DIGESTS || digests.len() > MOST_DIGESTS {
            return Err(Code::Size);
        }
        let mut all = ArrayVec::new(Digest::zero());
        for digest in digests {
            let bytes = (*digest).try_into()?;
            all.push(Digest { bytes }).unwrap();
        }
        Ok(Call::Or(Digests { digests: all }))
    }

    pub fn locality(set: u8) -> Result<Call, Code>
        ensures { meant call_of result ≡ judged_call (assert (locality_of set)) }
    {
        if set < 1 || set > ALL_LOCALITIES {
            return Err(Code::Range);
        }
        Ok(Call::Assert(Assertion::Locality(set)))
    }
}
