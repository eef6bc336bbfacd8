// Reckonings with two GeneralizedTimes, each handed in as the octets of one node (FORMATS, "Times"): their order, and the seconds from the first
// to the second.
ghost use Rattle.std.specs.Prelude.{◌≡◌, Ok, Err, IfOk, IfErr};
ghost use Rattle.dates.specs.declared.TimeKind.TheVariants.{Generalized};
ghost use Rattle.coding.specs.Reckoning.{given as Reckoning·given, reckoned_by, whole_order, whole_seconds};

use crate::node::given;
use clock::seconds;
use coding::Refusal;
use dates::{DateTime, TimeKind};

// Both times; the first is judged wholly before the second. Callers match on them: `?` would copy the pair through memory.
#[inline(always)]
fn both(first: &[u8], second: &[u8]) -> Result<(DateTime, DateTime), Refusal>
    ensures times { IfOk result (λ p. (Reckoning·given Generalized first.now ≡ Ok p.0)
        × (Reckoning·given Generalized second.now ≡ Ok p.1)) }
    ensures refused { IfErr result (λ r. (f : _)
        → reckoned_by f (Reckoning·given Generalized first.now) (Reckoning·given Generalized second.now)
        ≡ Err r) }
{
    let a = given(TimeKind::Generalized, first)?;
    let b = given(TimeKind::Generalized, second)?;
    Ok((a, b))
}

// -1 if the first is before the second, 0 if they are the same, 1 if it is after it.
#[tactic(auto, unfolding(coding::specs::Reckoning::reckoned_by))]
pub fn order(first: &[u8], second: &[u8]) -> Result<i64, Refusal>
    ensures { result ≡ whole_order first.now second.now }
{
    match both(first, second) {
        Ok((a, b)) => Ok(seconds::order(a, b)),
        Err(refusal) => Err(refusal),
    }
}

// The whole seconds from the first to the second; negative if that is before it.
#[tactic(auto, unfolding(coding::specs::Reckoning::reckoned_by))]
pub fn elapsed(first: &[u8], second: &[u8]) -> Result<i64, Refusal>
    ensures { result ≡ whole_seconds first.now second.now }
{
    match both(first, second) {
        Ok((a, b)) => Ok(seconds::elapsed(a, b)),
        Err(refusal) => Err(refusal),
    }
}
