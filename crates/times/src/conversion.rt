// A UTCTime as a GeneralizedTime in the century that a link version gives it, and back, on the octets of one node (FORMATS, "Centuries").
ghost use Rattle.std.specs.Prelude.{◌≡◌};
ghost use Rattle.dates.specs.Century.{first_year};
ghost use Rattle.coding.specs.Conversion.{other_kind, counterpart as Conversion·counterpart, whole_conversion, whole_to_generalized, whole_to_utc};
ghost use Rattle.times.specs.Alone.{at_start};

use crate::node;
use clock::century;
use coding::{Refusal, TableCause, ValueCause};
use dates::{DateTime, TimeKind};

fn other_kind(kind: TimeKind) -> TimeKind
    ensures { result ≡ other_kind kind }
{
    match kind {
        TimeKind::Utc => TimeKind::Generalized,
        TimeKind::Generalized => TimeKind::Utc,
    }
}

// What a time of a kind is as one of the other.
#[tactic(auto, unfolding(coding::specs::Conversion::counterpart))]
fn counterpart(version: usize, kind: TimeKind, t: DateTime) -> Result<DateTime, Refusal>
    ensures { result ≡ at_start (Conversion·counterpart (first_year version) kind t) }
{
    match kind {
        TimeKind::Utc => Ok(century::to_generalized(version, t)),
        TimeKind::Generalized => {
            if !century::in_window(version, t.year) {
                return Err(Refusal::Value(ValueCause::IllTyped(0)));
            }
            Ok(century::to_utc(t))
        }
    }
}

// Puts the counterpart of a time of a kind into the buffer.
#[inline(always)]
fn convert(kind: TimeKind, version: usize, time: &[u8], buf: &mut [u8]) -> Result<usize, Refusal>
    ensures { let x = whole_conversion kind version time.now buf.old in
        (result ≡ x.answer)
        × (buf.new ≡ x.buffer) }
{
    if !century::is_version(version) {
        return Err(Refusal::Table(TableCause::Unknown));
    }
    let t = node::given(kind, time)?;
    let u = counterpart(version, kind, t)?;
    node::put(other_kind(kind), u, buf)
}

// Puts a UTCTime into the buffer as a GeneralizedTime.
pub fn to_generalized(version: usize, time: &[u8], buf: &mut [u8]) -> Result<usize, Refusal>
    ensures { let x = whole_to_generalized version time.now buf.old in
        (result ≡ x.answer)
        × (buf.new ≡ x.buffer) }
{
    convert(TimeKind::Utc, version, time, buf)
}

// Puts a GeneralizedTime of a year inside the version's window into the buffer as a UTCTime.
pub fn to_utc(version: usize, time: &[u8], buf: &mut [u8]) -> Result<usize, Refusal>
    ensures { let x = whole_to_utc version time.now buf.old in
        (result ≡ x.answer)
        × (buf.new ≡ x.buffer) }
{
    convert(TimeKind::Generalized, version, time, buf)
}
