// The node of a time alone in its octets (FORMATS, "Times" and "Centuries"): judged and read, or put.
ghost use Rattle.std.specs.Prelude.{◌≡◌, Ok};
ghost use Rattle.coding.specs.Value.{time_number};
ghost use Rattle.coding.specs.Reckoning.{given as Reckoning·given};
ghost use Rattle.coding.specs.Conversion.{placed};
ghost use Rattle.times.specs.Alone.{at_start};

use clock::own;
use coding::{MessageCause, Refusal, ValueCause};
use dates::{DateTime, TimeKind};
use kinds::Kind;
use writer::lone::is_lone;

// The mark, the kind, and the seven octets of a time.
const SIZE: usize = 10;

// The octet of a kind of time.
fn number(kind: TimeKind) -> u8
    ensures { result ≡ time_number kind }
{
    match kind {
        TimeKind::Utc => Kind::UtcTime.octet(),
        TimeKind::Generalized => Kind::GeneralizedTime.octet(),
    }
}

// The time that octets are: one node alone, and of that kind.
#[inline(always)]
pub fn given(kind: TimeKind, s: &[u8]) -> Result<DateTime, Refusal>
    ensures { result ≡ at_start (Reckoning·given kind s.now) }
{
    if !is_lone(s) {
        return Err(Refusal::Value(ValueCause::ValueShape(0)));
    }
    if s[2] != number(kind) {
        return Err(Refusal::Value(ValueCause::IllTyped(0)));
    }
    Ok(own::of(&s[3..]))
}

// Puts the node of a time at the start of the buffer, if it has room.
pub fn put(kind: TimeKind, t: DateTime, buf: &mut [u8]) -> Result<usize, Refusal>
    ensures { let x = placed kind buf.old (Ok t) in
        (result ≡ x.answer)
        × (buf.new ≡ x.buffer) }
{
    if buf.len() < SIZE {
        return Err(Refusal::Message(MessageCause::ValueRoom));
    }
    buf[0] = 0x56;
    buf[1] = 0x41;
    buf[2] = number(kind);
    own::put(t, &mut buf[3..SIZE]);
    Ok(SIZE)
}
