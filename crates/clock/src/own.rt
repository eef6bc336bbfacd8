// The seven octets of a time in a value's node (FORMATS, "Values").
ghost use Rattle.std.specs.Prelude.{◌≡◌};
ghost use Rattle.octets.specs.Buffers.{filled};
ghost use Rattle.dates.specs.Own.{time_at, time_octets};

use dates::DateTime;
use octets::{copy, octet, two};

// The time whose octets these are.
#[tactic(auto, unfolding(dates::specs::Own::time_at))]
pub fn of(o: &[u8]) -> DateTime
    ensures { result ≡ time_at o.now 0 }
{
    DateTime {
        year: two(o, 0) as u16,
        month: octet(o, 2) as u8,
        day: octet(o, 3) as u8,
        hour: octet(o, 4) as u8,
        minute: octet(o, 5) as u8,
        second: octet(o, 6) as u8,
    }
}

// Puts the octets of a time over a part of seven; one of another length stays.
#[tactic(auto, unfolding(dates::specs::Own::time_octets))]
pub fn put(t: DateTime, part: &mut [u8])
    ensures { part.new ≡ filled part.old (time_octets t) }
{
    let [high, low] = t.year.to_be_bytes();
    copy(
        &[high, low, t.month, t.day, t.hour, t.minute, t.second],
        part,
    );
}
