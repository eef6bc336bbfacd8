// Contents octets of times: digits and a capital Z (FORMATS, "Messages").
ghost use Rattle.std.specs.Prelude.{◌≡◌, true, ◌<◌, ◌≤◌, ◌+◌, ◌%◌, length};
ghost use Rattle.std.proofs.lemmas.List.Edits.{sets};
ghost use Rattle.octets.specs.Buffers.{filled};
ghost use Rattle.octets.specs.Numbers.{if_below};
ghost use Rattle.dates.specs.Calendar.{years, in_range};
ghost use Rattle.x690.specs.Time.{two_digits, year_digits, later_digits, time_digits, time_size, time_of, is_time};
ghost use Rattle.digits.specs.Times.{pair_at, year_size, year_in, time_from, time_read, last_digits};

use clock::calendar::in_range;
use dates::{DateTime, TimeKind};

// How many octets a time of a kind has.
#[tactic(auto, unfolding(x690::specs::Time::time_size))]
pub fn size(kind: TimeKind) -> usize
    ensures { result ≡ time_size kind }
{
    match kind {
        TimeKind::Utc => 13,
        TimeKind::Generalized => 15,
    }
}

// The number that two digits at a place spell, if both octets are digits.
#[tactic(auto, unfolding(crate::specs::Times::pair_at, crate::specs::Times::is_digit))]
fn pair(c: &[u8], at: usize) -> Option<u8>
    requires { at + 1 < length c.now }
    ensures { result ≡ if_below 100 (pair_at c.now at) }
{
    let (a, b) = (c[at], c[at + 1]);
    if a.is_ascii_digit() && b.is_ascii_digit() {
        Some((a - b'0') * 10 + (b - b'0'))
    } else {
        None
    }
}

// The same; 100, which no time in range has, if they are not.
#[tactic(auto, using(crate::proofs::TimeCode::pair_most))]
fn number(c: &[u8], at: usize) -> u8
    requires { at + 1 < length c.now }
    ensures { result ≡ pair_at c.now at }
{
    pair(c, at).unwrap_or(100)
}

// The year of contents that are as long as those of a time; one out of range if it is not in digits.
#[tactic(auto, using(crate::proofs::TimeCode::pair_most), unfolding(crate::specs::Times::year_in, x690::specs::Time::time_size))]
fn year(kind: TimeKind, c: &[u8]) -> u16
    requires { length c.now ≡ time_size kind }
    ensures { result ≡ year_in kind c.now }
{
    match kind {
        TimeKind::Utc => u16::from(number(c, 0)),
        TimeKind::Generalized => match pair(c, 2) {
            Some(low) => u16::from(number(c, 0)) * 100 + u16::from(low),
            None => 10000,
        },
    }
}

// How many octets the year has.
#[tactic(auto, unfolding(crate::specs::Times::year_size))]
fn year_size(kind: TimeKind) -> usize
    ensures { result ≡ year_size kind }
{
    match kind {
        TimeKind::Utc => 2,
        TimeKind::Generalized => 4,
    }
}

// A time by its year and the octets after it.
#[tactic(auto, unfolding(crate::specs::Times::time_from))]
fn from(year: u16, c: &[u8], at: usize) -> DateTime
    requires { at + 11 ≤ length c.now }
    ensures { result ≡ time_from year c.now at }
{
    DateTime {
        year,
        month: number(c, at),
        day: number(c, at + 2),
        hour: number(c, at + 4),
        minute: number(c, at + 6),
        second: number(c, at + 8),
    }
}

// Whether contents are those of a time.
#[tactic(auto, using(crate::proofs::TimeCode::tested), unfolding(crate::specs::Times::time_read, x690::specs::Time::time_size))]
pub fn is_time(kind: TimeKind, c: &[u8]) -> bool
    ensures { result ≡ is_time kind c.now }
{
    c.len() == size(kind) && c.ends_with(b"Z") && in_range(kind, of(kind, c))
}

// The time of contents that are those of one; else one that is in range nowhere, or not theirs.
#[tactic(auto, unfolding(crate::specs::Times::year_size, x690::specs::Time::time_size))]
pub fn of(kind: TimeKind, c: &[u8]) -> DateTime
    ensures { (result ≡ time_read kind c.now)
        × (is_time kind c.now ≡ true → result ≡ time_of kind c.now) }
{
    if c.len() != size(kind) {
        return DateTime {
            year: 0,
            month: 0,
            day: 0,
            hour: 0,
            minute: 0,
            second: 0,
        };
    }
    from(year(kind, c), c, year_size(kind))
}

// Puts a number in two digits.
#[tactic(auto, unfolding(x690::specs::Time::two_digits))]
fn put_two(n: u8, part: &mut [u8], at: usize)
    requires { at + 1 < length part.old }
    ensures { part.new ≡ sets part.old at (two_digits n) }
{
    part[at] = b'0' + n / 10;
    part[at + 1] = b'0' + n % 10;
}

// Puts the last digits of a year, as many as its kind has.
#[tactic(auto, unfolding(crate::specs::Times::year_size, dates::specs::Calendar::years, x690::specs::Time::year_digits, x690::specs::Time::two_digits))]
fn put_year(kind: TimeKind, year: u16, part: &mut [u8])
    requires { year_size kind ≤ length part.old }
    ensures { part.new ≡ sets part.old 0 (year_digits kind (year % years kind)) }
{
    let low = (year % 100) as u8;
    match kind {
        TimeKind::Utc => put_two(low, part, 0),
        TimeKind::Generalized => {
            put_two((year / 100 % 100) as u8, part, 0);
            put_two(low, part, 2);
        }
    }
}

// Puts what stands after the year.
#[tactic(auto, unfolding(x690::specs::Time::later_digits, x690::specs::Time::two_digits))]
fn put_later(t: DateTime, part: &mut [u8], at: usize)
    requires { at + 11 ≤ length part.old }
    ensures { part.new ≡ sets part.old at (later_digits t) }
{
    put_two(t.month, part, at);
    put_two(t.day, part, at + 2);
    put_two(t.hour, part, at + 4);
    put_two(t.minute, part, at + 6);
    put_two(t.second, part, at + 8);
    part[at + 10] = b'Z';
}

// Puts the contents octets of a time over a part that has as many; another stays. Of a year with more digits than its kind has, the last ones.
#[tactic(auto, unfolding(crate::specs::Times::year_size, x690::specs::Time::time_size))]
pub fn put(kind: TimeKind, t: DateTime, part: &mut [u8])
    ensures { (part.new ≡ filled part.old (time_digits kind (last_digits kind t)))
        × (in_range kind t ≡ true → part.new ≡ filled part.old (time_digits kind t)) }
{
    if part.len() != size(kind) {
        return;
    }
    put_year(kind, t.year, part);
    put_later(t, part, year_size(kind));
}
