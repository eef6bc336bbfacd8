// Days, seconds and the order of times (FORMATS, "Times"). No step grows with the year.
ghost use Rattle.std.specs.Prelude.{◌≡◌, ◌<◌};
ghost use Rattle.dates.specs.Calendar.{month_days};
ghost use Rattle.dates.specs.Seconds.{sum, year_days, day_number, seconds_of, elapsed as Seconds·elapsed, order as Seconds·order};

use crate::calendar::is_leap;
use dates::DateTime;
use std::cmp::Ordering;

// The days of a year.
#[tactic(auto, using(dates::proofs::Days::year_days_lem))]
fn year_days(year: u16) -> usize
    ensures { (result ≡ year_days year) × (result < 367) }
{
    if is_leap(year) { 366 } else { 365 }
}

// The days of all years before a year; (y + 3) / 4 multiples of four are below y.
#[tactic(auto, using(dates::proofs::Days::years_closed))]
fn before_year(year: u16) -> usize
    ensures { (result ≡ sum year_days year) × (result < 24000000) }
{
    let y = year as usize;
    365 * y + (y + 3) / 4 + (y + 399) / 400 - (y + 99) / 100
}

// The days of a year before each month but for a 29 February.
const BEFORE: [usize; 13] = [0, 0, 31, 59, 90, 120, 151, 181, 212, 243, 273, 304, 334];

// The days of a year before a month.
fn before_month(year: u16, month: u8) -> usize
    ensures { (result ≡ sum (month_days year) month) × (result < 367) }
{
    if 12 < month {
        return year_days(year);
    }
    let days = BEFORE[month as usize];
    if month < 3 {
        return days;
    }
    if is_leap(year) {
        return days + 1;
    }
    days
}

// The days from 1 January of the year 0 to a date.
#[tactic(auto, unfolding(dates::specs::Seconds::day_number))]
pub fn day_number(t: DateTime) -> usize
    ensures { (result ≡ day_number t) × (result < 24001000) }
{
    let start = before_year(t.year) + before_month(t.year, t.month);
    if t.day == 0 {
        return start;
    }
    start + t.day as usize - 1
}

// The seconds from midnight of that day to a time.
#[tactic(auto, unfolding(dates::specs::Seconds::seconds_of))]
pub fn seconds(t: DateTime) -> usize
    ensures { (result ≡ seconds_of t) × (result < 2199023255552) }
{
    ((day_number(t) * 24 + t.hour as usize) * 60 + t.minute as usize) * 60 + t.second as usize
}

// The seconds from the first time to the second, negative if that is before it.
#[tactic(auto, unfolding(dates::specs::Seconds::elapsed))]
pub fn elapsed(a: DateTime, b: DateTime) -> i64
    ensures { result ≡ Seconds·elapsed a b }
{
    seconds(b) as i64 - seconds(a) as i64
}

// -1 for before, 0 for the same, 1 for after: the first field in which they differ decides.
pub fn order(a: DateTime, b: DateTime) -> i64
    ensures { result ≡ Seconds·order a b }
{
    match a.cmp(&b) {
        Ordering::Less => -1,
        Ordering::Equal => 0,
        Ordering::Greater => 1,
    }
}
