// Which dates and times of day there are (FORMATS, "Times").
ghost use Rattle.std.specs.Prelude.{◌≡◌};
ghost use Rattle.dates.specs.Calendar.{leap, february as Calendar·february, month_days, years, is_date, is_time_of_day, in_range};

use dates::{DateTime, TimeKind};

// Whether a year has a 29 February.
#[tactic(auto, unfolding(dates::specs::Calendar::leap))]
pub fn is_leap(year: u16) -> bool
    ensures { result ≡ leap year }
{
    year % 4 == 0 && (year % 100 != 0 || year % 400 == 0)
}

// The days of a year's February.
#[tactic(auto, unfolding(dates::specs::Calendar::february))]
fn february(year: u16) -> u8
    ensures { result ≡ Calendar·february year }
{
    if is_leap(year) { 29 } else { 28 }
}

// The days of each month but for a 29 February; there is no month 0.
const DAYS: [u8; 13] = [0, 31, 28, 31, 30, 31, 30, 31, 31, 30, 31, 30, 31];

// How many days a month has.
pub fn month_days(year: u16, month: u8) -> u8
    ensures { result ≡ month_days year month }
{
    if 12 < month {
        return 0;
    }
    if month == 2 {
        return february(year);
    }
    DAYS[month as usize]
}

// How many years a kind of time has, from 0 on.
#[tactic(auto, unfolding(dates::specs::Calendar::years))]
pub fn years_of(kind: TimeKind) -> u16
    ensures { result ≡ years kind }
{
    match kind {
        TimeKind::Utc => 100,
        TimeKind::Generalized => 10000,
    }
}

// Whether there is such a date.
#[tactic(auto, unfolding(dates::specs::Calendar::is_date))]
pub fn is_date(t: DateTime) -> bool
    ensures { result ≡ is_date t }
{
    (1..=12).contains(&t.month) && (1..=month_days(t.year, t.month)).contains(&t.day)
}

// Whether there is such a time of day.
#[tactic(auto, unfolding(dates::specs::Calendar::is_time_of_day))]
pub fn is_time_of_day(t: DateTime) -> bool
    ensures { result ≡ is_time_of_day t }
{
    t.hour < 24 && t.minute < 60 && t.second < 60
}

// Whether a time is one of its kind.
#[tactic(auto, unfolding(dates::specs::Calendar::in_range))]
pub fn in_range(kind: TimeKind, t: DateTime) -> bool
    ensures { result ≡ in_range kind t }
{
    t.year < years_of(kind) && is_date(t) && is_time_of_day(t)
}
