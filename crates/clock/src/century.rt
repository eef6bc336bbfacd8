// The century of a UTCTime's year (FORMATS, "Centuries"): a link version has a window of a hundred years, given by its first year alone.
ghost use Rattle.std.specs.Prelude.{◌≡◌, ◌≤◌};
ghost use Rattle.dates.specs.Century.{is_version, first_year, in_window, to_utc, to_generalized};

use dates::DateTime;

// Whether there is such a link version.
#[tactic(auto, unfolding(dates::specs::Century::is_version))]
pub fn is_version(version: usize) -> bool
    ensures { result ≡ is_version version }
{
    version == 1 || version == 2
}

// The first year of a version's window.
#[tactic(auto, unfolding(dates::specs::Century::first_year))]
fn first_year(version: usize) -> usize
    ensures { (result ≡ first_year version) × (result ≤ 2000) }
{
    if version == 1 { 1970 } else { 1950 }
}

// Whether a year is inside it.
#[tactic(auto, unfolding(dates::specs::Century::in_window))]
pub fn in_window(version: usize, year: u16) -> bool
    ensures { result ≡ in_window (first_year version) year }
{
    let from = first_year(version);
    (from..from + 100).contains(&usize::from(year))
}

// A UTCTime as a GeneralizedTime, in the year of the window that ends with its two digits.
#[tactic(auto, unfolding(dates::specs::Century::to_generalized, dates::specs::Century::window_year, dates::specs::Century::in_year))]
pub fn to_generalized(version: usize, t: DateTime) -> DateTime
    ensures { result ≡ to_generalized (first_year version) t }
{
    let first = first_year(version);
    let behind = (t.year as usize + 100 - first % 100) % 100;
    DateTime {
        year: (first + behind) as u16,
        ..t
    }
}

// A GeneralizedTime as a UTCTime.
#[tactic(auto, unfolding(dates::specs::Century::to_utc, dates::specs::Century::in_year))]
pub fn to_utc(t: DateTime) -> DateTime
    ensures { result ≡ to_utc t }
{
    DateTime {
        year: t.year % 100,
        ..t
    }
}
