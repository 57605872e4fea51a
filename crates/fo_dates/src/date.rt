//! Dates, and the times of a day.
ghost use Rattle.std.specs.Prelude.{◌≡◌, ℕ, ◌+◌, ◌/◌, ◌<◌, ◌≤◌};
ghost use Rattle.fo_world.specs.Date as calendar;
ghost use Rattle.fo_world.specs.Date.{is_leap_year, days_in_month};

use std::marker::Model;

/// A date of the Gregorian calendar.
#[derive(Drop)]
pub struct Date {
    year: u32,
    month: u32,
    day: u32,
}

impl Model for Date {
    ghost use Rattle.std.specs.Prelude.{◌≤◌};
    ghost use Rattle.fo_world.specs.Date as calendar;

    ghost Value = { calendar.Date };

    ghost view = { λ d. record { year = d.year; month = d.month; day = d.day } };

    ghost invariant = { λ d. (d.month ≤ 12) × (d.day ≤ 31) };
}

// Whether a year has 366 days.
fn is_leap_year(year: u32) -> bool
    ensures { result ≡ is_leap_year year }
{
    year % 4 == 0 && (year % 100 != 0 || year % 400 == 0)
}

// How many days a month has.
fn days_in_month(year: u32, month: u32) -> u32
    ensures days { result ≡ days_in_month year month }
    ensures most { result ≤ 31 }
{
    if month == 2 {
        if is_leap_year(year) { 29 } else { 28 }
    } else if month == 4 || month == 6 || month == 9 || month == 11 {
        30
    } else {
        31
    }
}

impl Date {
    ghost use Rattle.std.specs.Prelude.{◌≡◌, ◌+◌, ◌<◌, ◌≤◌};
    ghost use Rattle.fo_world.specs.Date.{day_after, monthday_of};

    // The date of the day after.
    fn next(self) -> Date
        requires { self.year < 100000 }
        ensures date { result ≡ day_after self }
        ensures year { result.year ≤ self.year + 1 }
    {
        let Date { year, month, day } = self;
        if day < days_in_month(year, month) {
            Date {
                year,
                month,
                day: day + 1,
            }
        } else if month < 12 {
            Date {
                year,
                month: month + 1,
                day: 1,
            }
        } else {
            Date {
                year: year + 1,
                month: 1,
                day: 1,
            }
        }
    }

    /// The year.
    pub fn year(&self) -> u32
        ensures { result ≡ self.now.year }
    {
        self.year
    }

    /// The month and the day as one number, mmdd.
    pub fn monthday(&self) -> u32
        ensures number { result ≡ monthday_of self.now }
        ensures small { result < 10000 }
    {
        self.month * 100 + self.day
    }
}

/// The date of a moment, in seconds since 1970-01-01.
pub fn date_of(time: u32) -> Date
    ensures date { result ≡ calendar.date_of time }
    ensures year { result.year < 65536 }
{
    let mut date = Date {
        year: 1970,
        month: 1,
        day: 1,
    };
    for day in 0..time / 86400 {
        date = date.next();
    }
    date
}

/// The hour and the minute of a moment as one number, hhmm.
pub fn hour_minute_of(time: u32) -> u32
    ensures { result ≡ calendar.hour_minute_of time }
{
    time % 86400 / 3600 * 100 + time % 3600 / 60
}
