//! The names by year, month and day, hour and minute.
ghost use Rattle.std.specs.Prelude.{◌≡◌, ◌+◌, ◌%◌, pos, map, IfOk};
ghost use Rattle.fo_world.specs.Date.{date_of};
ghost use Rattle.fo_world.specs.Dated.{has_twin, four_digits, dated_name};
ghost use Rattle.fo_names.specs.Names.{taken, named, dated};

use fo_base::Memory;
use fo_world::Name;
use jiff::ToSpan;
use jiff::civil::{self, Date};
use std::alloc::Global;

/// Where the tree of a moment stands among the dated directories: the year, the month and day as mmdd, and the name in the directory of that day.
#[derive(Debug, Drop)]
pub struct DatedName {
    pub year: u16,
    pub monthday: u16,
    pub name: Name,
}

/// The date in UTC of a moment, in seconds since 1970-01-01.
fn date_of(time: u32) -> Date
    ensures year { result.year ≡ pos (date_of time).year }
    ensures month { result.month ≡ (date_of time).month }
    ensures day { result.day ≡ (date_of time).day }
{
    let days = i64::from(time / 86400);
    civil::date(1970, 1, 1) + days.days()
}

/// Whether one with a smaller epoch was taken in the same minute.
fn has_twin(list: &[(u32, u32)], epoch: u32, time: u32) -> bool
    ensures { result ≡ has_twin (map taken list.now) (taken (epoch, time)) }
{
    list.iter()
        .any(|other| other.1 / 60 == time / 60 && other.0 < epoch)
}

fn digit(n: u32) -> u8
    ensures { result ≡ 48 + n % 10 }
{
    b'0' + (n % 10) as u8
}

/// The last four digits.
fn four_digits(n: u32) -> [u8; 4]
    ensures { result ≡ four_digits n }
{
    [digit(n / 1000), digit(n / 100), digit(n / 10), digit(n)]
}

/// The name in the directory of the day: hhmm, and the epoch behind a point where one of the same minute has a smaller epoch.
fn dated_name(alloc: Global, list: &[(u32, u32)], epoch: u32, time: u32) -> Result<Name, Memory>
    ensures { IfOk result (λ n. n ≡ dated_name (map taken list.now) (taken (epoch, time))) }
{
    let hour_minute = time % 86400 / 3600 * 100 + time % 3600 / 60;
    let mut name = Vec::from_slice(alloc, &four_digits(hour_minute))?;
    if has_twin(list, epoch, time) {
        let suffix = format!(in alloc; ".{epoch}")?;
        name.extend_from_slice(suffix.as_bytes())?;
    }
    Ok(Name::new(name))
}

/// The year, the month and day, and the name of one of the list.
fn named(alloc: Global, list: &[(u32, u32)], epoch: u32, time: u32) -> Result<DatedName, Memory>
    ensures { IfOk result (λ d. d ≡ named (map taken list.now) (taken (epoch, time))) }
{
    let date = date_of(time);
    let year = date.year() as u16;
    let monthday = date.month() as u16 * 100 + date.day() as u16;
    let name = dated_name(alloc, list, epoch, time)?;
    Ok(DatedName {
        year,
        monthday,
        name,
    })
}

/// For each epoch and time of the list, the epoch with its year, its month and day, and its name in UTC.
pub fn dated(alloc: Global, list: &[(u32, u32)]) -> Result<Vec<(u32, DatedName)>, Memory>
    ensures { IfOk result (λ v. v.items ≡ dated list.now) }
{
    let mut names = Vec::new(alloc);
    for (epoch, time) in list {
        let name = named(alloc, list, *epoch, *time)?;
        names.push((*epoch, name))?;
    }
    Ok(names)
}
