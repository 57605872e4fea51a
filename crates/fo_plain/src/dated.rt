//! Dated names.
ghost use Rattle.std.specs.Prelude.{◌≡◌, ℕ, ◌+◌, ◌≤◌, ◌<◌, List, length, IfOk, MatchOption, Option, Some, None};
ghost use Rattle.std.specs.Option.{option_copied};
ghost use Rattle.fo_world.specs.Date.{date_of, monthday_of};
ghost use Rattle.fo_world.specs.Dated.{Taken, four_digits, has_twin, dated_name, taken_at, is_below, is_dated, is_listed, entry_name, dated_dir_name, dated_node, adm};
ghost use Rattle.fo_world.specs.Step.{entry_view, dated_parent, dated_entries, entry_named, least_above, lesser};

use crate::taken::Taken;
use fo_base::Bytes;
use fo_dates::{date_of, hour_minute_of};
use fo_world::{Body, Names, Node, ShortText, View, is_above};
use std::alloc::{AllocError, Global};

// The year of a moment.
fn year_of(time: u32) -> u16
    ensures { result ≡ (date_of time).year }
{
    date_of(time).year() as u16
}

// Its month-day.
fn monthday_of(time: u32) -> u16
    ensures { result ≡ monthday_of (date_of time) }
{
    date_of(time).monthday() as u16
}

// A number below 10000, with leading zeros.
fn four_digits(number: u32) -> ShortText
    ensures text { result ≡ four_digits number }
    ensures len { length result ≡ 4 }
{
    let mut text = ShortText::new();
    text.push(48 + (number / 1000 % 10) as u8);
    text.push(48 + (number / 100 % 10) as u8);
    text.push(48 + (number / 10 % 10) as u8);
    text.push(48 + (number % 10) as u8);
    text
}

// Whether one with a smaller epoch was taken in the same minute.
fn has_twin(all: &[Taken], taken: &Taken) -> bool
    ensures { result ≡ has_twin all.now taken.now }
{
    for other in all {
        if other.time() / 60 == taken.time() / 60 && other.epoch() < taken.epoch() {
            return true;
        }
    }
    false
}

/// The dated name of one of those that were taken.
pub(crate) fn dated_name(all: &[Taken], taken: &Taken) -> ShortText
    ensures { result ≡ dated_name all.now taken.now }
{
    let mut text = four_digits(hour_minute_of(taken.time()));
    if has_twin(all, taken) {
        text.push(b'.');
        text.append_decimal(taken.epoch());
    }
    text
}

/// The first one with this epoch.
pub(crate) fn taken_at(epoch: u32, all: &[Taken]) -> Option<&Taken>
    ensures { MatchOption result (taken_at epoch all.now ≡ None) (λ t. taken_at epoch all.now ≡ Some t.now) }
{
    for taken in all {
        if taken.epoch() == epoch {
            return Some(taken);
        }
    }
    None
}

// Whether its path goes through the directory of this year or month-day.
fn is_below(year: u16, monthday: u16, taken: &Taken) -> bool
    ensures { result ≡ is_below year monthday taken.now }
{
    year_of(taken.time()) == year && (monthday == 0 || monthday_of(taken.time()) == monthday)
}

/// Whether a dated directory is there.
pub(crate) fn is_dated(all: &[Taken], year: u16, monthday: u16) -> bool
    ensures { result ≡ is_dated all.now year monthday }
{
    if year == 0 && monthday == 0 {
        return true;
    }
    for taken in all {
        if is_below(year, monthday, taken) {
            return true;
        }
    }
    false
}

/// The name of a dated directory.
pub(crate) fn dated_dir_name(year: u16, monthday: u16) -> ShortText
    ensures { result ≡ dated_dir_name year monthday }
{
    if monthday != 0 {
        return four_digits(u32::from(monthday));
    }
    if year != 0 {
        return four_digits(u32::from(year));
    }
    let mut slash = ShortText::new();
    slash.push(b'/');
    slash
}

/// The name of the user who owns what nobody made.
pub(crate) fn adm(alloc: Global) -> Result<Bytes, AllocError>
    ensures { IfOk result (λ b. b ≡ adm) }
{
    Bytes::copy_of(alloc, b"adm")
}

/// What is told of a dated directory.
pub(crate) fn dated_node(alloc: Global, year: u16, monthday: u16) -> Result<Node, AllocError>
    ensures { IfOk result (λ n. n ≡ dated_node year monthday) }
{
    Ok(Node {
        number: 2147483648 + u32::from(year) * 10000 + u32::from(monthday),
        vers: 0,
        mode: 2147484013,
        atime: 0,
        mtime: 0,
        uid: adm(alloc)?,
        gid: adm(alloc)?,
        muid: adm(alloc)?,
        body: Body::Dir(Names::new(alloc)),
    })
}

// The name that one has in a dated directory.
fn entry_name(year: u16, monthday: u16, all: &[Taken], taken: &Taken) -> ShortText
    ensures { result ≡ entry_name year monthday all.now taken.now }
{
    if year == 0 {
        four_digits(u32::from(year_of(taken.time())))
    } else if monthday == 0 {
        four_digits(u32::from(monthday_of(taken.time())))
    } else {
        dated_name(all, taken)
    }
}

// The view that it leads to there.
fn entry_view(archive: bool, year: u16, monthday: u16, taken: &Taken) -> View
    ensures { result ≡ entry_view archive year monthday taken.now }
{
    if year == 0 {
        View::Dated {
            archive,
            year: year_of(taken.time()),
            monthday: 0,
        }
    } else if monthday == 0 {
        View::Dated {
            archive,
            year,
            monthday: monthday_of(taken.time()),
        }
    } else if archive {
        View::Archive(taken.epoch())
    } else {
        View::Snap(taken.epoch())
    }
}

/// The dated directory that a snapshot or an archive stands in, or its own view where none was taken at its epoch.
pub(crate) fn dated_parent(archive: bool, view: View, taken: Option<&Taken>) -> View
    ensures { result ≡ dated_parent archive view (option_copied taken.entry) }
{
    match taken {
        None => view,
        Some(taken) => View::Dated {
            archive,
            year: year_of(taken.time()),
            monthday: monthday_of(taken.time()),
        },
    }
}

/// What a dated directory lists: names, with the views that they lead to.
pub(crate) fn dated_entries(
    alloc: Global,
    archive: bool,
    year: u16,
    monthday: u16,
    all: &[Taken],
) -> Result<Vec<(ShortText, View)>, AllocError>
    ensures { IfOk result (λ v. v.items ≡ dated_entries archive year monthday all.now all.now) }
{
    let mut entries = Vec::new(alloc);
    for taken in all {
        if year == 0 || is_below(year, monthday, taken) {
            let name = entry_name(year, monthday, all, taken);
            entries.push((name, entry_view(archive, year, monthday, taken)))?;
        }
    }
    Ok(entries)
}

/// The view that the first entry with a name leads to.
pub(crate) fn entry_named(name: &[u8], entries: &[(ShortText, View)]) -> Option<View>
    ensures { result ≡ entry_named name.now entries.now }
{
    for entry in entries {
        if entry.0.as_slice() == name {
            return Some(entry.1);
        }
    }
    None
}

/// The view that the entry with the least name above leads to.
pub(crate) fn least_above(after: Option<&Bytes>, entries: &[(ShortText, View)]) -> Option<View>
    ensures { result ≡ least_above (option_copied after.entry) entries.now }
{
    let mut best: Option<&(ShortText, View)> = None;
    for entry in entries {
        if is_above(after, entry.0.as_slice()) {
            best = lesser(entry, best);
        }
    }
    match best {
        None => None,
        Some(entry) => Some(entry.1),
    }
}

// The one with the lesser name, of an entry and of the best before it.
fn lesser<'a>(
    entry: &'a (ShortText, View),
    best: Option<&'a (ShortText, View)>,
) -> Option<&'a (ShortText, View)>
    ensures { option_copied result ≡ lesser entry.now (option_copied best.entry) }
{
    match best {
        None => Some(entry),
        Some(best) => {
            if entry.0.as_slice().cmp(&best.0.as_slice()).is_lt() {
                Some(entry)
            } else {
                Some(best)
            }
        }
    }
}
