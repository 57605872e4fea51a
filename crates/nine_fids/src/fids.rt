//! Fids looked up and kept.
ghost use Rattle.std.specs.Prelude.{◌≡◌, ◌==◌, not, filter, ◌++◌, ◌∷◌, [], ◌<◌, ℕ, List, length, is_ok, IfOk, IfErr, OnErr, Option, Some, None, MatchOption, if◌then◌else◌};
ghost use Rattle.nine_fids.specs.Fids as nine;

use crate::fid::Fid;
use fo_world::Place;
use std::alloc::AllocFailed;

/// The number that stands for no fid.
pub const NOFID: u32 = u32::MAX;

/// The most fids that a session has.
pub const MOST_FIDS: usize = 4096;

/// The fid with a number.
pub fn fid_of(fids: &[Fid], number: u32) -> Option<&Fid>
    ensures { MatchOption result (nine.fid_of number fids.now ≡ None) (λ f. nine.fid_of number fids.now ≡ Some f.now) }
{
    for fid in fids {
        if fid.number == number {
            return Some(fid);
        }
    }
    None
}

/// The fid with a number that a client may name.
pub fn known(fids: &[Fid], number: u32) -> Option<&Fid>
    ensures { MatchOption result (nine.known number fids.now ≡ None) (λ f. nine.known number fids.now ≡ Some f.now) }
{
    if number == NOFID {
        return None;
    }
    fid_of(fids, number)
}

/// Whether a new fid can't have a number.
pub fn in_use(fids: &[Fid], number: u32) -> bool
    ensures { result ≡ nine.in_use number fids.now }
{
    number == NOFID || fid_of(fids, number).is_some()
}

/// Takes the fid with a number out.
pub fn remove_fid(fids: &mut Vec<Fid>, number: u32)
    ensures { fids.new.items ≡ nine.without number fids.old.items }
{
    for i in 0..fids.len() {
        if fids[i].number == number {
            fids.remove(i);
            return;
        }
    }
}

/// Puts a fid in place of the one that has its number.
pub fn put_fid(fids: &mut Vec<Fid>, fid: Fid)
    ensures { fids.new.items ≡ nine.with_fid fid fids.old.items }
{
    for i in 0..fids.len() {
        if fids[i].number == fid.number {
            fids[i] = fid;
            return;
        }
    }
}

/// The fid with the least number.
pub fn least(fids: &[Fid]) -> Option<&Fid>
    ensures { MatchOption result (nine.least fids.now ≡ None) (λ f. nine.least fids.now ≡ Some f.now) }
{
    let (first, rest) = fids.split_first()?;
    match least(rest) {
        Some(other) if other.number < first.number => Some(other),
        _ => Some(first),
    }
}

/// The file number at a place.
pub fn number_at(at: &Place) -> u32
    ensures { result ≡ nine.number_at at.now }
{
    match at.trail.as_slice().last() {
        Some(number) => *number,
        None => 0,
    }
}

/// Takes a number off a list.
fn take_off(number: u32, list: &mut Vec<u32>)
    ensures { list.new.items ≡ filter (λ k. not (k == number)) list.old.items }
{
    list.retain(|k| *k != number);
}

/// Takes a file's number off the list of exclusive opens, where the fid holds it.
pub fn release(fid: &Fid, exclusive: &mut Vec<u32>)
    ensures { exclusive.new.items ≡ nine.released fid.now exclusive.old.items }
{
    let holds = match &fid.opened {
        Some(opened) => opened.exclusive,
        None => false,
    };
    if holds {
        take_off(number_at(&fid.place), exclusive);
    }
}

/// Takes off the numbers of all fids.
pub fn release_all(fids: &[Fid], exclusive: &mut Vec<u32>)
    ensures { exclusive.new.items ≡ nine.all_released fids.now exclusive.old.items }
{
    for fid in fids {
        release(fid, exclusive);
    }
}

/// Whether a file's number is on the list.
pub fn is_listed(number: u32, exclusive: &[u32]) -> bool
    ensures { result ≡ nine.is_listed number exclusive.now }
{
    exclusive.contains(&number)
}
