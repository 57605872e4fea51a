//! Pages of bytes, kept by their numbers. A page that isn't kept has zero bytes.
ghost use Rattle.std.specs.Prelude.{◌≡◌, ◌≢◌, ℕ, ◌+◌, ◌/◌, ◌%◌, ◌^◌, ◌<◌, ◌≤◌, length, slice_index, IsSome, IfSome, OnOk, IfNone, IfOk, None};
ghost use Rattle.std.specs.Ordering.{nat_cmp};
ghost use Rattle.std.specs.BTreeMap.{get};
ghost use Rattle.fo_sparse.specs.Pages.{byte_at, SameBytes, Puts, CutAt, SamePages};

use crate::page::{PAGE, Page};
use std::alloc::{AllocError, Global};
use std::collections::BTreeMap;

pub(crate) type Pages = BTreeMap<u64, Page>;

/// The number of the page that has this place.
fn number_of(place: u64) -> u64
    ensures { result ≡ place / 4096 }
{
    place / PAGE as u64
}

/// Where in its page this place is.
fn index_of(place: u64) -> usize
    ensures { result ≡ place % 4096 }
{
    (place % PAGE as u64) as usize
}

/// Copies the bytes from the offset on.
pub(crate) fn copy_out(pages: &Pages, offset: u64, into: &mut [u8])
    requires { offset + length into.old < 2 ^ 64 }
    ensures { (i : ℕ) → i < length into.old → slice_index into.new i ≡ byte_at pages.now (offset + i) }
{
    let mut done = 0;
    while done < into.len() {
        let place = offset + done as u64;
        let count = (PAGE - index_of(place)).min(into.len() - done);
        copy_page(pages, place, &mut into[done..done + count]);
        done += count;
    }
}

/// Copies bytes of one page.
fn copy_page(pages: &Pages, place: u64, into: &mut [u8])
    requires { place % 4096 + length into.old ≤ 4096 }
    ensures { (i : ℕ) → i < length into.old → slice_index into.new i ≡ byte_at pages.now (place + i) }
{
    let at = index_of(place);
    match pages.get(&number_of(place)) {
        Some(page) => into.copy_from_slice(&page.as_slice()[at..at + into.len()]),
        None => into.fill(0),
    }
}

/// Puts the bytes from the offset on, into pages that are kept.
pub(crate) fn put(pages: &mut Pages, offset: u64, bytes: &[u8])
    requires room { offset + length bytes.now < 2 ^ 64 }
    requires kept { (k : ℕ) → offset ≤ k → k < offset + length bytes.now → IsSome (get nat_cmp pages.old (k / 4096)) }
    ensures puts { Puts pages.old pages.new offset bytes.now }
    ensures pages { SamePages pages.old pages.new }
{
    let mut done = 0;
    while done < bytes.len() {
        let place = offset + done as u64;
        let count = (PAGE - index_of(place)).min(bytes.len() - done);
        put_in_page(pages, place, &bytes[done..done + count]);
        done += count;
    }
}

/// Puts bytes into one page, which is kept.
fn put_in_page(pages: &mut Pages, place: u64, bytes: &[u8])
    requires fits { place % 4096 + length bytes.now ≤ 4096 }
    requires kept { IsSome (get nat_cmp pages.old (place / 4096)) }
    ensures puts { Puts pages.old pages.new place bytes.now }
    ensures pages { SamePages pages.old pages.new }
{
    if let Some(page) = pages.get_mut(&number_of(place)) {
        page.write(index_of(place), bytes);
    }
}

/// Sees to it that each page from the first number on, up to the end, is kept. Where there is no memory,
/// some of them may be.
pub(crate) fn keep_pages(
    pages: &mut Pages,
    alloc: Global,
    first: u64,
    end: u64,
) -> Result<(), AllocError>
    ensures same { SameBytes pages.old pages.new }
    ensures kept { OnOk result ((q : ℕ) → first ≤ q → q < end → IsSome (get nat_cmp pages.new q)) }
    ensures past { (q : ℕ) → end ≤ q → get nat_cmp pages.new q ≡ get nat_cmp pages.old q }
{
    for number in first..end {
        keep_page(pages, alloc, number)?;
    }
    Ok(())
}

/// Sees to it that this page is kept.
fn keep_page(pages: &mut Pages, alloc: Global, number: u64) -> Result<(), AllocError>
    ensures same { SameBytes pages.old pages.new }
    ensures others { (q : ℕ) → q ≢ number → get nat_cmp pages.new q ≡ get nat_cmp pages.old q }
    ensures kept { OnOk result (IsSome (get nat_cmp pages.new number)) }
{
    if !pages.contains_key(&number) {
        pages.insert(number, Page::zeroed(alloc)?)?;
    }
    Ok(())
}

/// Makes each byte from this place on zero, and keeps no page that has no other.
pub(crate) fn cut(pages: &mut Pages, len: u64)
    ensures { CutAt pages.old pages.new len }
{
    drop_pages(pages, len.div_ceil(PAGE as u64));
    if let Some(page) = pages.get_mut(&number_of(len)) {
        page.clear_from(index_of(len));
    }
}

/// Keeps no page from this number on.
fn drop_pages(pages: &mut Pages, first: u64)
    ensures below { (q : ℕ) → q < first → get nat_cmp pages.new q ≡ get nat_cmp pages.old q }
    ensures past { (q : ℕ) → first ≤ q → get nat_cmp pages.new q ≡ None }
{
    while let Some(number) = last_number(pages) {
        if number < first {
            return;
        }
        pages.remove(&number);
    }
}

/// The greatest number of a page that is kept.
fn last_number(pages: &Pages) -> Option<u64>
    ensures kept { IfSome result (λ n. IsSome (get nat_cmp pages.now n)) }
    ensures last { IfSome result (λ n. (q : ℕ) → IsSome (get nat_cmp pages.now q) → q ≤ n) }
    ensures none { IfNone result ((q : ℕ) → get nat_cmp pages.now q ≡ None) }
{
    let (number, _) = pages.last_key_value()?;
    Some(*number)
}

/// Copies of the pages.
pub(crate) fn copy_pages(pages: &Pages) -> Result<Pages, AllocError>
    ensures { IfOk result (λ copy. copy.entries ≡ pages.now.entries) }
{
    pages.clone()
}
