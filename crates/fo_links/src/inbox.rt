//! A buffer behind a source.
ghost use Rattle.std.specs.Prelude.{◌≡◌, ℕ, ◌+◌, ◌-◌, ◌*◌, ◌<◌, ◌≤◌, ◌++◌, List, [], length, take, drop, vec_len, IfOk};
ghost use Rattle.fo_base.specs.Cause.{HasCause};
ghost use Rattle.fo_links.specs.Links.{Taken};
ghost use Rattle.fo_links.specs.Filling.{Filled};

use crate::traits::{Failed, Source};
use fo_base::Memory;
use std::alloc::Global;
use std::marker::Model;

/// The bytes that came from a source and are not used up. They lie in a buffer of `ROOM` bytes, and
/// move to its front only where no room is left behind them. More are taken only while fewer wait
/// than half of `ROOM`: so each byte is moved a bounded number of times, in whatever pieces they come.
#[derive(Drop)]
pub struct Inbox<const ROOM: usize> {
    bytes: Vec<u8>,
    start: usize,
    end: usize,
}

impl<const ROOM: usize> Model for Inbox<ROOM> {
    ghost Value = { List ℕ };

    ghost view = { λ b. take (b.end - b.start) (drop b.start b.bytes.items) };

    ghost invariant = { λ b. (b.start ≤ b.end) × (b.end ≤ ROOM) × (vec_len b.bytes ≡ ROOM) };
}

impl<const ROOM: usize> Inbox<ROOM> {
    /// An empty one.
    pub fn new(alloc: Global) -> Result<Inbox<ROOM>, Memory>
        ensures { IfOk result (λ inbox. inbox ≡ []) }
    {
        Ok(Inbox {
            bytes: vec![in alloc; 0; ROOM]?,
            start: 0,
            end: 0,
        })
    }

    /// The bytes that wait.
    pub fn waiting(&self) -> &[u8]
        ensures { result.now ≡ self.now }
    {
        &self.bytes[self.start..self.end]
    }

    /// Uses up so many bytes.
    pub fn consume(&mut self, count: usize)
        requires { count ≤ length self.old }
        ensures { self.new ≡ drop count self.old }
    {
        self.start += count;
    }

    /// Takes more bytes from the source, and says how many.
    pub fn fill<S: Source>(&mut self, input: &mut S) -> Result<usize, Failed>
        requires { 2 * length self.old < ROOM }
        ensures filled { Filled (S.left input.old) (S.left input.new) (S.room input.old) (S.room input.new) self.old self.new result }
        ensures bound { length self.new ≤ ROOM }
        ensures cause { HasCause (S.faults input.old) (S.faults input.new) result }
    {
        let (start, end) = pack(&mut self.bytes, self.start, self.end);
        self.start = start;
        self.end = end;
        let count = take_behind(&mut self.bytes, end, input)?;
        self.end = end + count;
        Ok(count)
    }
}

/// Moves the part to the front where there is no room behind it, and says where it lies now.
fn pack(bytes: &mut [u8], start: usize, end: usize) -> (usize, usize)
    requires order { start ≤ end }
    requires within { end ≤ length bytes.old }
    requires room { end - start < length bytes.old }
    ensures order { result.0 ≤ result.1 }
    ensures room { result.1 < length bytes.new }
    ensures part { take (result.1 - result.0) (drop result.0 bytes.new) ≡ take (end - start) (drop start bytes.old) }
{
    if start == end {
        return (0, 0);
    }
    if end < bytes.len() {
        return (start, end);
    }
    bytes.copy_within(start..end, 0);
    (0, end - start)
}

/// Takes bytes from the source to what lies behind `end`.
fn take_behind<S: Source>(bytes: &mut [u8], end: usize, input: &mut S) -> Result<usize, Failed>
    requires { end < length bytes.old }
    ensures front { take end bytes.new ≡ take end bytes.old }
    ensures taken { Taken (S.left input.old) (S.left input.new) (S.given input.old) (S.given input.new)
        (S.room input.old) (S.room input.new) (drop end bytes.old) (drop end bytes.new) result }
    ensures cause { HasCause (S.faults input.old) (S.faults input.new) result }
{
    input.take(&mut bytes[end..])
}
