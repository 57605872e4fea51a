//! The order of writing.
ghost use Rattle.std.specs.Bool.{OnTrue, OnFalse};
ghost use Rattle.std.specs.Prelude.{◌≡◌, ◌+◌, ◌-◌, ◌<◌, ◌≤◌, true, false, [], length, replicate, max, count_by, IfOk, OnOk, OnErr};
ghost use Rattle.fo_order.specs.Flags.{quiet, flags_of, is_dirty};
ghost use Rattle.fo_order.specs.Turns.{flag_at, noted, is_ranked, changed, wrote, forgotten, IsQuiet, IsSynced, IsTurn};

use crate::marks::{Flags, Mark, Tried, add_mark, drop_stale, settle_all, top};
use crate::table::FlagTable;
use fo_base::Memory;
use std::alloc::Global;
use std::marker::Model;

/// What is to be done next.
#[derive(Clone, Copy, Debug, PartialEq, Eq)]
pub enum Turn {
    /// This block is to be written.
    Write(u32),
    /// What was written is to be settled.
    Sync,
    /// All is settled.
    Idle,
}

/// The order of writing, and the flags of blocks. The dirty blocks have marks in a list by falling ranks, so that the next one stands
/// at its end; marks that flags no longer say are dropped there. Each list holds one mark more than the room asks.
#[derive(Drop)]
pub struct Order {
    flags: FlagTable,
    dirty: Vec<Mark>,
    written: Vec<Mark>,
    least: u32,
    count: usize,
    room: usize,
}

impl Model for Order {
    ghost use Rattle.fo_order.specs.Keeps.{Turns};

    ghost Value = { Turns };

    ghost use Rattle.fo_order.specs.Inside.{view_of, IsOrdered};

    ghost view = { view_of };

    ghost invariant = { IsOrdered };
}

impl Order {
    /// So many addresses, all settled.
    pub fn new(alloc: Global, count: u32) -> Result<Order, Memory>
        ensures { IfOk result (λ o. o ≡ record { flags = replicate count quiet; written = []; room = 0 }) }
    {
        Ok(Order {
            flags: FlagTable::new(alloc, count as usize)?,
            dirty: Vec::with_capacity(alloc, 1)?,
            written: Vec::with_capacity(alloc, 1)?,
            least: u32::MAX,
            count: 0,
            room: 0,
        })
    }

    /// Makes room for so many changes. This alone may want memory, and then nothing changes.
    pub fn reserve(&mut self, room: usize) -> Result<(), Memory>
        ensures ok { OnOk result (self.new ≡ record self.old { room = max self.old.room room }) }
        ensures err { OnErr result (self.new ≡ self.old) }
    {
        let room = self.room.max(room);
        let Some(marks) = room.checked_add(1) else {
            return Err(Memory);
        };
        let Some(writes) = self.count.checked_add(marks) else {
            return Err(Memory);
        };
        self.dirty.reserve(marks)?;
        self.written.reserve(writes)?;
        self.room = room;
        Ok(())
    }

    /// How many addresses there are.
    pub fn len(&self) -> usize
        ensures { result ≡ length self.now.flags }
    {
        self.flags.len()
    }

    /// How many changes need no memory.
    pub fn room(&self) -> usize
        ensures { result ≡ self.now.room }
    {
        self.room
    }

    /// What is known of a block.
    pub fn flags(&self, at: u32) -> Flags
        requires { at < length self.now.flags }
        ensures { result ≡ flag_at self.now at }
    {
        self.flags.get(at)
    }

    /// How many blocks are dirty.
    pub fn dirty_len(&self) -> usize
        ensures { result ≡ count_by is_dirty self.now.flags }
    {
        self.count
    }

    /// What was written since the last sync.
    pub fn written(&self) -> &[Mark]
        ensures { result.now ≡ self.now.written }
    {
        self.written.as_slice()
    }

    /// A block was changed, and is dirty with this rank. Room is used where it wasn't so.
    pub fn change(&mut self, at: u32, rank: u32)
        requires block { at < length self.old.flags }
        requires room { is_ranked rank (flag_at self.old at) ≡ false → 0 < self.old.room }
        ensures { self.new ≡ changed self.old at rank }
    {
        if self.is_ranked(at, rank) {
            return;
        }
        self.mark(at, rank);
    }

    // Whether a block is dirty with this rank already.
    fn is_ranked(&self, at: u32, rank: u32) -> bool
        requires { at < length self.now.flags }
        ensures { result ≡ is_ranked rank (flag_at self.now at) }
    {
        let was = self.flags.get(at);
        was.dirty && was.rank == rank
    }

    // A block is dirty with this rank.
    fn mark(&mut self, at: u32, rank: u32)
        requires block { at < length self.old.flags }
        requires room { 0 < self.old.room }
        ensures { self.new ≡ record (noted self.old at (flags_of true (flag_at self.old at).tried rank)) { room = self.old.room - 1 } }
    {
        let was = self.flags.get(at);
        let now = Flags {
            dirty: true,
            tried: was.tried,
            rank,
        };
        self.flags.set(at, now);
        add_mark(&mut self.dirty, at, rank);
        self.count += usize::from(!was.dirty);
        self.room -= 1;
    }

    /// A block is changed where all is settled. It takes the one mark that is kept beside the room, which stays as it was.
    pub fn change_first(&mut self, at: u32, rank: u32)
        requires block { at < length self.old.flags }
        requires quiet { IsQuiet self.old }
        ensures { self.new ≡ changed (record self.old { room = self.old.room + 1 }) at rank }
    {
        let was = self.flags.get(at);
        let now = Flags {
            dirty: true,
            tried: was.tried,
            rank,
        };
        self.flags.set(at, now);
        self.dirty.clear();
        self.dirty.push_reserved(Mark { at, rank });
        self.count = 1;
    }

    /// A write of a dirty block was answered: Ok or not.
    pub fn wrote(&mut self, at: u32, ok: bool)
        requires { (flag_at self.old at).dirty ≡ true }
        ensures is { self.new ≡ wrote self.old at ok }
        ensures fewer { ok ≡ true → count_by is_dirty self.new.flags + 1 ≡ count_by is_dirty self.old.flags }
    {
        let was = self.flags.get(at);
        if !ok {
            let now = Flags {
                dirty: true,
                tried: Tried::Failed,
                rank: was.rank,
            };
            self.flags.set(at, now);
            return;
        }
        let now = Flags {
            dirty: false,
            tried: Tried::Written,
            rank: was.rank,
        };
        self.flags.set(at, now);
        self.written.push_reserved(Mark { at, rank: was.rank });
        self.least = self.least.min(was.rank);
        self.count -= 1;
    }

    /// A sync answered Ok.
    pub fn synced(&mut self)
        ensures { IsSynced self.old self.new }
    {
        settle_all(&mut self.flags, &mut self.written);
        self.least = u32::MAX;
    }

    /// A block was closed: it isn't written any more, unless its last write failed.
    pub fn forget(&mut self, at: u32)
        requires { at < length self.old.flags }
        ensures { self.new ≡ forgotten self.old at }
    {
        let was = self.flags.get(at);
        if was.tried == Tried::Failed {
            return;
        }
        let now = Flags {
            dirty: false,
            tried: was.tried,
            rank: u32::MAX,
        };
        self.flags.set(at, now);
        self.count -= usize::from(was.dirty);
    }

    /// What is to be done next.
    pub fn turn(&mut self) -> Turn
        ensures turn { IsTurn self.old result }
        ensures same { self.new ≡ self.old }
    {
        drop_stale(&self.flags, &mut self.dirty);
        let none = is_none(&self.written);
        match top(&self.dirty) {
            Some(mark) if is_below(self.least, mark.rank) => Turn::Sync,
            Some(mark) => Turn::Write(mark.at),
            None if none => Turn::Idle,
            None => Turn::Sync,
        }
    }
}

// Whether there are no marks.
fn is_none(marks: &[Mark]) -> bool
    ensures none { OnTrue result (marks.now ≡ []) }
    ensures some { OnFalse result (0 < length marks.now) }
{
    marks.is_empty()
}

// Whether a rank is higher than the least.
fn is_below(least: u32, rank: u32) -> bool
    ensures below { OnTrue result ((least < rank) × (least < 4294967295)) }
    ensures other { OnFalse result (rank ≤ least) }
{
    least < rank
}
