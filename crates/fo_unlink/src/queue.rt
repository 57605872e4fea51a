//! The queue of removals.
ghost use Rattle.std.specs.Prelude.{◌≡◌, ◌≢◌, ◌↔◌, ◌+◌, ◌-◌, ◌^◌, ◌<◌, ◌≤◌, ◌++◌, ◌∷◌, [], List, true, false, length, drop, max, Some, IfOk, IsOk, IsSome, MatchResult};
ghost use Rattle.fo_unlink.specs.Closing.{Tree};
ghost use Rattle.fo_unlink.specs.Pending.{IsRemoval, at_epoch, first_left, left, closes_of, wanted, way_level, first_removal, start_level, closed, dropped, entered};
ghost use Rattle.fo_unlink.specs.Steps.{Answers, unasked};
ghost use Rattle.fo_unlink.specs.declared.removal.Removal.{Removal};
ghost use Rattle.fo_unlink.specs.Work.{work, work_of, readings, Lowers};
ghost use Rattle.fo_unlink.specs.declared.removal.Step.TheVariants.{Closes, Reads, Waits, Empty};

use crate::removal::{Removal, Step};
use crate::slots::next_target;
use crate::way::{Frame, Way};
use fo_base::Memory;
use fo_image::Kind;
use std::alloc::Global;
use std::collections::VecDeque;
use std::marker::Model;

/// The removals that wait, the first of which is carried out a block at a time.
#[derive(Drop)]
pub struct Queue {
    removals: VecDeque<Removal>,
    room: u32,
    way: Way,
    asked: bool,
}

impl Model for Queue {
    ghost use Rattle.fo_unlink.specs.Pending.{Pending};

    ghost Value = { Pending };

    ghost use Rattle.fo_unlink.specs.Kept.{IsKept};

    ghost view = { λ a. record { removals = a.removals.items; way = a.way; asked = a.asked; room = a.room } };

    ghost invariant = { IsKept };
}

impl Queue {
    /// A queue with room for so many removals, and none in it.
    pub fn new(alloc: Global, room: u32) -> Result<Queue, Memory>
        ensures empty { IfOk result (λ q. q ≡ record { removals = []; way = []; asked = false; room = room }) }
        ensures work { IfOk result (λ q. work q ≡ 0) }
    {
        let removals = VecDeque::with_capacity(alloc, room as usize)?;
        Ok(Queue {
            removals,
            room,
            way: Way::new(),
            asked: false,
        })
    }

    /// Makes room for at least so many further removals. More than 32 bits can count, with those that wait, are taken for
    /// want of memory.
    pub fn reserve(&mut self, n: u32) -> Result<(), Memory>
        ensures enough { n ≤ self.old.room → IsOk result }
        ensures made { MatchResult result
            (λ _. self.new ≡ record self.old { room = max self.old.room n })
            (λ _. self.new ≡ self.old) }
        ensures work { work self.new ≡ work self.old }
    {
        if n <= self.room {
            return Ok(());
        }
        let len = self.removals.len();
        if len + n as usize > u32::MAX as usize {
            return Err(Memory);
        }
        self.removals.reserve(n as usize)?;
        self.room = n;
        Ok(())
    }

    /// Queues a removal behind all others.
    pub fn push(&mut self, r: Removal)
        requires room { 0 < self.old.room }
        requires removal { IsRemoval r }
        ensures queued { self.new ≡ record self.old { removals = self.old.removals ++ r ∷ []; room = self.old.room - 1 } }
        ensures left { (tree : Tree) → left tree self.new ≡ left tree self.old ++ closes_of tree r }
        ensures work { work self.new ≡ work self.old + work_of r }
    {
        self.room -= 1;
        self.removals.push_back_reserved(r);
    }

    /// The first removal, as it was pushed.
    pub fn first(&self) -> Option<Removal>
        ensures { result ≡ first_removal self.now }
    {
        self.removals.front().copied()
    }

    /// The block of which the next step needs the content.
    pub fn wanted(&self) -> Option<u32>
        ensures { result ≡ wanted self.now }
    {
        if !self.asked {
            return None;
        }
        self.way.innermost().map(|f| f.at)
    }

    /// The level of the innermost pointer block on the way, and None before the first removal has begun.
    pub fn level(&self) -> Option<u8>
        ensures { result ≡ way_level self.now.way }
    {
        self.way.innermost().map(|f| f.level)
    }

    /// How many removals wait, the first one counted until its last block is closed.
    pub fn len(&self) -> u32
        ensures { result ≡ length self.now.removals }
    {
        self.removals.len() as u32
    }

    /// For how many more removals there is room.
    pub fn room(&self) -> u32
        ensures { result ≡ self.now.room }
    {
        self.room
    }

    /// Takes away the first removal: what it has left is not closed.
    pub fn drop_first(&mut self)
        requires { 0 < length self.old.removals }
        ensures dropped { self.new ≡ dropped self.old }
        ensures left { (tree : Tree) (r : Removal) → first_removal self.old ≡ Some r → left tree self.old ≡ at_epoch r.epoch (first_left tree r self.old.way) ++ left tree self.new }
        ensures work { work self.new < work self.old }
    {
        self.removals.pop_front();
        self.way = Way::new();
        self.asked = false;
    }

    /// Takes back what was asked for, as where the block could not be read: the next step asks again, which is one reading more.
    pub fn ask_again(&mut self)
        ensures unasked { self.new ≡ unasked self.old }
        ensures work { work self.new ≡ work self.old + readings (wanted self.old) }
    {
        self.asked = false;
    }

    /// Carries out the first removal up to the next block that is closed or read. `settled` says whether the block after
    /// which it comes is settled with its memory content; a removal that has begun waits for that, too. After `Reads` of a
    /// block, `block` is the content of that block, and else it is not looked at. A block is closed after all that is below
    /// it. Once it is closed it may be given out again, so what it held is not asked for any more, and the content of the
    /// pointer block above it is asked for again.
    pub fn step(&mut self, settled: bool, block: &[u8]) -> Step
        requires { IsSome (wanted self.old) → length block.now ≡ 8192 }
        ensures empty { (result ≡ Empty) ↔ (self.old.removals ≡ []) }
        ensures waits { (result ≡ Waits) ↔ ((self.old.removals ≢ []) × (settled ≡ false)) }
        ensures answer { Answers settled self.old block.now self.new result }
        ensures lowers { Lowers self.old self.new result }
    {
        self.advance(settled, block)
    }

    fn advance(&mut self, settled: bool, block: &[u8]) -> Step
        requires { IsSome (wanted self.old) → length block.now ≡ 8192 }
        ensures answer { Answers settled self.old block.now self.new result }
        ensures lowers { Lowers self.old self.new result }
    {
        let Some(first) = self.first() else {
            return Step::Empty;
        };
        let asked = self.asked;
        self.asked = false;
        if !settled {
            return Step::Waits;
        }
        let Some(frame) = self.way.innermost() else {
            return self.enter(first.at, start_level(&first));
        };
        if !asked {
            self.asked = true;
            return Step::Reads(frame.at);
        }
        self.way.pop();
        match next_target(block, frame.done) {
            None => self.close(frame.at),
            Some((slot, at)) => {
                self.way.push(Frame {
                    at: frame.at,
                    level: frame.level,
                    done: slot + 1,
                });
                self.enter(at, frame.level - 1)
            }
        }
    }

    // Goes on with a block of this level: closes a leaf, and asks for the content of a pointer block.
    fn enter(&mut self, at: u32, level: u8) -> Step
        requires first { 0 < length self.old.removals }
        requires room { level + length self.old.way ≤ 4 }
        requires whole { 0 < level → (r : Removal) → first_removal self.old ≡ Some r → r.whole ≡ true }
        ensures leaf { level ≡ 0 → (result ≡ Closes at) × (self.new ≡ closed self.old) }
        ensures inner { 0 < level → (result ≡ Reads at) × (self.new ≡ entered self.old at level) }
    {
        if level == 0 {
            return self.close(at);
        }
        self.way.push(Frame { at, level, done: 0 });
        self.asked = true;
        Step::Reads(at)
    }

    // Closes a block that has nothing left below it. The removal is over where no way is left.
    fn close(&mut self, at: u32) -> Step
        requires { 0 < length self.old.removals }
        ensures answer { result ≡ Closes at }
        ensures removals { self.new ≡ closed self.old }
    {
        if self.way.innermost().is_none() {
            self.removals.pop_front();
        }
        Step::Closes(at)
    }
}

// At which level a removal begins: a block that is closed alone is taken for a leaf.
fn start_level(r: &Removal) -> u8
    ensures { result ≡ start_level r.now }
{
    if !r.whole {
        return 0;
    }
    match r.kind {
        Kind::Data(level) | Kind::Dir(level) => level,
        Kind::Root => 0,
    }
}
