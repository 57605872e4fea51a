//! The walk through what hung from a slot and what hangs there now.
ghost use Rattle.std.specs.Prelude.{◌≡◌, ◌≢◌, ◌+◌, ◌<◌, ◌≤◌, ℕ, [], Some, max, IsOk, IfOk, MatchResult};
ghost use Rattle.fo_image.specs.Format.{KindHolds};
ghost use Rattle.fo_slots.specs.of_ports.Blocks.{SlotFits};
ghost use Rattle.fo_takeout.specs.Meeting.{led_to, meeting, items, IsBelow, IsPair, IsMet};
ghost use Rattle.fo_takeout.specs.Walking.{answer, removal, added, passed, first_pair, Steps, Asked, IsQueued, work};
ghost use Rattle.fo_takeout.specs.declared.walk.Answer.TheVariants.{Over};
ghost use Rattle.fo_takeout.specs.declared.pair.Met.TheVariants.{Follows};
ghost use Rattle.fo_unlink.specs.Pending.{IsRemoval};

use crate::pair::{Below, Met, Pair, led_to, meeting};
use fo_base::Memory;
use fo_image::Kind;
use fo_slots::Slot;
use fo_unlink::Removal;
use std::alloc::Global;
use std::collections::VecDeque;
use std::marker::Model;

/// What a step of a walk gives.
#[derive(Clone, Copy, Debug, PartialEq, Eq)]
pub enum Answer {
    /// This removal is to be queued.
    Queues(Removal),
    /// Nothing, and the walk goes on.
    Goes,
    /// The walk is over.
    Over,
}

/// A slot that was put: slot `i` of block `at`, of this kind, was `old` and is `new`.
#[derive(Clone, Copy, Debug, PartialEq, Eq)]
pub struct Put {
    pub at: u32,
    pub kind: Kind,
    pub i: u32,
    pub old: Slot,
    pub new: Slot,
}

/// A walk through the blocks at which a put is to be looked: pairs of what hung at a place and what came there, the first of
/// which is looked at item by item.
#[derive(Drop)]
pub struct Walk {
    pairs: VecDeque<Pair>,
    done: u16,
    room: u32,
    after: u32,
    epoch: u32,
}

impl Model for Walk {
    ghost use Rattle.fo_takeout.specs.Walking.{Walking};

    ghost Value = { Walking };

    ghost use Rattle.fo_takeout.specs.Kept.{view_of, IsKept};

    ghost view = { view_of };

    ghost invariant = { IsKept };
}

impl Walk {
    /// A walk that is over, with no room.
    pub fn new(alloc: Global) -> Walk
        ensures { result ≡ record { pairs = []; done = 0; room = 0; after = 0; epoch = 0 } }
    {
        Walk {
            pairs: VecDeque::new(alloc),
            done: 0,
            room: 0,
            after: 0,
            epoch: 0,
        }
    }

    /// Makes room for at least so many further pairs. More than 32 bits can count, with those that wait, are taken for want of
    /// memory.
    pub fn reserve(&mut self, n: u32) -> Result<(), Memory>
        ensures enough { n ≤ self.old.room → IsOk result }
        ensures made { MatchResult result
            (λ _. self.new ≡ record self.old { room = max self.old.room n })
            (λ _. self.new ≡ self.old) }
    {
        if n <= self.room {
            return Ok(());
        }
        let len = self.pairs.len();
        if len + n as usize > u32::MAX as usize {
            return Err(Memory);
        }
        self.pairs.reserve(n as usize)?;
        self.room = n;
        Ok(())
    }

    /// Begins to walk through what a put changed, and gives what the slot itself says.
    pub fn begin(&mut self, epoch: u32, put: &Put) -> Answer
        requires over { self.old.pairs ≡ [] }
        requires kind { KindHolds put.now.kind }
        requires old { SlotFits put.now.kind put.now.i put.now.old }
        requires new { SlotFits put.now.kind put.now.i put.now.new }
        ensures begins { self.new ≡ added (record self.old { after = put.now.at; epoch = epoch }) (meeting (led_to put.now.kind put.now.old) (led_to put.now.kind put.now.new)) }
        ensures answers { result ≡ answer (record self.old { after = put.now.at; epoch = epoch }) (meeting (led_to put.now.kind put.now.old) (led_to put.now.kind put.now.new)) }
        ensures queued { IsQueued result }
    {
        let found = meeting(led_to(put.kind, &put.old), led_to(put.kind, &put.new));
        self.after = put.at;
        self.epoch = epoch;
        self.add(&found);
        self.answer(&found)
    }

    /// The two blocks that are looked at. `change` says the bytes of which of them the next step asks for.
    pub fn first(&self) -> Option<Pair>
        ensures { result ≡ first_pair self.now }
    {
        self.pairs.front().copied()
    }

    /// Takes one step, and gives what it finds. The bytes are those of the two blocks that are looked at, where the step asks for
    /// them, and else any.
    pub fn step(&mut self, old: &[u8], new: &[u8]) -> Answer
        requires { Asked (first_pair self.old) old.now new.now }
        ensures steps { Steps self.old (first_pair self.old) old.now new.now self.new result }
        ensures queued { IsQueued result }
        ensures lowers { result ≢ Over → work self.new < work self.old }
    {
        let Some(pair) = self.first() else {
            return Answer::Over;
        };
        let found = pair.item(self.done, old, new);
        self.pass(&pair);
        self.add(&found);
        self.answer(&found)
    }

    /// Ends the walk, where a block is not what the slot says that leads to it.
    pub fn stop(&mut self)
        ensures { self.new ≡ record self.old { pairs = []; done = 0 } }
    {
        self.pairs.clear();
        self.done = 0;
    }

    fn pass(&mut self, pair: &Pair)
        requires { first_pair self.old ≡ Some pair.now }
        ensures { self.new ≡ passed self.old pair.now }
    {
        if self.done + 1 < pair.items() {
            self.done += 1;
        } else {
            self.pairs.pop_front();
            self.done = 0;
        }
    }

    fn add(&mut self, found: &Met)
        requires { IsMet found.now }
        ensures { self.new ≡ added self.old found.now }
    {
        if let Met::Follows(pair) = found {
            self.add_pair(*pair);
        }
    }

    fn add_pair(&mut self, pair: Pair)
        requires { IsPair pair }
        ensures { self.new ≡ added self.old (Follows pair) }
    {
        if 0 < self.room {
            self.room -= 1;
            self.pairs.push_back_reserved(pair);
        }
    }

    fn answer(&self, found: &Met) -> Answer
        requires { IsMet found.now }
        ensures is { result ≡ answer self.now found.now }
        ensures queued { IsQueued result }
    {
        match found {
            Met::Alone(x) => Answer::Queues(self.removal(x, false)),
            Met::Whole(x) => Answer::Queues(self.removal(x, true)),
            Met::Nothing | Met::Follows(_) => Answer::Goes,
        }
    }

    fn removal(&self, x: &Below, whole: bool) -> Removal
        requires { IsBelow x.now }
        ensures is { result ≡ removal self.now x.now whole }
        ensures holds { IsRemoval result }
    {
        Removal {
            at: x.at,
            kind: x.kind,
            whole,
            epoch: self.epoch,
            after: self.after,
        }
    }
}
