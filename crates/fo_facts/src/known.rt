//! What is known of each address, with counts.
ghost use Rattle.std.specs.Prelude.{◌≡◌, ◌<◌, ◌≤◌, ◌+◌, ◌-◌, ◌^◌, length, replicate, slice_set, cond, count_by, IfOk};
ghost use Rattle.fo_facts.specs.Counts.{owes, is_made};
ghost use Rattle.fo_facts.specs.Known.{fact_at, no_fact, noted, come_as, instead_of, linked_as, made_fact, origin_over, owing_as, owing_no_more, written_as};

use crate::fact::{Fact, SETTLED};
use crate::packed::Packed;
use fo_base::Memory;
use std::alloc::Global;
use std::marker::Model;

/// What is known of each address. Beside it is counted for how many a unit of room in the order of writing is kept, and how many were made
/// and are not linked yet.
#[derive(Drop)]
pub struct Facts {
    items: Vec<Packed>,
    owed: usize,
    made: usize,
}

impl Model for Facts {
    ghost use Rattle.std.specs.Prelude.{List};
    ghost use Rattle.fo_facts.specs.declared.fact.Fact.{Fact};
    ghost use Rattle.fo_facts.specs.Counted.{IsCounted, facts_of};

    ghost Value = { List Fact };

    ghost view = { λ a. facts_of a.items.items };

    ghost invariant = { IsCounted };
}

impl Facts {
    /// So many addresses, all settled. This alone may want memory.
    pub fn new(alloc: Global, count: u32) -> Result<Facts, Memory>
        ensures { IfOk result (λ f. f ≡ replicate count no_fact) }
    {
        Ok(Facts {
            items: vec![in alloc; Packed::of(SETTLED); count as usize]?,
            owed: 0,
            made: 0,
        })
    }

    /// How many addresses there are.
    pub fn len(&self) -> usize
        ensures { result ≡ length self.now }
    {
        self.items.len()
    }

    /// What is known of an address; one that is none counts as settled.
    pub fn get(&self, at: u32) -> Fact
        ensures { result ≡ fact_at self.now at }
    {
        match self.items.get(at as usize) {
            Some(packed) => packed.fact(),
            None => SETTLED,
        }
    }

    /// For how many blocks a unit of room is kept.
    pub fn owed(&self) -> usize
        ensures is { result ≡ count_by owes self.now }
        ensures most { result ≤ length self.now }
    {
        self.owed
    }

    /// How many blocks were made and are not linked yet.
    pub fn made(&self) -> usize
        ensures is { result ≡ count_by is_made self.now }
        ensures most { result ≤ length self.now }
    {
        self.made
    }

    /// From now on this is known of an address.
    pub fn set(&mut self, at: u32, fact: Fact)
        requires { at < length self.old }
        ensures { self.new ≡ slice_set self.old at fact }
    {
        let was = self.get(at);
        self.owed = counted(self.owed, was.owes, fact.owes);
        self.made = counted(self.made, !was.linked, !fact.linked);
        self.items[at as usize] = Packed::of(fact);
    }

    /// A block was given out, to come in the place of `origin`.
    pub fn give(&mut self, at: u32, origin: Option<u32>, rank: u32)
        requires { at < length self.old }
        ensures { self.new ≡ slice_set self.old at (made_fact origin rank) }
    {
        self.set(at, Fact::made(origin, rank));
    }

    /// Room is kept for the next turn of a block, with this rank.
    pub fn owe(&mut self, at: u32, rank: u32)
        requires { at < length self.old }
        ensures { self.new ≡ noted self.old at (owing_as rank) }
    {
        self.set(at, self.get(at).owing(rank));
    }

    /// No room is kept for a block any more.
    pub fn owe_no_more(&mut self, at: u32)
        requires { at < length self.old }
        ensures { self.new ≡ noted self.old at owing_no_more }
    {
        self.set(at, self.get(at).owing_no_more());
    }

    /// A block is in the tree now. Where memory has it changed, it has taken its turn.
    pub fn link(&mut self, at: u32, dirty: bool)
        requires { at < length self.old }
        ensures { self.new ≡ noted self.old at (linked_as dirty) }
    {
        self.set(at, self.get(at).linked(dirty));
    }

    /// A block was written. Where it is pinned, room is kept for its next turn.
    pub fn write(&mut self, at: u32, pinned: bool)
        requires { at < length self.old }
        ensures { self.new ≡ noted self.old at (written_as pinned) }
    {
        self.set(at, self.get(at).written(pinned));
    }

    /// A block was put into a slot.
    pub fn come(&mut self, at: u32)
        requires { at < length self.old }
        ensures { self.new ≡ noted self.old at come_as }
    {
        self.set(at, self.get(at).come());
    }

    /// A block was raised over another one: it comes in its place, or in the place of that in whose place that one was to come.
    pub fn raise(&mut self, at: u32, below: u32)
        requires { at < length self.old }
        ensures { self.new ≡ noted self.old at (instead_of (origin_over below (fact_at self.old below))) }
    {
        let origin = self.get(below).origin_over(below);
        self.set(at, self.get(at).instead(origin));
    }
}

// How many there are, where one of them was so, and is so now, or not.
fn counted(count: usize, was: bool, is: bool) -> usize
    requires least { cond was 1 0 ≤ count }
    requires most { count - cond was 1 0 + 1 < 2 ^ 64 }
    ensures { result ≡ count - cond was 1 0 + cond is 1 0 }
{
    count - usize::from(was) + usize::from(is)
}
