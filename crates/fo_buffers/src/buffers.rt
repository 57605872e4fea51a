//! The buffers of a cache.
ghost use Rattle.std.specs.Prelude.{◌≡◌, ◌≤◌, ◌+◌, ℕ, nat_eq, [], max, OnOk, OnErr, IfOk, vec_len, vec_capacity};
ghost use Rattle.std.specs.HashMap.{get, spare as spare_of};
ghost use Rattle.std.specs.FinMap as map;
ghost use Rattle.fo_buffers.specs.Held.{Held};

use crate::block::{Block, Buffer};
use fo_base::Memory;
use lru::LruCache;
use std::alloc::Global;
use std::collections::HashMap;
use std::marker::Model;
use std::num::NonZeroUsize;

/// How many clean blocks are kept.
const CLEAN: usize = 1024;

/// The blocks that are held, and clean ones that may be given up, the least recently used first. Room is reserved beforehand: no
/// other call wants memory.
#[derive(Drop)]
pub struct Buffers {
    pub(crate) held: HashMap<u32, Buffer>,
    pub(crate) clean: LruCache<u32, Block>,
    pub(crate) pins: Vec<u32>,
    pub(crate) spare: Vec<Block>,
    pub(crate) room: usize,
}

impl Model for Buffers {
    ghost use Rattle.fo_buffers.specs.Held.{Held, held_code};

    ghost Value = { Held };

    ghost coded = { held_code };

    ghost use Rattle.fo_buffers.specs.Inside.{view_of, IsRoomy};

    ghost view = { view_of };

    ghost invariant = { IsRoomy };
}

impl Buffers {
    /// Nothing is held.
    pub fn new(alloc: Global) -> Result<Buffers, Memory>
        ensures { IfOk result (λ b. b ≡ record { held = map.empty; clean = []; room = 0 }) }
    {
        let clean = LruCache::sparse(alloc, NonZeroUsize::new(CLEAN).unwrap())?;
        Ok(Buffers {
            held: HashMap::new(alloc),
            clean,
            pins: Vec::new(alloc),
            spare: Vec::new(alloc),
            room: 0,
        })
    }

    /// How many calls that take one more buffer or pin need no memory.
    pub fn room(&self) -> usize
        ensures { result ≡ self.now.room }
    {
        self.room
    }

    /// Makes room for so many calls that take one more buffer or pin. This alone may want memory, and then nothing changes.
    pub fn reserve(&mut self, alloc: Global, room: usize) -> Result<(), Memory>
        ensures ok { OnOk result (self.new ≡ record self.old { room = max self.old.room room }) }
        ensures err { OnErr result (self.new ≡ self.old) }
    {
        grow(alloc, &mut self.held, &mut self.pins, &mut self.spare, room)?;
        self.room = self.room.max(room);
        Ok(())
    }
}

// Makes room for so many more.
fn grow(
    alloc: Global,
    held: &mut HashMap<u32, Buffer>,
    pins: &mut Vec<u32>,
    spare: &mut Vec<Block>,
    room: usize,
) -> Result<(), Memory>
    ensures entries { OnOk result (room ≤ spare_of held.new) }
    ensures pins { OnOk result (vec_len pins.new + room ≤ vec_capacity pins.new) }
    ensures blocks { OnOk result (room ≤ vec_len spare.new) }
    ensures same { (q : ℕ) → get nat_eq held.new q ≡ get nat_eq held.old q }
    ensures items { pins.new.items ≡ pins.old.items }
    ensures len { vec_len pins.new ≡ vec_len pins.old }
    ensures more { spare_of held.old ≤ spare_of held.new }
    ensures capacity { vec_capacity pins.old ≤ vec_capacity pins.new }
    ensures stock { vec_len spare.old ≤ vec_len spare.new }
{
    held.reserve(room)?;
    pins.reserve(room)?;
    stock(alloc, spare, room)?;
    Ok(())
}

// Fills up the spare blocks to so many.
fn stock(alloc: Global, spare: &mut Vec<Block>, count: usize) -> Result<(), Memory>
    ensures enough { OnOk result (count ≤ vec_len spare.new) }
    ensures more { vec_len spare.old ≤ vec_len spare.new }
{
    while spare.len() < count {
        let block = Block::new(alloc)?;
        spare.push(block)?;
    }
    Ok(())
}
