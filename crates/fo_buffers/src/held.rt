//! What is held.
ghost use Rattle.std.specs.Prelude.{◌≡◌, ◌⊎◌, ◌+◌, ◌<◌, ◌≤◌, ℕ, List, true, false, not, nat_eq, length, Some, None, is_some, OnOk, OnErr, IfOk, IfErr, IfSome, MatchOption, vec_len, vec_capacity, [], ◌∷◌, ◌++◌};
ghost use Rattle.std.specs.Bool.{OnTrue, OnFalse};
ghost use Rattle.std.specs.Option.{option_copied, option_map, option_map_or};
ghost use Rattle.std.specs.List.{Contains};
ghost use Rattle.std.specs.Map.{lookup, remove_entry};
ghost use Rattle.std.specs.HashMap.{get, spare, Updates, IsUnchanged};
ghost use Rattle.std.specs.FinMap as map;
ghost use Rattle.lru.specs.LruCache.{lru_cache, put_entries};
ghost use Rattle.fo_base.specs.Cause.{HasCause, Rose};
ghost use Rattle.fo_slots.specs.of_disk.Disk.{versions_of};
ghost use Rattle.fo_buffers.specs.Held.{Held, held_at, put, unlisted, used, updated, cut, buffer_of, block_in, is_dirty, is_pinned, is_free, with_bytes, itself, settled, pinned_as, IsPinned};
ghost use Rattle.fo_buffers.specs.Reading.{Looked, Unlooked};
ghost use Rattle.fo_buffers.specs.Tables.{Changes, Listed};

use crate::block::{Block, Buffer};
use crate::buffers::Buffers;
use fo_slots::{Disk, Failed, Kind};
use lru::LruCache;
use std::alloc::Global;
use std::collections::HashMap;

/// Why a block was not read.
#[derive(Clone, Copy, Debug, PartialEq, Eq)]
pub enum Unread {
    /// The device failed.
    Failed,
    /// There is no memory.
    Memory,
}

impl Buffers {
    /// A held block.
    pub fn block(&self, at: u32) -> Option<&Block>
        ensures value { option_copied result ≡ option_map block_in (held_at self.now at) }
    {
        match self.held.get(&at) {
            Some(buffer) => Some(&buffer.block),
            None => None,
        }
    }

    /// The bytes of a held block.
    pub fn bytes(&self, at: u32) -> Option<&[u8]>
        ensures value { option_copied result ≡ option_map block_in (held_at self.now at) }
        ensures len { IfSome result (λ bytes. length bytes.now ≡ 8192) }
    {
        match self.held.get(&at) {
            Some(buffer) => Some(buffer.block.bytes()),
            None => None,
        }
    }

    /// The bytes of a clean block, which are lent without a change in the order of use.
    pub fn clean_bytes(&self, at: u32) -> Option<&[u8]>
        ensures value { option_copied result ≡ lookup (nat_eq at) self.now.clean }
        ensures len { IfSome result (λ bytes. length bytes.now ≡ 8192) }
    {
        match self.clean.peek(&at) {
            Some(block) => Some(block.bytes()),
            None => None,
        }
    }

    /// Finds out whether the bytes of a held block are of the format of this kind and rank. While they stay, `Block::is_formed` need not
    /// look again.
    pub fn learn(&mut self, at: u32, kind: Kind, rank: u32)
        ensures { self.new ≡ self.old }
    {
        learn_held(&mut self.held, at, kind, rank);
    }

    /// Whether the block is held.
    pub fn is_held(&self, at: u32) -> bool
        ensures { result ≡ is_some (held_at self.now at) }
    {
        self.held.contains_key(&at)
    }

    /// Whether the block is held and dirty.
    pub fn is_dirty(&self, at: u32) -> bool
        ensures { result ≡ option_map_or is_dirty (held_at self.now at) false }
    {
        match self.held.get(&at) {
            Some(buffer) => buffer.dirty,
            None => false,
        }
    }

    /// Whether the block is held and pinned.
    pub fn is_pinned(&self, at: u32) -> bool
        ensures { result ≡ option_map_or is_pinned (held_at self.now at) false }
    {
        is_pinned_in(&self.held, at)
    }

    /// Addresses among which each pinned block is; others may be there, too.
    pub fn pins(&self) -> &[u32]
        ensures { (q : ℕ) → IsPinned self.now q → Contains result.now q }
    {
        self.pins.as_slice()
    }

    /// Pins a held block. Room is used where it was not pinned.
    pub fn pin(&mut self, at: u32)
        requires { option_map_or is_free (held_at self.old at) false ≡ true → 0 < self.old.room }
        ensures free { option_map_or is_free (held_at self.old at) false ≡ true → self.new ≡ used (updated self.old at (pinned_as true)) }
        ensures same { option_map_or is_free (held_at self.old at) false ≡ false → self.new ≡ self.old }
    {
        if is_free_in(&self.held, at) {
            set_pinned(&mut self.held, at, true);
            self.pins.push_reserved(at);
            self.room -= 1;
        }
    }

    /// Holds a clean block again, and pins it. It answers false where the block isn't clean.
    pub fn recall(&mut self, at: u32) -> bool
        requires room { 0 < self.old.room }
        requires none { held_at self.old at ≡ None }
        ensures found { result ≡ is_some (lookup (nat_eq at) self.old.clean) }
        ensures held { MatchOption (lookup (nat_eq at) self.old.clean) (self.new ≡ self.old)
            (λ bytes. self.new ≡ used (put (unlisted self.old at) at (buffer_of bytes false true))) }
    {
        if !self.clean.contains(&at) {
            return false;
        }
        let block = self.clean.pop(&at).unwrap();
        hold(&mut self.held, &mut self.pins, at, block, false);
        self.room -= 1;
        true
    }

    /// Reads a block of a device that isn't held, and holds and pins it. It fails only where the device fails, and then nothing changes.
    pub fn load<D: Disk>(&mut self, disk: &mut D, at: u32) -> Result<(), Failed>
        requires room { 0 < self.old.room }
        requires none { held_at self.old at ≡ None }
        requires block { at < D.size disk.old }
        ensures ok { OnOk result ((bytes : List ℕ) × (self.new ≡ used (put (unlisted self.old at) at (buffer_of bytes false true)))
            × (at < length (D.state disk.old).holds → Contains (versions_of (D.state disk.old).holds at) bytes)) }
        ensures err { OnErr result (self.new ≡ self.old) }
        ensures size { D.size disk.new ≡ D.size disk.old }
        ensures state { D.state disk.new ≡ D.state disk.old }
        ensures cause { HasCause (D.faults disk.old) (D.faults disk.new) result }
    {
        let block = read_spare(&mut self.spare, disk, at)?;
        self.clean.pop(&at);
        hold(&mut self.held, &mut self.pins, at, block, false);
        self.room -= 1;
        Ok(())
    }

    /// Reads a block of a device that isn't held, and puts it among the clean ones as the first, for which no room is needed. Nothing
    /// changes where the device fails, or where there is no memory for it.
    pub fn look<D: Disk>(&mut self, alloc: Global, disk: &mut D, at: u32) -> Result<(), Unread>
        requires none { held_at self.old at ≡ None }
        requires block { at < D.size disk.old }
        ensures ok { OnOk result (Looked (D.state disk.old).holds at self.old self.new) }
        ensures err { OnErr result (self.new ≡ self.old) }
        ensures size { D.size disk.new ≡ D.size disk.old }
        ensures state { D.state disk.new ≡ D.state disk.old }
        ensures later { D.faults disk.old ≤ D.faults disk.new }
        ensures cause { IfErr result (Unlooked (Rose (D.faults disk.old) (D.faults disk.new))) }
    {
        let Ok(mut block) = Block::new(alloc) else {
            return Err(Unread::Memory);
        };
        let Ok(()) = block.read(disk, at) else {
            return Err(Unread::Failed);
        };
        let Ok(_listed) = self.clean.put(at, block) else {
            return Err(Unread::Memory);
        };
        Ok(())
    }

    /// Holds a block with these bytes, dirty and pinned, whatever was there.
    pub fn make(&mut self, at: u32, bytes: &[u8])
        requires room { 0 < self.old.room }
        requires length { length bytes.now ≡ 8192 }
        ensures { self.new ≡ used (put (unlisted self.old at) at (buffer_of bytes.now true true)) }
    {
        let mut block = self.spare.pop().unwrap();
        block.fill(bytes);
        self.clean.pop(&at);
        hold(&mut self.held, &mut self.pins, at, block, true);
        self.room -= 1;
    }

    /// Puts these bytes into a held block in the place of those from `from` on. It is dirty from then on.
    pub fn write(&mut self, at: u32, from: usize, bytes: &[u8])
        requires { from + length bytes.now ≤ 8192 }
        ensures { self.new ≡ updated self.old at (with_bytes from bytes.now) }
    {
        write_held(&mut self.held, at, from, bytes);
    }

    /// A held block is not dirty any more.
    pub fn settle(&mut self, at: u32)
        ensures { self.new ≡ updated self.old at settled }
    {
        settle_held(&mut self.held, at);
    }

    /// Unpins one pinned block and gives its address, and None exactly where none is pinned.
    pub fn unpin(&mut self) -> Option<u32>
        ensures { MatchOption result ((self.new ≡ self.old) × ((q : ℕ) → IsPinned self.old q → ⊥))
            (λ at. IsPinned self.old at × (self.new ≡ updated self.old at (pinned_as false))) }
    {
        next_pinned(&mut self.held, &mut self.pins)
    }

    /// A held block that is neither dirty nor pinned becomes the first of the clean ones, and is among them once. It is forgotten where
    /// there is no memory for that.
    pub fn release(&mut self, at: u32)
        requires { IfSome (held_at self.old at) (λ b. (b.dirty ≡ false) × (b.pinned ≡ false)) }
        ensures is { MatchOption (held_at self.old at) (self.new ≡ self.old)
            (λ b. (self.new ≡ record (cut self.old at) { clean = put_entries nat_eq (lru_cache (remove_entry (nat_eq at) self.old.clean) 1024) at b.block })
            ⊎ (self.new ≡ cut (unlisted self.old at) at)) }
        ensures alone { IfSome (held_at self.old at) (λ b. (bytes : List ℕ) → Contains self.new.clean (at, bytes) → bytes ≡ b.block) }
    {
        if !self.held.contains_key(&at) {
            return;
        }
        let buffer = self.held.remove(&at).unwrap();
        list_once(&mut self.clean, at, buffer.block);
    }

    /// A block is neither held nor clean any more.
    pub fn forget(&mut self, at: u32)
        ensures { self.new ≡ cut (unlisted self.old at) at }
    {
        self.held.remove(&at);
        self.clean.pop(&at);
    }
}

// Holds a block, pinned.
fn hold(held: &mut HashMap<u32, Buffer>, pins: &mut Vec<u32>, at: u32, block: Block, dirty: bool)
    requires entry { 0 < spare held.old }
    requires pin { vec_len pins.old < vec_capacity pins.old }
    ensures held { Updates nat_eq held.old held.new at (Some (buffer_of block dirty true)) }
    ensures spare { spare held.old ≤ spare held.new + 1 }
    ensures pins { pins.new.items ≡ pins.old.items ++ at ∷ [] }
    ensures len { vec_len pins.new ≡ vec_len pins.old + 1 }
    ensures capacity { vec_capacity pins.new ≡ vec_capacity pins.old }
{
    pins.push_reserved(at);
    let _stored = held.insert(
        at,
        Buffer {
            block,
            dirty,
            pinned: true,
        },
    );
}

// Takes a spare block and reads a block of a device into it.
fn read_spare<D: Disk>(spare: &mut Vec<Block>, disk: &mut D, at: u32) -> Result<Block, Failed>
    requires some { 0 < vec_len spare.old }
    requires block { at < D.size disk.old }
    ensures bytes { IfOk result (λ b. at < length (D.state disk.old).holds → Contains (versions_of (D.state disk.old).holds at) b) }
    ensures taken { OnOk result (vec_len spare.new + 1 ≡ vec_len spare.old) }
    ensures nothing { OnErr result (vec_len spare.new ≡ vec_len spare.old) }
    ensures size { D.size disk.new ≡ D.size disk.old }
    ensures state { D.state disk.new ≡ D.state disk.old }
    ensures cause { HasCause (D.faults disk.old) (D.faults disk.new) result }
{
    let last = spare.len() - 1;
    spare[last].read(disk, at)?;
    Ok(spare.pop().unwrap())
}

// Whether a block is held and not pinned.
fn is_free_in(held: &HashMap<u32, Buffer>, at: u32) -> bool
    ensures { result ≡ option_map_or is_free (get nat_eq held.now at) false }
{
    match held.get(&at) {
        Some(buffer) => !buffer.pinned,
        None => false,
    }
}

// Whether a block is held and pinned.
fn is_pinned_in(held: &HashMap<u32, Buffer>, at: u32) -> bool
    ensures { result ≡ option_map_or is_pinned (get nat_eq held.now at) false }
{
    match held.get(&at) {
        Some(buffer) => buffer.pinned,
        None => false,
    }
}

// Finds out what is to be known of a held block.
fn learn_held(held: &mut HashMap<u32, Buffer>, at: u32, kind: Kind, rank: u32)
    ensures changes { Changes held.old held.new at itself }
    ensures spare { spare held.new ≡ spare held.old }
{
    if let Some(buffer) = held.get_mut(&at) {
        buffer.block.learn(kind, rank);
    }
}

// Pins or unpins a held block.
fn set_pinned(held: &mut HashMap<u32, Buffer>, at: u32, pinned: bool)
    ensures changes { Changes held.old held.new at (pinned_as pinned) }
    ensures spare { spare held.new ≡ spare held.old }
{
    if let Some(buffer) = held.get_mut(&at) {
        buffer.pinned = pinned;
    }
}

// Puts bytes into a held block.
fn write_held(held: &mut HashMap<u32, Buffer>, at: u32, from: usize, bytes: &[u8])
    requires { from + length bytes.now ≤ 8192 }
    ensures changes { Changes held.old held.new at (with_bytes from bytes.now) }
    ensures spare { spare held.new ≡ spare held.old }
{
    if let Some(buffer) = held.get_mut(&at) {
        buffer.block.write(from, bytes);
        buffer.dirty = true;
    }
}

// Puts a block among the clean ones as the first, in the place of what was there under its address; no other is there then. It is
// forgotten where there is no memory for that.
fn list_once(clean: &mut LruCache<u32, Block>, at: u32, block: Block)
    ensures is { (clean.new ≡ lru_cache (put_entries nat_eq (lru_cache (remove_entry (nat_eq at) clean.old.entries) clean.old.cap) at block) clean.old.cap)
        ⊎ (clean.new ≡ lru_cache (remove_entry (nat_eq at) clean.old.entries) clean.old.cap) }
    ensures alone { (bytes : List ℕ) → Contains clean.new.entries (at, bytes) → bytes ≡ block }
{
    // No address is there twice.
    let _count = clean.len();
    clean.pop(&at);
    let _listed = clean.put(at, block);
}

// A held block is not dirty.
fn settle_held(held: &mut HashMap<u32, Buffer>, at: u32)
    ensures changes { Changes held.old held.new at settled }
    ensures spare { spare held.new ≡ spare held.old }
{
    if let Some(buffer) = held.get_mut(&at) {
        buffer.dirty = false;
    }
}

// Unpins the pinned block that was pinned last. Those that aren't pinned any more leave the pins before it.
fn next_pinned(held: &mut HashMap<u32, Buffer>, pins: &mut Vec<u32>) -> Option<u32>
    requires { Listed held.old pins.old.items }
    ensures some { MatchOption result (IsUnchanged held.old held.new × ((q : ℕ) → option_map_or is_pinned (get nat_eq held.old q) false ≡ true → ⊥))
        (λ at. Changes held.old held.new at (pinned_as false) × (option_map_or is_pinned (get nat_eq held.old at) false ≡ true)) }
    ensures listed { Listed held.new pins.new.items }
    ensures spare { spare held.new ≡ spare held.old }
    ensures len { vec_len pins.new ≤ vec_len pins.old }
    ensures capacity { vec_capacity pins.new ≡ vec_capacity pins.old }
{
    while let Some(at) = pins.pop() {
        if is_pinned_in(held, at) {
            set_pinned(held, at, false);
            return Some(at);
        }
    }
    None
}
