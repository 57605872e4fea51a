//! The calls of a disk in memory.
ghost use Rattle.std.specs.Prelude.{◌≡◌, ◌==◌, ◌⊎◌, ◌<◌, ◌≤◌, ◌++◌, ◌-◌, [], ◌∷◌, ℕ, List, Bool, true, false, length, map, slice_index, replicate, OnOk, OnErr, IfOk, MatchResult, is_err};
ghost use Rattle.std.specs.List.{Contains, list_any};
ghost use Rattle.std.proofs.Common.{inr, refl};
ghost use Rattle.fo_base.specs.Cause.{HasCause, Counted, Rose};
ghost use Rattle.fo_disk.specs.Disk.{versions_of, latest_of, settled, IsImage, IsWrite, IsSync};
ghost use Rattle.fo_disk.specs.Memory.{bytes_of, cell_of, cells_of, content_of, holds_of, moments_of, unsure_of, state_of, is_listed, lists, with_version, settled_cell, Lands, picked, SettledFrom, versions_in};
ghost use Rattle.fo_disk.specs.declared.memory.Change.TheVariants.{Wrote, Settled};
ghost use Rattle.fo_disk.specs.MemoryLaws.{is_content, are_bytes, has_flags};

use crate::disk::{count_call, count_fault};
use crate::memory::{Cell, Change, MemDisk, Version};
use crate::{BLOCK, Disk, Failed};
use fo_base::Memory;
use std::alloc::Global;

impl MemDisk {
    /// A disk of zeros that fails at the calls with these numbers, counted from 0.
    pub fn new(alloc: Global, blocks: u32, fails: Vec<u64>) -> Result<MemDisk, Memory>
        ensures size { IfOk result (λ m. length m.cells.items ≡ blocks) }
        ensures holds { IfOk result (λ m. holds_of m ≡ settled (replicate blocks (replicate 8192 0))) }
        ensures moments { IfOk result (λ m. moments_of m ≡ holds_of m ∷ []) }
        ensures unsure { IfOk result (λ m. unsure_of m ≡ replicate blocks false) }
        ensures counts { IfOk result (λ m. (m.calls ≡ 0) × (m.faults ≡ 0) × (m.wants ≡ 0) × (m.fails.items ≡ fails.items)) }
    {
        let mut cells = Vec::new(alloc);
        let mut unsure = Vec::new(alloc);
        for _ in 0..blocks {
            cells.push(zeros(alloc)?)?;
            unsure.push(false)?;
        }
        Ok(MemDisk {
            alloc,
            cells,
            unsure,
            changes: Vec::new(alloc),
            fails,
            calls: 0,
            faults: 0,
            wants: 0,
        })
    }

    /// The number of calls so far.
    pub fn calls(&self) -> u64
        ensures { result ≡ self.now.calls }
    {
        self.calls
    }

    /// How many calls found no memory, up to 2^64 - 1.
    pub fn wants(&self) -> u64
        ensures { result ≡ self.now.wants }
    {
        self.wants
    }

    /// How many versions a block has.
    pub fn versions(&self, at: u32) -> u32
        requires { at < length (holds_of self.now) }
        ensures { result ≡ length (versions_of (holds_of self.now) at) }
    {
        let cell = &self.cells[at as usize];
        (cell.all.len() - cell.from) as u32
    }

    /// A disk whose blocks have the picked versions alone, counted from 0 for the oldest. It fails at no listed call.
    pub fn image(&self, picks: &[u32]) -> Result<MemDisk, Memory>
        requires count { length picks.now ≡ length (holds_of self.now) }
        requires versions { (k : ℕ) → k < length picks.now → slice_index picks.now k < length (versions_of (holds_of self.now) k) }
        ensures image { OnOk result (IsImage (holds_of self.now) (picked picks.now (holds_of self.now))) }
        ensures size { IfOk result (λ m. length m.cells.items ≡ length picks.now) }
        ensures holds { IfOk result (λ m. holds_of m ≡ settled (picked picks.now (holds_of self.now))) }
        ensures moments { IfOk result (λ m. moments_of m ≡ holds_of m ∷ []) }
        ensures unsure { IfOk result (λ m. unsure_of m ≡ replicate (length picks.now) false) }
        ensures counts { IfOk result (λ m. (m.calls ≡ 0) × (m.faults ≡ 0) × (m.wants ≡ 0) × (m.fails.items ≡ [])) }
    {
        let alloc = self.alloc;
        let mut cells = Vec::new(alloc);
        let mut unsure = Vec::new(alloc);
        for i in 0..picks.len() {
            let cell = &self.cells[i];
            let version = &cell.all[cell.from + picks[i] as usize];
            cells.push(cell_with(alloc, &version.bytes)?)?;
            unsure.push(false)?;
        }
        Ok(MemDisk {
            alloc,
            cells,
            unsure,
            changes: Vec::new(alloc),
            fails: Vec::new(alloc),
            calls: 0,
            faults: 0,
            wants: 0,
        })
    }
}

impl Disk for MemDisk {
    ghost state = { state_of };

    ghost size = { λ m. length m.cells.items };

    ghost calls = { λ m. m.calls };

    ghost faults = { λ m. m.faults };

    ghost is_content = { λ m. inr (is_content m) };

    ghost are_bytes = { are_bytes };

    ghost is_newest = { λ m. record { newest = (refl, is_content m) } };

    ghost has_flags = { has_flags };

    /// It fails at the listed calls alone.
    fn blocks(&mut self) -> Result<u64, Failed>
        ensures listed { is_err result ≡ is_listed self.old }
        ensures lists { lists self.new ≡ lists self.old }
        ensures wants { self.new.wants ≡ self.old.wants }
        ensures size { MatchResult result (λ n. length self.new.cells.items ≡ n) (λ _. length self.new.cells.items ≡ length self.old.cells.items) }
        ensures fixed { length self.new.cells.items ≡ length self.old.cells.items }
        ensures state { state_of self.new ≡ state_of self.old }
        ensures calls { Counted self.old.calls self.new.calls }
        ensures cause { HasCause self.old.faults self.new.faults result }
        ensures answered { OnOk result (self.new.faults ≡ self.old.faults) }
    {
        if next_call(&self.fails, &mut self.calls) {
            return Err(count_fault(&mut self.faults));
        }
        Ok(self.cells.len() as u64)
    }

    /// It fails at the listed calls alone, and reads the last version.
    fn read(&mut self, at: u32, into: &mut [u8]) -> Result<(), Failed>
        requires block { at < length self.old.cells.items }
        requires length { length into.old ≡ 8192 }
        ensures listed { is_err result ≡ is_listed self.old }
        ensures lists { lists self.new ≡ lists self.old }
        ensures wants { self.new.wants ≡ self.old.wants }
        ensures bytes { OnOk result (at < length (holds_of self.old) → Contains (versions_of (holds_of self.old) at) into.new) }
        ensures latest { OnOk result (into.new ≡ latest_of (versions_of (holds_of self.old) at)) }
        ensures nothing { OnErr result (into.new ≡ into.old) }
        ensures size { length self.new.cells.items ≡ length self.old.cells.items }
        ensures state { state_of self.new ≡ state_of self.old }
        ensures calls { Counted self.old.calls self.new.calls }
        ensures cause { HasCause self.old.faults self.new.faults result }
    {
        if next_call(&self.fails, &mut self.calls) {
            return Err(count_fault(&mut self.faults));
        }
        let cell = &self.cells[at as usize];
        into.copy_from_slice(cell.last());
        Ok(())
    }

    /// It fails at the listed calls, where its bytes land all the same, and where there is no memory, which leaves the versions
    /// as they were.
    fn write(&mut self, at: u32, from: &[u8]) -> Result<(), Failed>
        requires block { at < length self.old.cells.items }
        requires length { length from.now ≡ 8192 }
        ensures listed { is_listed self.old ≡ true → is_err result ≡ true }
        ensures memory { OnErr result (is_listed self.old ≡ false → holds_of self.new ≡ holds_of self.old) }
        ensures lands { Lands at from.now (is_listed self.old) (is_err result) (holds_of self.old) (holds_of self.new) self.old.wants self.new.wants }
        ensures lists { lists self.new ≡ lists self.old }
        ensures size { length self.new.cells.items ≡ length self.old.cells.items }
        ensures state { IsWrite at from.now result (state_of self.old) (state_of self.new) }
        ensures calls { Counted self.old.calls self.new.calls }
        ensures cause { HasCause self.old.faults self.new.faults result }
    {
        let listed = next_call(&self.fails, &mut self.calls);
        let added = add_version(
            self.alloc,
            &mut self.cells,
            &mut self.changes,
            at as usize,
            from,
        );
        match added {
            Ok(()) => {
                self.unsure[at as usize] = listed;
                if listed {
                    return Err(count_fault(&mut self.faults));
                }
                Ok(())
            }
            Err(Memory) => {
                self.unsure[at as usize] = true;
                count_want(&mut self.wants);
                Err(count_fault(&mut self.faults))
            }
        }
    }

    /// It fails at the listed calls, and where there is no memory.
    fn sync(&mut self) -> Result<(), Failed>
        ensures listed { is_listed self.old ≡ true → is_err result ≡ true }
        ensures memory { MatchResult result (λ _. self.new.wants ≡ self.old.wants) (λ _. is_listed self.old ≡ false → Rose self.old.wants self.new.wants) }
        ensures lists { lists self.new ≡ lists self.old }
        ensures size { length self.new.cells.items ≡ length self.old.cells.items }
        ensures state { IsSync result (state_of self.old) (state_of self.new) }
        ensures calls { Counted self.old.calls self.new.calls }
        ensures cause { HasCause self.old.faults self.new.faults result }
    {
        if next_call(&self.fails, &mut self.calls) {
            return Err(count_fault(&mut self.faults));
        }
        match settle(self.alloc, &mut self.cells, &self.unsure, &mut self.changes) {
            Ok(()) => Ok(()),
            Err(Memory) => {
                count_want(&mut self.wants);
                Err(count_fault(&mut self.faults))
            }
        }
    }
}

impl Cell {
    /// The bytes of the last write.
    fn last(&self) -> &[u8]
        ensures length { length result.now ≡ 8192 }
        ensures latest { result.now ≡ latest_of (versions_in (cell_of self.now)) }
    {
        let last = &self.all[self.all.len() - 1];
        &last.bytes
    }

    /// Adds a version.
    fn add(&mut self, version: Version) -> Result<(), Memory>
        ensures ok { OnOk result (cell_of self.new ≡ ((cell_of self.old).0, (cell_of self.old).1 ++ bytes_of version ∷ [])) }
        ensures err { OnErr result (cell_of self.new ≡ cell_of self.old) }
    {
        if self.all.len() >= u32::MAX as usize {
            return Err(Memory);
        }
        self.all.push(version)?;
        Ok(())
    }

    /// Leaves only the last version of a block whose last write answered Ok.
    fn settle(&mut self, unsure: bool)
        ensures { cell_of self.new ≡ settled_cell unsure (cell_of self.old) }
    {
        if !unsure {
            self.from = self.all.len() - 1;
        }
    }
}

impl Version {
    /// A copy of these bytes.
    pub(crate) fn copy_of(alloc: Global, bytes: &[u8]) -> Result<Version, Memory>
        requires { length bytes.now ≡ 8192 }
        ensures { IfOk result (λ v. bytes_of v ≡ bytes.now) }
    {
        Ok(Version {
            bytes: bytes.to_vec(alloc)?,
        })
    }
}

// A cell with one version.
fn cell_with(alloc: Global, bytes: &[u8]) -> Result<Cell, Memory>
    requires { length bytes.now ≡ 8192 }
    ensures { IfOk result (λ c. cell_of c ≡ (0, bytes.now ∷ [])) }
{
    let mut all = Vec::new(alloc);
    all.push(Version::copy_of(alloc, bytes)?)?;
    Ok(Cell { all, from: 0 })
}

fn zeros(alloc: Global) -> Result<Cell, Memory>
    ensures { IfOk result (λ c. cell_of c ≡ (0, replicate 8192 0 ∷ [])) }
{
    let zeros: [u8; BLOCK] = [0; BLOCK];
    cell_with(alloc, &zeros)
}

// Counts a call, and says if it is listed to fail.
fn next_call(fails: &[u64], calls: &mut u64) -> bool
    ensures listed { result ≡ list_any (λ n. n == calls.old) fails.now }
    ensures counted { Counted calls.old calls.new }
{
    let listed = fails.contains(calls);
    count_call(calls);
    listed
}

// Counts a call that found no memory.
fn count_want(wants: &mut u64)
    ensures { Rose wants.old wants.new }
{
    *wants = wants.saturating_add(1);
}

// Adds a version of a block, and notes it.
fn add_version(
    alloc: Global,
    cells: &mut Vec<Cell>,
    changes: &mut Vec<Change>,
    at: usize,
    from: &[u8],
) -> Result<(), Memory>
    requires block { at < length cells.old.items }
    requires length { length from.now ≡ 8192 }
    ensures added { OnOk result (cells_of cells.new.items ≡ with_version at from.now (cells_of cells.old.items)) }
    ensures noted { OnOk result (changes.new.items ≡ changes.old.items ++ Wrote at ∷ []) }
    ensures same { OnErr result (cells_of cells.new.items ≡ cells_of cells.old.items) }
    ensures not_noted { OnErr result (changes.new.items ≡ changes.old.items) }
    ensures length { length cells.new.items ≡ length cells.old.items }
{
    let version = Version::copy_of(alloc, from)?;
    changes.push(Change::Wrote(at))?;
    let cell = &mut cells[at];
    match cell.add(version) {
        Ok(()) => Ok(()),
        Err(Memory) => {
            changes.pop();
            Err(Memory)
        }
    }
}

// Settles all blocks, and notes from which version on each could be left before.
fn settle(
    alloc: Global,
    cells: &mut Vec<Cell>,
    unsure: &[bool],
    changes: &mut Vec<Change>,
) -> Result<(), Memory>
    requires { length unsure.now ≡ length cells.old.items }
    ensures settled { OnOk result (SettledFrom unsure.now (cells_of cells.old.items) (cells_of cells.new.items)) }
    ensures noted { IfOk result (λ _. (v : _) × (changes.new.items ≡ changes.old.items ++ Settled v ∷ []) × (v.items ≡ map (λ c. c.0) (cells_of cells.old.items))) }
    ensures same { OnErr result (cells_of cells.new.items ≡ cells_of cells.old.items) }
    ensures not_noted { OnErr result (changes.new.items ≡ changes.old.items) }
    ensures length { length cells.new.items ≡ length cells.old.items }
{
    let mut froms = Vec::new(alloc);
    for cell in cells.iter() {
        froms.push(cell.from)?;
    }
    changes.push(Change::Settled(froms))?;
    for i in 0..cells.len() {
        let cell = &mut cells[i];
        cell.settle(unsure[i]);
    }
    Ok(())
}
