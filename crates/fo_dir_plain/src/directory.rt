//! The directory and its calls.
ghost use Rattle.std.specs.Prelude.{◌≡◌, [], IfOk, IfErr, MatchOption, OnErr, OnOk, find};
ghost use Rattle.std.specs.Option.{option_copied};
ghost use Rattle.fo_meta.specs.Leaf.{is_named, without};
ghost use Rattle.fo_dir_list.specs.Next.{Answers};
ghost use Rattle.fo_dir_plain.specs.Calls.{HasName, IsAdded, IsChanged, MayBear, RefusesAdd, RefusesChange, RefusesRemove};
ghost use Rattle.fo_dir_plain.specs.Pairs.{IsFull, IsLeastPair};

use crate::refusal::Refusal;
use crate::{edits, list};
use fo_base::Bytes;
use fo_image::Record;
use std::alloc::Global;
use std::marker::Model;

/// A directory as a list of records.
#[derive(Drop)]
pub struct PlainDirectory {
    records: Vec<Record>,
}

impl Model for PlainDirectory {
    ghost use Rattle.std.specs.Prelude.{List};
    ghost use Rattle.fo_image.specs.declared.record.Record.{Record};

    ghost Value = { List Record };

    ghost view = { λ d. d.records.items };
}

impl PlainDirectory {
    /// A directory of no records.
    pub fn new(alloc: Global) -> PlainDirectory
        ensures { result ≡ [] }
    {
        PlainDirectory {
            records: Vec::new(alloc),
        }
    }

    /// The first record of a name.
    pub fn lookup(&self, name: &[u8]) -> Option<&Record>
        ensures { option_copied result ≡ find (is_named name.now) self.now }
    {
        list::first(&self.records, name)
    }

    /// A record of the least name after this one, or None where no record's name is after it.
    pub fn next(&self, after: &[u8]) -> Option<&Record>
        ensures { Answers after.now self.now (option_copied result) }
    {
        list::next(&self.records, after)
    }

    /// The least free pair, or None where the directory is full.
    pub fn free_pair(&self) -> Option<u32>
        ensures { MatchOption result (IsFull self.now) (IsLeastPair self.now) }
    {
        list::free_pair(&self.records)
    }

    /// Adds a record at the end, with the least free pair, which is answered. `Exists` where a record has the name, else `Full`
    /// where no pair is free.
    pub fn add(&mut self, named: Record) -> Result<u32, Refusal>
        ensures added { IfOk result (λ k. IsAdded named k self.old self.new) }
        ensures refused { IfErr result (RefusesAdd self.old named.name) }
        ensures stays { OnErr result (self.new ≡ self.old) }
    {
        edits::add(&mut self.records, named)
    }

    /// Takes the first record of a name out. `Absent` where no record has it.
    pub fn remove(&mut self, name: &[u8]) -> Result<(), Refusal>
        ensures removed { OnOk result (HasName name.now self.old × (self.new ≡ without name.now self.old)) }
        ensures refused { IfErr result (RefusesRemove self.old name.now) }
        ensures stays { OnErr result (self.new ≡ self.old) }
    {
        edits::remove(&mut self.records, name)
    }

    /// Takes the first record of a name out, and puts it at the end with another name. `Absent` where no record has the name, else
    /// `Exists` where another one has the other name.
    pub fn change(&mut self, name: &[u8], other: Bytes) -> Result<(), Refusal>
        ensures changed { OnOk result (IsChanged name.now other self.old self.new × MayBear self.old name.now other) }
        ensures refused { IfErr result (RefusesChange self.old name.now other) }
        ensures stays { OnErr result (self.new ≡ self.old) }
    {
        edits::change(&mut self.records, name, other)
    }
}
