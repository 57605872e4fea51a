//! What is known of each block, in five bytes.
ghost use Rattle.std.specs.Prelude.{◌≡◌, ◌<◌, ℕ, length, replicate, slice_set, IfOk};
ghost use Rattle.fo_order.specs.Flags.{flag, quiet};
ghost use Rattle.fo_order.specs.Table.{unpacked};

use crate::marks::{Flags, Tried};
use fo_base::Memory;
use std::alloc::Global;
use std::marker::Model;

/// What came of the last write of a block, and whether it was changed since.
#[derive(Clone, Copy, Debug, PartialEq, Eq)]
enum Standing {
    Settled,
    SettledDirty,
    Written,
    WrittenDirty,
    Failed,
    FailedDirty,
}

/// The flags of each block. Standings and ranks lie apart, since together they would take eight bytes.
#[derive(Drop)]
pub(crate) struct FlagTable {
    standings: Vec<Standing>,
    ranks: Vec<u32>,
}

impl Model for FlagTable {
    ghost use Rattle.std.specs.Prelude.{List};
    ghost use Rattle.fo_order.specs.declared.marks.Flags.{Flags};

    ghost Value = { List Flags };

    ghost use Rattle.fo_order.specs.Table.{view_of, IsEven};

    ghost view = { view_of };

    ghost invariant = { IsEven };
}

impl FlagTable {
    /// So many blocks, all settled.
    pub(crate) fn new(alloc: Global, count: usize) -> Result<FlagTable, Memory>
        ensures { IfOk result (λ t. t ≡ replicate count quiet) }
    {
        Ok(FlagTable {
            standings: vec![in alloc; Standing::Settled; count]?,
            ranks: vec![in alloc; 0; count]?,
        })
    }

    /// How many blocks there are.
    pub(crate) fn len(&self) -> usize
        ensures { result ≡ length self.now }
    {
        self.ranks.len()
    }

    /// What is known of a block.
    pub(crate) fn get(&self, at: u32) -> Flags
        requires { at < length self.now }
        ensures { result ≡ flag self.now at }
    {
        unpacked(self.standings[at as usize], self.ranks[at as usize])
    }

    /// Notes what is known of a block.
    pub(crate) fn set(&mut self, at: u32, flags: Flags)
        requires { at < length self.old }
        ensures { self.new ≡ slice_set self.old at flags }
    {
        self.standings[at as usize] = packed(flags.dirty, flags.tried);
        self.ranks[at as usize] = flags.rank;
    }
}

// Both in one.
fn packed(dirty: bool, tried: Tried) -> Standing
    ensures { (rank : ℕ) → unpacked result rank ≡ record { dirty = dirty; tried = tried; rank = rank } }
{
    match tried {
        Tried::Settled if dirty => Standing::SettledDirty,
        Tried::Settled => Standing::Settled,
        Tried::Written if dirty => Standing::WrittenDirty,
        Tried::Written => Standing::Written,
        Tried::Failed if dirty => Standing::FailedDirty,
        Tried::Failed => Standing::Failed,
    }
}

// The flags of a block of this standing and rank.
fn unpacked(standing: Standing, rank: u32) -> Flags
    ensures { result ≡ unpacked standing rank }
{
    let (dirty, tried) = match standing {
        Standing::Settled => (false, Tried::Settled),
        Standing::SettledDirty => (true, Tried::Settled),
        Standing::Written => (false, Tried::Written),
        Standing::WrittenDirty => (true, Tried::Written),
        Standing::Failed => (false, Tried::Failed),
        Standing::FailedDirty => (true, Tried::Failed),
    };
    Flags { dirty, tried, rank }
}
