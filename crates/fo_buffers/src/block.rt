//! A block in memory.
ghost use Rattle.std.specs.Prelude.{◌≡◌, ◌+◌, ◌<◌, ◌≤◌, ◌++◌, ◌↔◌, true, length, take, drop, replicate, vec_len, IfOk, OnOk, OnErr, IsTrue};
ghost use Rattle.std.specs.List.{Contains};
ghost use Rattle.fo_base.specs.Cause.{HasCause};
ghost use Rattle.fo_slots.specs.of_disk.Disk.{versions_of};
ghost use Rattle.fo_slots.specs.of_image.declared.types.Kind.TheVariants.{Root};
ghost use Rattle.fo_slots.specs.of_meta.Leaf.{IsLeaf};
ghost use Rattle.fo_slots.specs.of_ports.Blocks.{IsFormed};
ghost use Rattle.fo_buffers.specs.Formed.{IsKnown};

use fo_base::{BLOCK, Memory};
use fo_slots::{Disk, Failed, Kind, is_formed};
use std::alloc::Global;
use std::marker::Model;

/// The 8192 bytes of a block, with what was found out of them since they changed last: that they are a leaf of records, or those of a
/// root block.
#[derive(Drop)]
pub struct Block {
    bytes: Vec<u8>,
    leaf: bool,
    root: bool,
}

impl Model for Block {
    ghost use Rattle.std.specs.Prelude.{◌≡◌, List, ℕ, vec_len};
    ghost use Rattle.fo_buffers.specs.Formed.{IsKnown};

    ghost Value = { List ℕ };

    ghost view = { λ b. b.bytes.items };

    ghost invariant = { λ b. (vec_len b.bytes ≡ 8192) × IsKnown b.leaf b.root b.bytes.items };
}

/// What is held of a block. Dirty: the device doesn't have these bytes for certain. Pinned: it is in use.
#[derive(Drop)]
pub struct Buffer {
    pub block: Block,
    pub dirty: bool,
    pub pinned: bool,
}

impl Block {
    /// A block in memory, of zero bytes.
    #[tactic(auto, using(crate::proofs::Knowing::knows_nothing))]
    pub fn new(alloc: Global) -> Result<Block, Memory>
        ensures { IfOk result (λ b. b ≡ replicate 8192 0) }
    {
        let bytes = zeros(alloc, BLOCK)?;
        Ok(Block {
            bytes,
            leaf: false,
            root: false,
        })
    }

    /// The bytes.
    pub fn bytes(&self) -> &[u8]
        ensures value { result.now ≡ self.now }
        ensures len { length result.now ≡ 8192 }
    {
        self.bytes.as_slice()
    }

    /// Finds out whether they are a leaf of records, or those of a root block, where a block of this kind and rank is to be that.
    pub fn learn(&mut self, kind: Kind, rank: u32)
        ensures { self.new ≡ self.old }
    {
        self.leaf = finds_leaf(self.leaf, kind, rank, &self.bytes);
        self.root = finds_root(self.root, kind, &self.bytes);
    }

    /// Whether they are of the format of a block of this kind and rank. What was found out isn't looked for again.
    pub fn is_formed(&self, kind: Kind, rank: u32) -> bool
        ensures { IsTrue result ↔ IsFormed kind rank self.now }
    {
        if is_known(self.leaf, self.root, kind, rank, &self.bytes) {
            return true;
        }
        is_formed(kind, rank, &self.bytes)
    }

    /// Puts these bytes in the place of those from `from` on.
    #[tactic(auto, using(crate::proofs::Knowing::knows_nothing))]
    pub fn write(&mut self, from: usize, bytes: &[u8])
        requires { from + length bytes.now ≤ 8192 }
        ensures { self.new ≡ take from self.old ++ bytes.now ++ drop (from + length bytes.now) self.old }
    {
        self.bytes[from..from + bytes.len()].copy_from_slice(bytes);
        self.leaf = false;
        self.root = false;
    }

    /// Puts these bytes in the place of all.
    #[tactic(auto, using(crate::proofs::Knowing::knows_nothing))]
    pub fn fill(&mut self, bytes: &[u8])
        requires { length bytes.now ≡ 8192 }
        ensures { self.new ≡ bytes.now }
    {
        self.bytes.copy_from_slice(bytes);
        self.leaf = false;
        self.root = false;
    }

    /// Reads one of the versions of a block of a device. Where that fails, nothing changes.
    #[tactic(auto, using(crate::proofs::Knowing::knows_nothing))]
    pub fn read<D: Disk>(&mut self, disk: &mut D, at: u32) -> Result<(), Failed>
        requires { at < D.size disk.old }
        ensures bytes { OnOk result (at < length (D.state disk.old).holds → Contains (versions_of (D.state disk.old).holds at) self.new) }
        ensures nothing { OnErr result (self.new ≡ self.old) }
        ensures size { D.size disk.new ≡ D.size disk.old }
        ensures state { D.state disk.new ≡ D.state disk.old }
        ensures cause { HasCause (D.faults disk.old) (D.faults disk.new) result }
    {
        self.leaf = false;
        self.root = false;
        disk.read(at, &mut self.bytes)
    }
}

// Whether the bytes are a leaf of records, where that is known or a block of this kind and rank is to be one.
fn finds_leaf(known: bool, kind: Kind, rank: u32, bytes: &[u8]) -> bool
    requires length { length bytes.now ≡ 8192 }
    requires known { known ≡ true → IsLeaf bytes.now }
    ensures { result ≡ true → IsLeaf bytes.now }
{
    if known {
        return true;
    }
    if kind != Kind::Data(0) || rank % 32 != 16 {
        return false;
    }
    is_formed(Kind::Data(0), 16, bytes)
}

// Whether the bytes are those of a root block, where that is known or a block of this kind is to be one.
fn finds_root(known: bool, kind: Kind, bytes: &[u8]) -> bool
    requires length { length bytes.now ≡ 8192 }
    requires known { known ≡ true → IsFormed Root 0 bytes.now }
    ensures { result ≡ true → IsFormed Root 0 bytes.now }
{
    if known {
        return true;
    }
    if kind != Kind::Root {
        return false;
    }
    is_formed(Kind::Root, 0, bytes)
}

// Whether it is known that the bytes are of the format of a block of this kind and rank. Of pointers and entries nothing is kept: only
// the few bytes behind the last one are to be zeros, so the test of those is short.
fn is_known(leaf: bool, root: bool, kind: Kind, rank: u32, bytes: &[u8]) -> bool
    requires length { length bytes.now ≡ 8192 }
    requires known { IsKnown leaf root bytes.now }
    ensures { result ≡ true → IsFormed kind rank bytes.now }
{
    match kind {
        Kind::Data(0) => leaf,
        Kind::Root => root,
        _ => false,
    }
}

// So many zeros.
fn zeros(alloc: Global, len: usize) -> Result<Vec<u8>, Memory>
    ensures bytes { IfOk result (λ v. v.items ≡ replicate len 0) }
    ensures count { IfOk result (λ v. vec_len v ≡ len) }
{
    Ok(vec![in alloc; 0; len]?)
}
