//! The calls that only look.
ghost use Rattle.std.specs.Prelude.{◌≡◌, ◌⊎◌, ◌+◌, ◌-◌, ◌*◌, ◌≤◌, ◌<◌, ℕ, true, length, take, drop, min, max, IfOk, OnOk, IfErr, IfSome};
ghost use Rattle.fo_image.specs.declared.types.Kind.TheVariants.{Data};
ghost use Rattle.fo_tree_read.specs.of_ports.State.{Looks};
ghost use Rattle.fo_tree_read.specs.of_ports.Sources.{is_dir, Finds, AreLocal, most_for, depth_for, SameLeaves};
ghost use Rattle.fo_tree_read.specs.Tree.{kind_at, Failed, Refused, Names};
ghost use Rattle.fo_tree_look.specs.Source.{Over, Extends, form_of, leaves_of};

use crate::pins::prepare_ways;
use crate::ways::Ways;
use fo_image::{BLOCK, Entry};
use fo_tree_read::{BlockError, Blocks};

impl Ways {
    /// How many bytes the source has.
    pub fn len(&self) -> u64
        ensures { result ≡ self.now.tree.size }
    {
        self.tree.size
    }

    /// The source's entry as it is now, in use.
    pub fn entry(&self) -> Entry
        ensures used { (result.active ≡ true) × (result.generation ≡ (form_of self.now.tree self.now.generation self.now.limit).generation) }
        ensures is { (result.dir ≡ is_dir (form_of self.now.tree self.now.generation self.now.limit).kind) × (result.tag ≡ (form_of self.now.tree self.now.generation self.now.limit).tag) × (result.size ≡ self.now.tree.size) }
        ensures hangs { (result.depth ≡ self.now.tree.depth) × (result.top ≡ self.now.tree.top) }
    {
        Entry {
            generation: self.generation,
            active: true,
            dir: self.tree.dir,
            depth: self.tree.depth,
            tag: self.tree.tag,
            size: self.tree.size,
            top: self.tree.top,
        }
    }

    /// Copies the bytes from the offset on to the front of the slice, as many as there are and fit, and says how many. Where it is
    /// refused the front of the slice may have been changed. Of a source of entries nothing is said of the bytes given; nor
    /// of a leaf under a score where the device tells nothing.
    pub fn read<B: Blocks>(
        &self,
        on: &mut B,
        offset: u64,
        into: &mut [u8],
    ) -> Result<usize, BlockError>
        requires over { Over (B.state on.old) self.now.tree self.now.kept.items self.now.limit }
        ensures count { IfOk result (λ n. n ≡ min (length into.old) (self.now.tree.size - offset)) }
        ensures given { IfOk result (λ n. kind_at self.now.tree.dir 0 ≡ Data 0 → Finds (B.state on.old).tells (most_for self.now.tree.size (length into.old)) (B.state on.old).pins_left ((leaves_of (B.state on.old) self.now.tree self.now.kept.items self.now.limit).prepared offset (length into.old)) → (B.state on.old).tells ⊎ AreLocal (leaves_of (B.state on.new) self.now.tree self.now.kept.items self.now.limit).at self.now.tree.size offset (length into.old) → take n into.new ≡ take (length into.old) (drop offset (leaves_of (B.state on.new) self.now.tree self.now.kept.items self.now.limit).bytes)) }
        ensures behind { IfOk result (λ n. drop n into.new ≡ drop n into.old) }
        ensures over { Over (B.state on.new) self.now.tree self.now.kept.items self.now.limit }
        ensures same { SameLeaves (B.state on.old).tells (leaves_of (B.state on.old) self.now.tree self.now.kept.items self.now.limit) (leaves_of (B.state on.new) self.now.tree self.now.kept.items self.now.limit) }
        ensures pins { (B.state on.old).pins_left ≤ (B.state on.new).pins_left + most_for self.now.tree.size (length into.old) }
        ensures looks { Looks (B.state on.old) (B.state on.new) × B.keeps on.old on.new }
        ensures cause { IfErr result (Refused (B.state on.old) (B.state on.new) (Names (B.state on.old) self.now.tree)) }
    {
        let given = self.tree.read(on, offset, into)?;
        Ok(given)
    }

    /// The address of leaf `i`; None exactly where no local leaf stands.
    pub fn leaf<B: Blocks>(&self, on: &mut B, i: u32) -> Result<Option<u32>, BlockError>
        requires over { Over (B.state on.old) self.now.tree self.now.kept.items self.now.limit }
        ensures at { IfOk result (λ at. Finds (B.state on.old).tells (depth_for self.now.tree.size) (B.state on.old).pins_left ((leaves_of (B.state on.old) self.now.tree self.now.kept.items self.now.limit).prepared (8192 * i) 8192) → at ≡ (leaves_of (B.state on.new) self.now.tree self.now.kept.items self.now.limit).at i) }
        ensures block { IfOk result (λ at. IfSome at (λ b. (B.state on.new).is_block b)) }
        ensures over { Over (B.state on.new) self.now.tree self.now.kept.items self.now.limit }
        ensures same { SameLeaves (B.state on.old).tells (leaves_of (B.state on.old) self.now.tree self.now.kept.items self.now.limit) (leaves_of (B.state on.new) self.now.tree self.now.kept.items self.now.limit) }
        ensures pins { (B.state on.old).pins_left ≤ (B.state on.new).pins_left + depth_for self.now.tree.size }
        ensures looks { Looks (B.state on.old) (B.state on.new) × B.keeps on.old on.new }
        ensures cause { IfErr result (Failed (B.state on.old) (B.state on.new)) }
    {
        if self.tree.size <= BLOCK as u64 * i as u64 {
            return Ok(None);
        }
        let found = self.tree.leaf(on, i as u64)?;
        Ok(found)
    }

    /// Gets, and so pins, the blocks on the way to these bytes, and where they end past the source's end those on the way to its last
    /// leaf. Over a device that tells nothing a block whose label is not that of a live block of the source is damaged.
    pub fn prepare<B: Blocks>(
        &mut self,
        on: &mut B,
        offset: u64,
        len: u64,
    ) -> Result<(), BlockError>
        requires over { Over (B.state on.old) self.old.tree self.old.kept.items self.old.limit }
        requires limit { offset + len ≤ self.old.limit }
        ensures prepared { OnOk result (most_for (max self.old.tree.size (offset + len)) len ≤ (B.state on.old).pins_left → (leaves_of (B.state on.new) self.new.tree self.new.kept.items self.new.limit).prepared offset len) }
        ensures over { Over (B.state on.new) self.new.tree self.new.kept.items self.new.limit }
        ensures same { (self.new.tree ≡ self.old.tree) × (self.new.generation ≡ self.old.generation) × (self.new.limit ≡ self.old.limit) }
        ensures leaves { SameLeaves (B.state on.old).tells (leaves_of (B.state on.old) self.old.tree self.old.kept.items self.old.limit) (leaves_of (B.state on.new) self.new.tree self.new.kept.items self.new.limit) }
        ensures more { Extends (B.state on.new) self.old.kept.items self.new.kept.items }
        ensures pins { (B.state on.old).pins_left ≤ (B.state on.new).pins_left + most_for (max self.old.tree.size (offset + len)) len }
        ensures looks { Looks (B.state on.old) (B.state on.new) × B.keeps on.old on.new }
        ensures cause { IfErr result (Refused (B.state on.old) (B.state on.new) (Names (B.state on.old) self.old.tree)) }
    {
        let from = first_way(self.tree.size, offset);
        let count = ways_from(self.tree.size, offset, len);
        prepare_ways(&self.tree, &mut self.kept, on, from, count)?;
        Ok(())
    }
}

/// From which byte on ways are prepared: the last of the source where the offset is past its end.
fn first_way(size: u64, offset: u64) -> u64
    ensures { result ≡ min offset (size - 1) }
{
    offset.min(size.saturating_sub(1))
}

/// To how many bytes ways are prepared: those that the source has, or its last one.
fn ways_from(size: u64, offset: u64, len: u64) -> u64
    ensures below { offset < size → result ≡ min len (size - offset) }
    ensures past { size ≤ offset → result ≡ min size 1 }
{
    if offset < size {
        len.min(size - offset)
    } else {
        size.min(1)
    }
}
