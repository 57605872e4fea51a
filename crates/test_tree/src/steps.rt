//! Steps on a source of data, one after another, over any blocks.
ghost use Rattle.std.specs.Prelude.{◌≡◌, ◌+◌, ◌-◌, ◌*◌, ◌^◌, ◌<◌, ◌≤◌, ℕ, length, OnOk};
ghost use Rattle.fo_image.specs.declared.types.Pointer.{Pointer};
ghost use Rattle.fo_tree_lift.specs.Owns.{with_leaf};
ghost use Rattle.test_tree.specs.Rig.{Stands, Rig, IsNew, data_tree};
ghost use Rattle.test_tree.specs.Linked.{Apart};

use crate::linked::ground;
use fo_base::BLOCK;
use fo_image::{Pointer, least_depth};
use fo_ports::{BlockError, Blocks};
use fo_tree_grown::own_leaf;
use fo_tree_look::Ways;
use fo_tree_read::Tree;
use fo_tree_write::put_within;
use std::alloc::Global;

/// What is done to a source: it grows to the end of a leaf, or its last byte is put.
#[derive(Clone, Copy)]
pub enum Step {
    Grow(u32),
    Put(u8),
}

/// A source of data of this depth and size, below this top.
pub fn source(alloc: Global, depth: u8, size: u64, top: Pointer) -> Ways
    ensures { IsNew (data_tree depth size top) result }
{
    let tree = Tree {
        dir: false,
        tag: 40,
        rank: 2112,
        depth,
        size,
        top,
    };
    Ways {
        tree,
        generation: 1,
        limit: 1 << 40,
        kept: Vec::new(alloc),
    }
}

/// The tree of a source that ends with leaf `i`, below this top.
fn grown_tree(tree: &Tree, i: u32, top: u32) -> Tree
    requires past { tree.now.size < 8192 * (i + 1) }
    ensures { result ≡ with_leaf tree.now i top }
{
    let size = 8192 * (i as u64 + 1);
    Tree {
        dir: tree.dir,
        tag: tree.tag,
        rank: tree.rank,
        depth: least_depth(size),
        size,
        top: Pointer::Local(top),
    }
}

/// The source grows to the end of leaf `i`.
fn grow<B: Blocks>(ways: &mut Ways, on: &mut B, i: u32)
    requires rig { Rig (B.state on.old) ways.old }
    requires past { ways.old.tree.size < 8192 * (i + 1) }
    requires few { i < 2 ^ 27 - 1 }
    requires spare { 15 ≤ (B.state on.old).spare }
    ensures rig { Rig (B.state on.new) ways.new }
    ensures apart { (B.state on.old).tells → Apart (B.state on.old) ways.old → Apart (B.state on.new) ways.new }
    ensures spare { (B.state on.old).spare ≤ (B.state on.new).spare + 15 }
    ensures keeps { B.keeps on.old on.new }
{
    ground(on);
    let current = own_leaf(&ways.tree, &ways.kept, on, i);
    ways.tree = grown_tree(&ways.tree, i, current.top);
}

/// The last byte of the source is put.
fn put_last<B: Blocks>(ways: &mut Ways, on: &mut B, value: u8)
    requires rig { Rig (B.state on.old) ways.old }
    requires some { 0 < ways.old.tree.size }
    requires spare { 15 ≤ (B.state on.old).spare }
    ensures rig { Rig (B.state on.new) ways.new }
    ensures apart { (B.state on.old).tells → Apart (B.state on.old) ways.old → Apart (B.state on.new) ways.new }
    ensures spare { (B.state on.old).spare ≤ (B.state on.new).spare + 15 }
    ensures keeps { B.keeps on.old on.new }
{
    ground(on);
    let place = ways.tree.size - 1;
    ways.tree.top = put_within(&ways.tree, &ways.kept, on, place, &[value]);
}

/// A step is done, where the source is shorter, or has bytes.
fn apply<B: Blocks>(ways: &mut Ways, on: &mut B, step: Step)
    requires rig { Rig (B.state on.old) ways.old }
    requires spare { 15 ≤ (B.state on.old).spare }
    ensures rig { Rig (B.state on.new) ways.new }
    ensures apart { (B.state on.old).tells → Apart (B.state on.old) ways.old → Apart (B.state on.new) ways.new }
    ensures spare { (B.state on.old).spare ≤ (B.state on.new).spare + 15 }
    ensures keeps { B.keeps on.old on.new }
{
    match step {
        Step::Grow(i) => {
            if i < (1 << 27) - 1 && ways.tree.size < 8192 * (i as u64 + 1) {
                grow(ways, on, i);
            }
        }
        Step::Put(value) => {
            if 0 < ways.tree.size {
                put_last(ways, on, value);
            }
        }
    }
}

/// All steps are done.
pub fn run<B: Blocks>(ways: &mut Ways, on: &mut B, steps: &[Step])
    requires rig { Rig (B.state on.old) ways.old }
    requires spare { 15 * length steps.now ≤ (B.state on.old).spare }
    ensures { Rig (B.state on.new) ways.new }
{
    for step in steps {
        apply(ways, on, *step);
    }
}

/// All steps are done, on a source that is linked nowhere yet.
pub fn build<B: Blocks>(ways: &mut Ways, on: &mut B, steps: &[Step])
    requires told { (b : B) → (B.state b).tells }
    requires rig { Rig (B.state on.old) ways.old }
    requires apart { Apart (B.state on.old) ways.old }
    requires spare { 15 * length steps.now ≤ (B.state on.old).spare }
    ensures rig { Rig (B.state on.new) ways.new }
    ensures apart { Apart (B.state on.new) ways.new }
{
    for step in steps {
        apply(ways, on, *step);
    }
}

/// The byte at a place of the source; 0 behind its end.
fn byte<B: Blocks>(ways: &Ways, on: &mut B, place: u64) -> Result<u8, BlockError>
    requires stands { Stands (B.state on.old) ways.now }
    ensures { Stands (B.state on.new) ways.now }
{
    let mut into = [0];
    ways.read(on, place, &mut into)?;
    Ok(into[0])
}

/// Whether the source has these bytes at these places.
pub fn has<B: Blocks>(ways: &Ways, on: &mut B, rows: &[(u64, u8)]) -> Result<bool, BlockError>
    requires stands { Stands (B.state on.old) ways.now }
    ensures { Stands (B.state on.new) ways.now }
{
    for (place, value) in rows {
        if byte(ways, on, *place)? != *value {
            return Ok(false);
        }
    }
    Ok(true)
}

/// Whether leaf `i` of the source has these bytes; behind its end zeros are wanted.
pub fn has_leaf<B: Blocks>(
    ways: &Ways,
    on: &mut B,
    i: u32,
    wanted: &[u8; BLOCK],
) -> Result<bool, BlockError>
    requires stands { Stands (B.state on.old) ways.now }
    ensures { Stands (B.state on.new) ways.now }
{
    let mut into = [0; BLOCK];
    ways.read(on, u64::from(i) * BLOCK as u64, &mut into)?;
    Ok(into == *wanted)
}

/// A byte of the source is overwritten, of which the way is prepared first.
pub fn overwrite<B: Blocks>(
    ways: &mut Ways,
    on: &mut B,
    place: u64,
    value: u8,
) -> Result<(), BlockError>
    requires stands { Stands (B.state on.old) ways.old }
    requires within { place < ways.old.tree.size }
    requires spare { 15 ≤ (B.state on.old).spare }
    requires pins { 15 ≤ (B.state on.old).pins_left }
    ensures { Stands (B.state on.new) ways.new }
{
    ways.prepare(on, place, 1)?;
    ways.tree.top = put_within(&ways.tree, &ways.kept, on, place, &[value]);
    Ok(())
}
