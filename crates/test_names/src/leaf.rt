//! A leaf of the root directory that is at hand.
ghost use Rattle.std.specs.Prelude.{◌≡◌, ◌≢◌, ◌<◌, ◌≤◌, ℕ, true, length, Some, IfOk, IfSome};
ghost use Rattle.fo_ports.specs.Blocks.{IsFormed, Reads};
ghost use Rattle.fo_ports.specs.State.{Looks};
ghost use Rattle.fo_tree_look.specs.Source.{address_here};
ghost use Rattle.fo_tree_read.specs.Tree.{kind_at};
ghost use Rattle.test_names.specs.Parts.{is_dir_of, rank_of};
ghost use Rattle.test_names.specs.Root.{IsInMemory, IsLeafOf, IsSource, NoneComes};

use crate::parts::Part;
use crate::root::opened;
use fo_ports::{BlockError, Blocks};
use fo_tree::Source;
use std::alloc::Global;

/// Copies leaf `i` of a source, which stands at this address. Whether it is of the current epoch.
fn is_current<B: Blocks>(
    on: &mut B,
    part: Part,
    source: &Source,
    i: u32,
    at: u32,
    bytes: &mut [u8],
) -> Result<bool, BlockError>
    requires memory { (b : B) → IsInMemory (B.state b) }
    requires source { IsSource (B.state on.old) part source.now }
    requires leaf { address_here (B.state on.old) source.now.ways.tree i ≡ Some at }
    requires block { (B.state on.old).is_block at }
    requires length { length bytes.old ≡ 8192 }
    ensures leaf { IfOk result (λ yes. yes ≡ true → IsLeafOf (B.state on.new) part at) }
    ensures reads { IfOk result (λ yes. Reads (kind_at (is_dir_of part) 0) ((B.state on.new).now at) bytes.new) }
    ensures formed { IfOk result (λ yes. IsFormed (kind_at (is_dir_of part) 0) (rank_of part) bytes.new) }
    ensures looks { Looks (B.state on.old) (B.state on.new) }
    ensures keeps { B.keeps on.old on.new }
{
    let _ = source;
    let _ = i;
    match on.get(at, part.kind(0), part.rank(), bytes) {
        Ok(()) => Ok(on.label(at).epoch == on.high()),
        Err(why) => Err(why),
    }
}

/// The address of leaf `i` of a source, with its bytes at hand. None where it isn't of the current epoch.
fn current_leaf<B: Blocks>(
    on: &mut B,
    part: Part,
    source: &Source,
    i: u32,
    bytes: &mut [u8],
) -> Result<Option<u32>, BlockError>
    requires memory { (b : B) → IsInMemory (B.state b) }
    requires none { NoneComes (B.state on.old) }
    requires source { IsSource (B.state on.old) part source.now }
    requires length { length bytes.old ≡ 8192 }
    ensures leaf { IfOk result (λ found. IfSome found (IsLeafOf (B.state on.new) part)) }
    ensures reads { IfOk result (λ found. IfSome found (λ at. Reads (kind_at (is_dir_of part) 0) ((B.state on.new).now at) bytes.new)) }
    ensures formed { IfOk result (λ found. IfSome found (λ at. IsFormed (kind_at (is_dir_of part) 0) (rank_of part) bytes.new)) }
    ensures looks { Looks (B.state on.old) (B.state on.new) }
    ensures keeps { B.keeps on.old on.new }
{
    let Some(at) = source.ways.leaf(on, i)? else {
        return Ok(None);
    };
    if !is_current(on, part, source, i, at, bytes)? {
        return Ok(None);
    }
    Ok(Some(at))
}

/// The address of leaf `i` of a source of the root directory, with its bytes at hand. None where it isn't of the current epoch.
pub(crate) fn at_hand<B: Blocks>(
    alloc: Global,
    on: &mut B,
    part: Part,
    i: u32,
    bytes: &mut [u8],
) -> Result<Option<u32>, BlockError>
    requires memory { (b : B) → IsInMemory (B.state b) }
    requires none { NoneComes (B.state on.old) }
    requires length { length bytes.old ≡ 8192 }
    ensures leaf { IfOk result (λ found. IfSome found (IsLeafOf (B.state on.new) part)) }
    ensures reads { IfOk result (λ found. IfSome found (λ at. Reads (kind_at (is_dir_of part) 0) ((B.state on.new).now at) bytes.new)) }
    ensures formed { IfOk result (λ found. IfSome found (λ at. IsFormed (kind_at (is_dir_of part) 0) (rank_of part) bytes.new)) }
    ensures none { NoneComes (B.state on.new) }
    ensures looks { Looks (B.state on.old) (B.state on.new) }
    ensures keeps { B.keeps on.old on.new }
{
    match opened(alloc, on, part) {
        Ok(Some(source)) => current_leaf(on, part, &source, i, bytes),
        Ok(None) => Ok(None),
        Err(why) => Err(why),
    }
}

/// The address of leaf `i` of a source of the root directory. None where there is none.
pub fn leaf_at<B: Blocks>(
    alloc: Global,
    on: &mut B,
    part: Part,
    i: u32,
) -> Result<Option<u32>, BlockError>
    requires memory { (b : B) → IsInMemory (B.state b) }
    requires none { NoneComes (B.state on.old) }
    ensures block { IfOk result (λ found. IfSome found (λ at. (B.state on.new).is_block at)) }
    ensures none { NoneComes (B.state on.new) }
    ensures keeps { B.keeps on.old on.new }
{
    let Some(source) = opened(alloc, on, part)? else {
        return Ok(None);
    };
    match source.ways.leaf(on, i) {
        Ok(at) => Ok(at),
        Err(why) => Err(why),
    }
}
