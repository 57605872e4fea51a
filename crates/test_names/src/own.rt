//! Leaves of the root directory that are made current, and their sources linked.
ghost use Rattle.std.specs.Prelude.{◌≡◌, ◌≢◌, ◌⊎◌, ◌+◌, ◌*◌, ◌^◌, ◌≤◌, ◌<◌, ℕ, true, max, IfOk};
ghost use Rattle.fo_image.specs.declared.types.Pointer.{Pointer};
ghost use Rattle.fo_image.specs.declared.types.Pointer.TheVariants.{Nil, Local};
ghost use Rattle.fo_ports.specs.State.{Looks};
ghost use Rattle.fo_ports.specs.Sources.{ComesFor, Changes, Grows, MayZero, Owned};
ghost use Rattle.fo_tree_look.specs.Source.{Over, HasBlock, Prepared, IsTopCurrent, form_of, leaves_of};
ghost use Rattle.fo_tree_down.specs.Clear.{EndsClear};
ghost use Rattle.fo_dir_read.specs.Names.{leaf_count};
ghost use Rattle.test_names.specs.Root.{IsInMemory, IsReadyFor, IsSource, NoneComes, SameSource};

use crate::parts::Part;
use crate::root::opened;
use fo_base::BLOCK;
use fo_dir_ready::{own_entries, own_records};
use fo_ports::{BlockError, Blocks, Bytes};
use fo_tree::Source;
use std::alloc::Global;

/// Prepares the way to the last leaf of a source, and says whether nothing stands behind its end.
fn is_trimmed<B: Blocks>(source: &mut Source, on: &mut B) -> Result<bool, BlockError>
    requires memory { (b : B) → IsInMemory (B.state b) }
    requires over { Over (B.state on.old) source.old.ways.tree source.old.ways.kept.items source.old.ways.limit }
    ensures clear { IfOk result (λ yes. yes ≡ true → EndsClear (B.state on.new) source.new.ways.tree source.new.ways.kept.items) }
    ensures still { (o n : ℕ) → Prepared (B.state on.old) source.old.ways.tree source.old.ways.kept.items source.old.ways.limit o n → Prepared (B.state on.new) source.new.ways.tree source.new.ways.kept.items source.new.ways.limit o n }
    ensures over { Over (B.state on.new) source.new.ways.tree source.new.ways.kept.items source.new.ways.limit }
    ensures same { SameSource source.old source.new }
    ensures looks { Looks (B.state on.old) (B.state on.new) }
    ensures keeps { B.keeps on.old on.new }
{
    let size = source.ways.tree.size;
    if size == 0 {
        return Ok(source.trimmed(on));
    }
    match source.ways.prepare(on, size - 1, 1) {
        Ok(()) => Ok(source.trimmed(on)),
        Err(why) => Err(why),
    }
}

/// Whether a source has leaf `i`, or ends with the one before, and leaf `i` is within its limit.
fn is_within(source: &Source, i: u32) -> bool
    requires low { (source.now.ways.tree.size ≤ 2 ^ 47) × (source.now.ways.limit ≤ 2 ^ 47) }
    ensures { result ≡ true → (i ≤ leaf_count source.now.ways.tree.size) × (8192 * i + 8192 ≤ source.now.ways.limit) }
{
    let from = BLOCK as u64 * i as u64;
    from < source.ways.tree.size + BLOCK as u64 && from + BLOCK as u64 <= source.ways.limit
}

/// Prepares leaf `i` of a source, or the one behind its last leaf. Whether it is one of these, within the limit, and nothing stands behind the
/// source's end.
fn is_ready<B: Blocks>(source: &mut Source, on: &mut B, i: u32) -> Result<bool, BlockError>
    requires memory { (b : B) → IsInMemory (B.state b) }
    requires over { Over (B.state on.old) source.old.ways.tree source.old.ways.kept.items source.old.ways.limit }
    ensures ready { IfOk result (λ yes. yes ≡ true → IsReadyFor (B.state on.new) source.new i) }
    ensures over { Over (B.state on.new) source.new.ways.tree source.new.ways.kept.items source.new.ways.limit }
    ensures same { SameSource source.old source.new }
    ensures looks { Looks (B.state on.old) (B.state on.new) }
    ensures keeps { B.keeps on.old on.new }
{
    if !is_within(source, i) {
        return Ok(false);
    }
    match source
        .ways
        .prepare(on, BLOCK as u64 * i as u64, BLOCK as u64)
    {
        Ok(()) => is_trimmed(source, on),
        Err(why) => Err(why),
    }
}

/// Owns leaf `i` of a source that was prepared, and gives its address.
fn own_part<B: Blocks>(source: &mut Source, on: &mut B, part: Part, i: u32) -> u32
    requires memory { (b : B) → IsInMemory (B.state b) }
    requires source { IsSource (B.state on.old) part source.old }
    requires ready { IsReadyFor (B.state on.old) source.old i }
    requires spare { 10 ≤ (B.state on.old).spare }
    ensures over { Over (B.state on.new) source.new.ways.tree source.new.ways.kept.items source.new.ways.limit }
    ensures form { form_of source.new.ways.tree source.new.ways.generation source.new.ways.limit ≡ form_of source.old.ways.tree source.old.ways.generation source.old.ways.limit }
    ensures size { source.new.ways.tree.size ≡ max source.old.ways.tree.size (8192 * (i + 1)) }
    ensures owned { Owned (form_of source.old.ways.tree source.old.ways.generation source.old.ways.limit) source.old.ways.tree.size i result (B.state on.old) (B.state on.new) (leaves_of (B.state on.old) source.old.ways.tree source.old.ways.kept.items source.old.ways.limit) (leaves_of (B.state on.new) source.new.ways.tree source.new.ways.kept.items source.new.ways.limit) }
    ensures grows { Grows (B.state on.old) (B.state on.new) (leaves_of (B.state on.old) source.old.ways.tree source.old.ways.kept.items source.old.ways.limit) (leaves_of (B.state on.new) source.new.ways.tree source.new.ways.kept.items source.new.ways.limit) }
    ensures top { IsTopCurrent (B.state on.new) source.new.ways.tree }
    ensures clear { EndsClear (B.state on.new) source.new.ways.tree source.new.ways.kept.items }
    ensures comes { (from : Pointer) → ComesFor (B.state on.old) source.old.ways.tree.top from → ComesFor (B.state on.new) source.new.ways.tree.top from }
    ensures only { source.new.ways.tree.top ≢ Nil → (y x : ℕ) → (B.state on.new).instead y x → (source.new.ways.tree.top ≡ Local y) ⊎ ((B.state on.old).instead y x × (source.old.ways.tree.top ≡ Local y → ⊥)) }
    ensures changes { Changes source.old.ways.tree.tag (HasBlock (B.state on.old) source.old.ways.tree) (MayZero (form_of source.old.ways.tree source.old.ways.generation source.old.ways.limit) source.old.ways.tree.size i (B.state on.old) (leaves_of (B.state on.old) source.old.ways.tree source.old.ways.kept.items source.old.ways.limit)) (B.state on.old) (B.state on.new) }
    ensures spare { (B.state on.old).spare ≤ (B.state on.new).spare + 10 }
    ensures room { (B.state on.new).room ≡ (B.state on.old).room }
    ensures keeps { B.keeps on.old on.new }
{
    match part {
        Part::Entries => own_entries(source, on, 2088, i),
        Part::Records => own_records(source, on, 2096, i),
    }
}

/// Owns leaf `i` of a source that was prepared, and links the source.
fn own_linked<B: Blocks>(source: &mut Source, on: &mut B, part: Part, i: u32)
    requires memory { (b : B) → IsInMemory (B.state b) }
    requires source { IsSource (B.state on.old) part source.old }
    requires ready { IsReadyFor (B.state on.old) source.old i }
    requires spare { 10 ≤ (B.state on.old).spare }
    ensures none { NoneComes (B.state on.new) }
    ensures spare { (B.state on.old).spare ≤ (B.state on.new).spare + 10 }
    ensures room { (B.state on.new).room ≡ (B.state on.old).room }
    ensures keeps { B.keeps on.old on.new }
{
    let root = on.root();
    own_part(source, on, part, i);
    source.link(on, root, part.slot());
}

/// Makes leaf `i` of a source of the root directory one of the current epoch, or adds it behind the last one. Whether it stands in the source,
/// or right behind its last leaf.
pub(crate) fn own_leaf<B: Blocks>(
    alloc: Global,
    on: &mut B,
    part: Part,
    i: u32,
) -> Result<bool, BlockError>
    requires memory { (b : B) → IsInMemory (B.state b) }
    requires none { NoneComes (B.state on.old) }
    requires spare { 10 ≤ (B.state on.old).spare }
    ensures none { NoneComes (B.state on.new) }
    ensures spare { (B.state on.old).spare ≤ (B.state on.new).spare + 10 }
    ensures room { (B.state on.new).room ≡ (B.state on.old).room }
    ensures keeps { B.keeps on.old on.new }
{
    let Some(mut source) = opened(alloc, on, part)? else {
        return Ok(false);
    };
    if !is_ready(&mut source, on, i)? {
        return Ok(false);
    }
    own_linked(&mut source, on, part, i);
    Ok(true)
}
