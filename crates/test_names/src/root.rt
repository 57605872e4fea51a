//! The root block, and the sources of the root directory that hang from it.
ghost use Rattle.std.specs.Prelude.{◌≡◌, ◌≢◌, ◌+◌, ◌<◌, ℕ, true, IfOk, IfSome};
ghost use Rattle.fo_image.specs.declared.types.Score.{Score};
ghost use Rattle.fo_image.specs.declared.types.Pointer.TheVariants.{Nil, Local, Score as Held};
ghost use Rattle.fo_crash.specs.declared.slot.Slot.TheVariants.{Entry as Head};
ghost use Rattle.fo_crash.specs.Images.{target};
ghost use Rattle.fo_ports.specs.Blocks.{slot_count};
ghost use Rattle.fo_ports.specs.State.{Looks};
ghost use Rattle.fo_tree_look.specs.Source.{NoneHeld};
ghost use Rattle.fo_tree_open.specs.Open.{tree_of};
ghost use Rattle.test_names.specs.Parts.{slot_of, is_dir_of, rank_of};
ghost use Rattle.test_names.specs.Root.{IsInMemory, IsSource, NoneComes};

use crate::parts::Part;
use fo_base::{BLOCK, POINTERS};
use fo_crash::Slot;
use fo_image::{Entry, Kind, Pointer};
use fo_ports::{BlockError, Blocks};
use fo_tree::Source;
use std::alloc::Global;

/// The rank of a root block.
const RANK: u32 = 2144;

/// The address of the root block, which is pinned then.
fn pinned_root<B: Blocks>(on: &mut B) -> Result<u32, BlockError>
    requires memory { (b : B) → IsInMemory (B.state b) }
    ensures root { IfOk result (λ r. (r ≡ (B.state on.new).root) × (B.state on.new).pinned r) }
    ensures looks { Looks (B.state on.old) (B.state on.new) }
    ensures keeps { B.keeps on.old on.new }
{
    let root = on.root();
    let mut block = [0; BLOCK];
    match on.get(root, Kind::Root, RANK, &mut block) {
        Ok(()) => Ok(root),
        Err(why) => Err(why),
    }
}

/// The entry that a slot of the root block has, which is pinned.
fn entry_at<B: Blocks>(on: &B, root: u32, part: Part) -> Option<Entry>
    requires memory { (b : B) → IsInMemory (B.state b) }
    requires root { (root ≡ (B.state on.now).root) × (B.state on.now).pinned root }
    ensures { IfSome result (λ e. ((B.state on.now).now root).slot (slot_of part) ≡ Head e) }
{
    match on.slot(root, part.slot()) {
        Slot::Entry(entry) => Some(entry),
        _ => None,
    }
}

/// Whether an entry leads to no block, and is not in use.
fn is_blank(entry: &Entry) -> bool
    ensures { result ≡ true → (entry.now.top ≡ Nil) × (entry.now.depth ≡ 0) }
{
    !entry.active && entry.depth == 0 && matches!(entry.top, Pointer::Nil)
}

/// Puts the entry of a source without bytes into the root block, which is pinned and has an entry there that leads to no block.
fn put_blank<B: Blocks>(on: &mut B, root: u32, part: Part, entry: Entry)
    requires memory { (b : B) → IsInMemory (B.state b) }
    requires none { NoneComes (B.state on.old) }
    requires root { (root ≡ (B.state on.old).root) × (B.state on.old).pinned root }
    requires entry { ((B.state on.old).now root).slot (slot_of part) ≡ Head entry }
    requires blank { (entry.top ≡ Nil) × (entry.depth ≡ 0) }
    ensures none { NoneComes (B.state on.new) }
    ensures keeps { B.keeps on.old on.new }
{
    let _ = entry;
    on.put_slot(root, part.slot(), Slot::Entry(part.entry()));
}

/// Puts the entry of a source without bytes into the root block, where no entry is in use. Whether none was.
pub(crate) fn begin<B: Blocks>(on: &mut B, part: Part) -> Result<bool, BlockError>
    requires memory { (b : B) → IsInMemory (B.state b) }
    requires none { NoneComes (B.state on.old) }
    ensures none { NoneComes (B.state on.new) }
    ensures keeps { B.keeps on.old on.new }
{
    let root = pinned_root(on)?;
    let Some(entry) = entry_at(on, root, part) else {
        return Ok(false);
    };
    if !is_blank(&entry) {
        return Ok(false);
    }
    put_blank(on, root, part, entry);
    Ok(true)
}

/// Whether no pointer of a pinned block of pointers is a score.
fn has_no_score<B: Blocks>(on: &B, at: u32) -> bool
    requires pinned { (B.state on.now).pinned at }
    requires inner { slot_count ((B.state on.now).label at).kind ≡ 409 }
    ensures { result ≡ true → (j : ℕ) (score : Score) → j < 409 → target (((B.state on.now).now at).slot j) ≢ Held score }
{
    for i in 0..POINTERS as u32 {
        if let Pointer::Score(_) = on.slot(at, i).target() {
            return false;
        }
    }
    true
}

/// Whether no pointer of the block of pointers at the top of a source is a score.
fn is_unheld_below<B: Blocks>(
    on: &mut B,
    root: u32,
    part: Part,
    entry: &Entry,
    top: u32,
) -> Result<bool, BlockError>
    requires memory { (b : B) → IsInMemory (B.state b) }
    requires root { (root ≡ (B.state on.old).root) × (B.state on.old).pinned root }
    requires entry { ((B.state on.old).now root).slot (slot_of part) ≡ Head entry.now }
    requires dir { entry.now.dir ≡ is_dir_of part }
    requires top { (entry.now.top ≡ Local top) × (entry.now.depth ≡ 1) }
    ensures unheld { IfOk result (λ yes. yes ≡ true → NoneHeld (B.state on.new) (tree_of entry.now (rank_of part))) }
    ensures looks { Looks (B.state on.old) (B.state on.new) }
    ensures keeps { B.keeps on.old on.new }
{
    let _ = root;
    let _ = entry;
    let mut block = [0; BLOCK];
    match on.get(top, part.kind(1), part.rank() + 1, &mut block) {
        Ok(()) => Ok(has_no_score(on, top)),
        Err(why) => Err(why),
    }
}

/// Whether an entry leads to no score.
fn has_top(entry: &Entry) -> bool
    ensures { result ≡ true → (score : Score) → entry.now.top ≢ Held score }
{
    match entry.top {
        Pointer::Score(_) => false,
        Pointer::Nil => true,
        Pointer::Local(_) => true,
    }
}

/// Whether no leaf of a source is under a score, which has at most one level of pointers.
fn is_unheld<B: Blocks>(
    on: &mut B,
    root: u32,
    part: Part,
    entry: &Entry,
) -> Result<bool, BlockError>
    requires memory { (b : B) → IsInMemory (B.state b) }
    requires root { (root ≡ (B.state on.old).root) × (B.state on.old).pinned root }
    requires entry { ((B.state on.old).now root).slot (slot_of part) ≡ Head entry.now }
    requires dir { entry.now.dir ≡ is_dir_of part }
    ensures unheld { IfOk result (λ yes. yes ≡ true → NoneHeld (B.state on.new) (tree_of entry.now (rank_of part))) }
    ensures looks { Looks (B.state on.old) (B.state on.new) }
    ensures keeps { B.keeps on.old on.new }
{
    match entry.depth {
        0 => Ok(has_top(entry)),
        1 => match entry.top {
            Pointer::Local(top) => is_unheld_below(on, root, part, entry, top),
            _ => Ok(false),
        },
        _ => Ok(false),
    }
}

/// A source of the root directory. None where the root block has no entry of such a source, with at most one level of pointers.
pub fn opened<B: Blocks>(
    alloc: Global,
    on: &mut B,
    part: Part,
) -> Result<Option<Source>, BlockError>
    requires memory { (b : B) → IsInMemory (B.state b) }
    requires none { NoneComes (B.state on.old) }
    ensures source { IfOk result (λ found. IfSome found (IsSource (B.state on.new) part)) }
    ensures none { NoneComes (B.state on.new) }
    ensures left { ((B.state on.new).spare ≡ (B.state on.old).spare) × ((B.state on.new).room ≡ (B.state on.old).room) }
    ensures looks { Looks (B.state on.old) (B.state on.new) }
    ensures keeps { B.keeps on.old on.new }
{
    let root = pinned_root(on)?;
    let Some(entry) = entry_at(on, root, part) else {
        return Ok(None);
    };
    if entry.dir != part.is_dir() {
        return Ok(None);
    }
    if !is_unheld(on, root, part, &entry)? {
        return Ok(None);
    }
    Ok(Source::open(
        alloc,
        on,
        root,
        part.slot(),
        &entry,
        part.tag(),
        part.rank(),
        part.limit(),
    ))
}
