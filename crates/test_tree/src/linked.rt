//! A source that hangs from the root block, over blocks in memory that tell what they hold.
ghost use Rattle.std.specs.Prelude.{◌≡◌, ◌≢◌, ◌+◌, ◌-◌, ◌*◌, ◌^◌, ◌<◌, ◌≤◌, ℕ, true, min, IfOk, IfSome, OnOk};
ghost use Rattle.fo_image.specs.declared.types.Score.{Score};
ghost use Rattle.fo_image.specs.declared.types.Pointer.TheVariants.{Nil, Score as Held};
ghost use Rattle.fo_crash.specs.declared.slot.Slot.TheVariants.{Entry as Head};
ghost use Rattle.fo_ports.specs.State.{Looks};
ghost use Rattle.fo_ports.specs.Sources.{depth_for};
ghost use Rattle.fo_tree_look.specs.Source.{Over, WayReady};
ghost use Rattle.fo_tree_down.specs.Clear.{last_leaf};
ghost use Rattle.test_tree.specs.Rig.{Rig};
ghost use Rattle.test_tree.specs.Linked.{IsInMemory, NoneComes, Ground, HasBlank, Apart, Linked, blank_entry};

use fo_base::BLOCK;
use fo_crash::Slot;
use fo_image::{Entry, Kind, Pointer, least_depth};
use fo_ports::{BlockError, Blocks};
use fo_tree_link::link;
use fo_tree_look::Ways;
use fo_tree_open::open;
use fo_tree_set::set_len;
use std::alloc::Global;

/// What blocks that tell have of the root block.
pub fn ground<B: Blocks>(on: &B)
    ensures { (B.state on.now).tells → Ground (B.state on.now) }
{}

/// The address of the root block, which is pinned then.
fn pinned_root<B: Blocks>(on: &mut B) -> Result<u32, BlockError>
    requires memory { (b : B) → IsInMemory (B.state b) }
    ensures root { IfOk result (λ r. (r ≡ (B.state on.new).root) × (B.state on.new).pinned r) }
    ensures none { NoneComes (B.state on.old) → NoneComes (B.state on.new) }
    ensures looks { Looks (B.state on.old) (B.state on.new) }
    ensures keeps { B.keeps on.old on.new }
{
    let root = on.root();
    ground(on);
    let mut block = [0; BLOCK];
    match on.get(root, Kind::Root, 2144, &mut block) {
        Ok(()) => Ok(root),
        Err(why) => Err(why),
    }
}

/// The first entry of the root block, which is pinned.
fn entry_at<B: Blocks>(on: &B, root: u32) -> Option<Entry>
    requires memory { (b : B) → IsInMemory (B.state b) }
    requires root { (root ≡ (B.state on.now).root) × (B.state on.now).pinned root }
    ensures { IfSome result (λ e. ((B.state on.now).now root).slot 0 ≡ Head e) }
{
    ground(on);
    match on.slot(root, 0) {
        Slot::Entry(entry) => Some(entry),
        _ => None,
    }
}

/// Whether an entry leads to no block.
fn is_blank(entry: &Entry) -> bool
    ensures { result ≡ true → (entry.now.top ≡ Nil) × (entry.now.depth ≡ 0) }
{
    entry.depth == 0 && matches!(entry.top, Pointer::Nil)
}

/// The entry of a source of data without bytes.
fn blank() -> Entry
    ensures { result ≡ blank_entry }
{
    Entry {
        generation: 1,
        active: true,
        dir: false,
        depth: 0,
        tag: 40,
        size: 0,
        top: Pointer::Nil,
    }
}

/// Puts the entry of a source without bytes into the root block, which is pinned and has an entry there that leads to no block.
fn put_blank<B: Blocks>(on: &mut B, root: u32, entry: Entry)
    requires memory { (b : B) → IsInMemory (B.state b) }
    requires none { NoneComes (B.state on.old) }
    requires root { (root ≡ (B.state on.old).root) × (B.state on.old).pinned root }
    requires entry { ((B.state on.old).now root).slot 0 ≡ Head entry }
    requires blank { (entry.top ≡ Nil) × (entry.depth ≡ 0) }
    ensures none { NoneComes (B.state on.new) }
    ensures begun { HasBlank (B.state on.new) }
    ensures spare { (B.state on.new).spare ≡ (B.state on.old).spare }
{
    let _ = entry;
    ground(on);
    on.put_slot(root, 0, Slot::Entry(blank()));
}

/// Begins a source without bytes in the root block. Whether no other is there.
pub fn begin<B: Blocks>(on: &mut B) -> Result<bool, BlockError>
    requires memory { (b : B) → IsInMemory (B.state b) }
    requires none { NoneComes (B.state on.old) }
    ensures none { NoneComes (B.state on.new) }
    ensures begun { IfOk result (λ yes. yes ≡ true → HasBlank (B.state on.new)) }
    ensures spare { (B.state on.new).spare ≡ (B.state on.old).spare }
{
    let root = pinned_root(on)?;
    let Some(entry) = entry_at(on, root) else {
        return Ok(false);
    };
    if !is_blank(&entry) {
        return Ok(false);
    }
    put_blank(on, root, entry);
    Ok(true)
}

/// Links a source that was begun in the root block, and linked nowhere yet.
pub fn link_new<B: Blocks>(ways: &Ways, on: &mut B)
    requires memory { (b : B) → IsInMemory (B.state b) }
    requires rig { Rig (B.state on.old) ways.now }
    requires apart { Apart (B.state on.old) ways.now }
    ensures none { NoneComes (B.state on.new) }
{
    let root = on.root();
    ground(on);
    link(ways, on, root, 0);
}

/// The source that hangs from the root block. None where its first entry is none of such a source.
pub fn opened<B: Blocks>(alloc: Global, on: &mut B) -> Result<Option<Ways>, BlockError>
    requires memory { (b : B) → IsInMemory (B.state b) }
    requires none { NoneComes (B.state on.old) }
    ensures linked { IfOk result (λ found. IfSome found (Linked (B.state on.new))) }
    ensures none { NoneComes (B.state on.new) }
    ensures left { ((B.state on.new).spare ≡ (B.state on.old).spare) × ((B.state on.new).room ≡ (B.state on.old).room) }
{
    let root = pinned_root(on)?;
    let Some(entry) = entry_at(on, root) else {
        return Ok(None);
    };
    if entry.dir {
        return Ok(None);
    }
    ground(on);
    Ok(open(alloc, on, root, 0, &entry, 40, 2112, 1 << 40))
}

/// The least depth for a length.
fn least(len: u64) -> u8
    requires { len ≤ 2 ^ 40 }
    ensures is { result ≡ depth_for len }
    ensures few { result ≤ 4 }
{
    least_depth(len)
}

/// Whether the top of a source is no score.
fn is_unheld(ways: &Ways) -> bool
    ensures { result ≡ true → (score : Score) → ways.now.tree.top ≢ Held score }
{
    match ways.tree.top {
        Pointer::Score(_) => false,
        Pointer::Nil => true,
        Pointer::Local(_) => true,
    }
}

/// Whether a source loses at most its top where it gets this length, and that is no score.
fn loses_top(ways: &Ways, len: u64) -> bool
    requires { len ≤ 2 ^ 40 }
    ensures { result ≡ true → (ways.now.tree.depth ≤ depth_for len + 1) × ((score : Score) → ways.now.tree.top ≢ Held score) }
{
    ways.tree.depth <= least(len) + 1 && is_unheld(ways)
}

/// Prepares the way to the last leaf of a source that stays where it gets this length.
fn prepare_end<B: Blocks>(ways: &mut Ways, on: &mut B, len: u64) -> Result<(), BlockError>
    requires memory { (b : B) → IsInMemory (B.state b) }
    requires none { NoneComes (B.state on.old) }
    requires linked { Linked (B.state on.old) ways.old }
    ensures linked { Linked (B.state on.new) ways.new }
    ensures same { ways.new.tree ≡ ways.old.tree }
    ensures ready { OnOk result (0 < ways.new.tree.size → WayReady (B.state on.new) ways.new.tree ways.new.kept.items ways.new.tree.depth (last_leaf (min ways.new.tree.size len))) }
    ensures none { NoneComes (B.state on.new) }
    ensures left { ((B.state on.new).spare ≡ (B.state on.old).spare) × ((B.state on.new).room ≡ (B.state on.old).room) }
{
    let size = ways.len();
    match ways.prepare(on, size.min(len).saturating_sub(1), size.min(1)) {
        Ok(()) => {}
        Err(why) => return Err(why),
    }
    Ok(())
}

/// Gives a source that is prepared a length. Whether it was granted.
fn set_ready<B: Blocks>(ways: &mut Ways, on: &mut B, len: u64) -> bool
    requires memory { (b : B) → IsInMemory (B.state b) }
    requires linked { Linked (B.state on.old) ways.old }
    requires ready { 0 < ways.old.tree.size → WayReady (B.state on.old) ways.old.tree ways.old.kept.items ways.old.tree.depth (last_leaf (min ways.old.tree.size len)) }
    requires top { (ways.old.tree.depth ≤ depth_for len + 1) × ((score : Score) → ways.old.tree.top ≢ Held score) }
    requires len { len ≤ 2 ^ 40 }
    requires spare { 9 ≤ (B.state on.old).spare }
    requires room { 3273 ≤ (B.state on.old).room }
    ensures none { NoneComes (B.state on.new) }
{
    let root = on.root();
    ground(on);
    matches!(set_len(ways, on, root, 0, len), Ok(()))
}

/// Makes room for what a length takes at most.
fn reserve<B: Blocks>(on: &mut B) -> Result<(), BlockError>
    requires none { NoneComes (B.state on.old) }
    ensures room { OnOk result ((9 ≤ (B.state on.new).spare) × (3273 ≤ (B.state on.new).room)) }
    ensures none { NoneComes (B.state on.new) }
{
    match on.reserve(9, 0, 3273) {
        Ok(()) => Ok(()),
        Err(why) => Err(why),
    }
}

/// Gives the source below the root block a length, of which it loses at most one level. Whether it was granted.
pub fn cut<B: Blocks>(alloc: Global, on: &mut B, len: u64) -> Result<bool, BlockError>
    requires memory { (b : B) → IsInMemory (B.state b) }
    requires none { NoneComes (B.state on.old) }
    ensures none { NoneComes (B.state on.new) }
{
    reserve(on)?;
    if len > 1 << 40 {
        return Ok(false);
    }
    let Some(mut ways) = opened(alloc, on)? else {
        return Ok(false);
    };
    if !loses_top(&ways, len) {
        return Ok(false);
    }
    match prepare_end(&mut ways, on, len) {
        Ok(()) => Ok(set_ready(&mut ways, on, len)),
        Err(why) => Err(why),
    }
}
