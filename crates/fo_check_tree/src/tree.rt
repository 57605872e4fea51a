//! The check of the tree of one root.
ghost use Rattle.std.specs.Prelude.{◌≡◌, ◌⊎◌, ℕ, true, None, ◌+◌, ◌^◌, ◌<◌, ◌≤◌, ◌↔◌, List, [], length, IsTrue, IfOk, OnOk, MatchResult};
ghost use Rattle.fo_crash.specs.Images.{Arena, Image};
ghost use Rattle.fo_good.specs.Sound.{Kept, IsSoundTree};
ghost use Rattle.fo_check_labels.specs.declared.error.TreeError.TheVariants.{Label as BadLabel};
ghost use Rattle.fo_check_tree.specs.Answer.{HoldsAny, HoldsRoot, IsWalked, RefusesCheck};
ghost use Rattle.fo_check_tree.specs.Depths.{AreAbove};
ghost use Rattle.fo_check_tree.specs.Dirs.{AreJudged};
ghost use Rattle.fo_check_tree.specs.Formats.{AreFormed};
ghost use Rattle.fo_check_tree.specs.Grounds.{HasGrounds};
ghost use Rattle.fo_check_tree.specs.Notes.{KeepsFormats, KeepsPairs, KeepsNumbers, KeepsRules, Lowers};
ghost use Rattle.std.specs.List.{All, Any};
ghost use Rattle.fo_check_names.specs.Names.{number_of, holder_of, Differ, IsTwice, IsFileNumber, IsNoFile};
ghost use Rattle.fo_check_tree.specs.Numbers.{HasSources};
ghost use Rattle.fo_check_tree.specs.Pairing.{AreSettled, HasHeads};
ghost use Rattle.fo_check_tree.specs.Reads.{ReadsOnce};
ghost use Rattle.fo_check_tree.specs.Walking.{IsUnbegun, Walking};
ghost use Rattle.fo_disk.specs.Disk.{Block};
ghost use Rattle.fo_sound.specs.Sound.{HasTable, HasRootEntries};
ghost use Rattle.fo_sound.specs.Device.{Shows};
ghost use Rattle.fo_check_labels.specs.Cause.{HasCauses};
ghost use Rattle.fo_check_labels.specs.Known.{left_at};
ghost use Rattle.fo_check_tree.specs.declared.broken.Broken.{Broken};
ghost use Rattle.fo_check_tree.specs.Lower.{IsRule, level, JudgesRoot};

use crate::broken::Broken;
use crate::folder::{shallow, walk_folder};
use crate::walk::{Folder, Holder, Walk};
use fo_check_labels::{Labels, Reads, TreeError};
use fo_check_names::{Number, no_file, same_number};
use fo_image::{RootBlock, Super};
use fo_sound::root_label;
use std::alloc::{AllocError, Global};

/// What is known of the devices before their tree is checked: the number of blocks, and the super block.
#[derive(Clone, Copy)]
pub struct Setting {
    pub blocks: u32,
    pub s: Super,
}

/// What was found: the lowest rule that is broken, how many blocks are used, and how many are leaked.
#[derive(Clone, Copy, Debug, PartialEq, Eq)]
pub struct Found {
    pub broken: Option<Broken>,
    pub used: u32,
    pub leaked: u32,
}

/// Whether the entries of the root directory are those of a root.
fn has_root_entries(root: &RootBlock) -> bool
    ensures { IsTrue result ↔ HasRootEntries root.now }
{
    let (entries, meta) = (root.entries, root.meta);
    entries.active && entries.dir && entries.tag == 32 && meta.active && !meta.dir && meta.tag == 33
}

/// Checks the label table and the active tree, whose root block was read.
pub fn check_tree<D: Reads>(
    alloc: Global,
    main: &mut D,
    setting: Setting,
    root: &RootBlock,
) -> Result<Found, TreeError>
    requires size { D.size main.old ≡ setting.blocks }
    requires least { 64 ≤ setting.blocks }
    requires most { setting.blocks ≤ 2 ^ 20 }
    ensures table { (image : List Block) → length image ≡ setting.blocks → Shows (D.state main.old).holds image → OnOk result (HasTable image) }
    ensures walked { (arena : Arena) (device : List Block) (image : Image) (k : Kept) → length device ≡ setting.blocks → Shows (D.state main.old).holds device → k.root ≡ root.now → HoldsAny arena device image setting.s k
        → MatchResult result (IsWalked arena device image setting.s k) (RefusesCheck arena device image k) }
    ensures exact { (arena : Arena) (device : List Block) (image : Image) (k : Kept) → length device ≡ setting.blocks → Shows (D.state main.old).holds device → k.root ≡ root.now → HoldsRoot arena device image setting.s k → HasTable device → IsSoundTree arena device image setting.s.numbers true k
        → MatchResult result (λ found. found.broken ≡ None) (λ e. (block : ℕ) → e ≡ BadLabel block → ⊥) }
    ensures root { IfOk result (λ found. JudgesRoot root.now found.broken) }
    ensures rules { IfOk result (λ found. (b : Broken) → found.broken ≡ Some b → IsRule b.rule) }
    ensures size { D.size main.new ≡ D.size main.old }
    ensures kept { D.state main.new ≡ D.state main.old }
    ensures reads { ReadsOnce (D.calls main.old) (D.calls main.new) setting.blocks result }
    ensures once { D.reads main.new ≤ D.reads main.old + 1 }
    ensures cause { HasCauses (D.faults main.old) (D.faults main.new) result }
{
    let s = setting.s;
    let labels = Labels::read(alloc, main, setting.blocks)?;
    let mut walk = Walk {
        blocks: setting.blocks,
        epoch: s.high,
        active: true,
        labels,
        noted: None,
        steps: Vec::new(alloc),
        folders: Vec::new(alloc),
        named: Vec::new(alloc),
    };
    let mut numbers = Vec::new(alloc);
    if start(&mut walk, &s, root).is_err() {
        return Err(TreeError::Memory);
    }
    while let Some(folder) = walk.folders.pop() {
        walk_folder(alloc, main, &mut walk, &mut numbers, &folder)?;
    }
    check_numbers(&mut walk, &mut numbers, s.numbers);
    Ok(Found {
        broken: walk.noted,
        used: walk.labels.used(),
        leaked: walk.labels.leaked(s.low),
    })
}

/// The numbers of all files that names lead to.
fn check_numbers(walk: &mut Walk, numbers: &mut Vec<Number>, limit: u32)
    ensures judged { 8 < level walk.new.noted → Differ number_of numbers.old.items × All (IsFileNumber limit) numbers.old.items }
    ensures lowers { Lowers walk.old.noted walk.new.noted }
    ensures formats { KeepsFormats walk.old.noted walk.new.noted }
    ensures pairs { KeepsPairs walk.old.noted walk.new.noted }
    ensures eight { (b : Broken) → walk.new.noted ≡ Some b → b.rule ≡ 8 → (walk.old.noted ≡ Some b) ⊎ ((8 < level walk.old.noted) × (Any (IsNoFile limit b.block) numbers.old.items ⊎ IsTwice number_of holder_of numbers.old.items b.block)) }
    ensures blocks { walk.new.blocks ≡ walk.old.blocks }
    ensures tree { (walk.new.epoch ≡ walk.old.epoch) × (walk.new.active ≡ walk.old.active) }
    ensures labels { walk.new.labels ≡ walk.old.labels }
    ensures steps { walk.new.steps.items ≡ walk.old.steps.items }
    ensures folders { walk.new.folders.items ≡ walk.old.folders.items }
{
    let outside = no_file(numbers, limit);
    walk.note_leaf(8, outside);
    let twice = same_number(numbers);
    walk.note_leaf(8, twice);
}

/// Notes entries that are not those of a root.
fn note_entries(walk: &mut Walk, block: u32, root: &RootBlock)
    ensures lowers { Lowers walk.old.noted walk.new.noted }
    ensures formats { KeepsFormats walk.old.noted walk.new.noted }
    ensures blocks { walk.new.blocks ≡ walk.old.blocks }
    ensures tree { (walk.new.epoch ≡ walk.old.epoch) × (walk.new.active ≡ walk.old.active) }
    ensures labels { walk.new.labels ≡ walk.old.labels }
    ensures steps { walk.new.steps.items ≡ walk.old.steps.items }
    ensures folders { walk.new.folders.items ≡ walk.old.folders.items }
    ensures level { level walk.new.noted ≤ level walk.old.noted }
    ensures entries { 6 < level walk.new.noted → HasRootEntries root.now }
    ensures eight { KeepsNumbers walk.old.noted walk.new.noted }
    ensures pairs { (b : Broken) → walk.new.noted ≡ Some b → b.rule ≡ 6 → (walk.old.noted ≡ Some b) ⊎ ((block ≡ b.block) × (HasRootEntries root.now → ⊥)) }
{
    if has_root_entries(root) {
        return;
    }
    walk.note(6, block);
}

/// Begins at the root block.
fn start(walk: &mut Walk, s: &Super, root: &RootBlock) -> Result<(), AllocError>
    ensures begun { (arena : Arena) (device : List Block) (image : Image) (k : Kept) → k.root ≡ root.now → HoldsAny arena device image s.now k → IsUnbegun device s.now walk.old
        → OnOk result (Walking arena device image s.now k [] walk.new × (walk.new.steps.items ≡ [])) }
    ensures dirs { (arena : Arena) (device : List Block) (image : Image) (k : Kept) → k.root ≡ root.now → HoldsAny arena device image s.now k → IsUnbegun device s.now walk.old → OnOk result (AreJudged arena image k [] walk.new) }
    ensures formed { (arena : Arena) (device : List Block) (image : Image) (k : Kept) → k.root ≡ root.now → HoldsAny arena device image s.now k → IsUnbegun device s.now walk.old
        → OnOk result (AreFormed arena image k walk.new.labels.known.items walk.new.noted walk.new.steps.items walk.new.folders.items) }
    ensures grounds { (arena : Arena) (device : List Block) (image : Image) (k : Kept) → k.root ≡ root.now → HoldsAny arena device image s.now k → IsUnbegun device s.now walk.old → OnOk result (HasGrounds arena image k walk.new.noted walk.new.steps.items walk.new.folders.items) }
    ensures blocks { OnOk result (walk.new.blocks ≡ walk.old.blocks) }
    ensures watched { (at : ℕ) → OnOk result (left_at at walk.new.labels.known.items ≤ left_at at walk.old.labels.known.items) }
    ensures left { OnOk result ((walk.new.labels.left ≤ walk.old.labels.left) × (length walk.new.labels.known.items ≡ length walk.old.labels.known.items)) }
    ensures judged { OnOk result (JudgesRoot root.now walk.new.noted) }
    ensures rules { OnOk result (KeepsRules walk.old.noted walk.new.noted) }
    ensures pairs { (arena : Arena) (device : List Block) (image : Image) (k : Kept) → k.root ≡ root.now → HoldsAny arena device image s.now k → IsUnbegun device s.now walk.old → OnOk result (AreSettled arena image k walk.new.noted walk.new.folders.items []) }
    ensures heads { (arena : Arena) (device : List Block) (image : Image) (k : Kept) → k.root ≡ root.now → HoldsAny arena device image s.now k → IsUnbegun device s.now walk.old → OnOk result (HasHeads arena image k walk.new.noted walk.new.folders.items) }
    ensures eight { (arena : Arena) (device : List Block) (image : Image) (k : Kept) (limit : ℕ) → k.root ≡ root.now → HoldsAny arena device image s.now k → IsUnbegun device s.now walk.old → OnOk result (HasSources arena image k limit walk.new.noted walk.new.folders.items) }
    ensures depths { (arena : Arena) (device : List Block) (image : Image) (k : Kept) → k.root ≡ root.now → HoldsAny arena device image s.now k → IsUnbegun device s.now walk.old → OnOk result (AreAbove arena image k walk.new.noted walk.new.folders.items) }
{
    let active = s.active;
    let _ = walk.labels.reach(active);
    let entries = shallow(walk, active, &root.entries);
    let records = shallow(walk, active, &root.meta);
    note_entries(walk, active, root);
    let holder = Holder {
        block: active,
        label: root_label(s),
    };
    walk.folders.push(Folder {
        entries,
        records: Some(records),
        holder,
        depth: 0,
        named: true,
    })?;
    Ok(())
}
