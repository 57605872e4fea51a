//! The blocks of sources, one pointer after another.
ghost use Rattle.std.specs.Prelude.{◌≡◌, ℕ, ◌+◌, ◌-◌, ◌*◌, ◌^◌, ◌<◌, ◌≤◌, min, true, false, List, [], ◌++◌, length, drop, IfErr, IfOk, MatchResult, OnOk};
ghost use Rattle.fo_crash.specs.Images.{Arena, Content, Image, Link};
ghost use Rattle.fo_good.specs.Means.{HasPointer, IsRead};
ghost use Rattle.fo_disk.specs.Disk.{Block};
ghost use Rattle.fo_meta.specs.Leaf.{IsLeaf};
ghost use Rattle.fo_sound.specs.Image.{block_of, is_zero};
ghost use Rattle.fo_sound.specs.Device.{Shows};
ghost use Rattle.fo_image.specs.declared.types.Label.{Label as LabelOf};
ghost use Rattle.fo_check_labels.specs.declared.labels.Known.{Known};
ghost use Rattle.fo_check_labels.specs.Cause.{HasCauses};
ghost use Rattle.fo_good.specs.Sound.{Kept};
ghost use Rattle.fo_image.specs.declared.types.Super.{Super};
ghost use Rattle.fo_image.specs.declared.types.Pointer.TheVariants.{Local};
ghost use Rattle.fo_check_tree.specs.Answer.{RefusesTree};
ghost use Rattle.fo_check_tree.specs.Follows.{Follows, Reaches, Puts, Reads, RefusesFollow, NotLabel};
ghost use Rattle.fo_check_tree.specs.declared.walk.Folder.{Folder};
ghost use Rattle.fo_image.specs.declared.types.Kind.TheVariants.{Data, Dir};
ghost use Rattle.fo_check_tree.specs.declared.walk.Holds.TheVariants.{Bytes, Records};
ghost use Rattle.fo_check_tree.specs.Dirs.{AreJudged};
ghost use Rattle.fo_check_tree.specs.Formats.{AreFormed};
ghost use Rattle.fo_check_tree.specs.Grounds.{HasGrounds};
ghost use Rattle.fo_check_tree.specs.Listing.{AddsNamed, Adds, IsListing};
ghost use Rattle.fo_check_tree.specs.Notes.{NotesAt, KeepsFormats, KeepsPairs, KeepsNumbers, KeepsRules};
ghost use Rattle.fo_check_tree.specs.Depths.{Deepens, NotesDepths, AreSpread};
ghost use Rattle.fo_check_tree.specs.Numbers.{AreBelow, HasSources, AreFresh};
ghost use Rattle.fo_check_tree.specs.Pairing.{Seeks, AsksOf, LeadsOf, IsApart, MissesBy, AreSought, AreAsked, AreHidden, AreLed, Grows, GrowsUnnamed};
ghost use Rattle.fo_check_names.specs.declared.names.Named.{Named};
ghost use Rattle.fo_check_labels.specs.Known.{left_at};
ghost use Rattle.fo_check_labels.specs.Watch.{hits};
ghost use Rattle.fo_check_tree.specs.Reads.{Spends, SpendsAt};
ghost use Rattle.fo_check_tree.specs.Walking.{Reached, Walking};
ghost use Rattle.fo_check_tree.specs.Lower.{lower, level};
ghost use Rattle.fo_check_tree.specs.Slots.{unless, steps_by, steps_below, steps_of, HasSlots};
ghost use Rattle.fo_check_tree.specs.Steps.{IsAllowed, RefusesStep};
ghost use Rattle.fo_check_labels.specs.declared.error.TreeError.TheVariants.{Read as ReadFault};

use crate::folder::add_entries;
use crate::walk::{Holder, Holds, Step, Walk};
use fo_check_labels::{Reads, TreeError, read};
use fo_check_names::{add_named, miss_pairs};
use fo_crash::Place;
use fo_disk::BLOCK;
use fo_image::{Kind, Label, Pointer, first_data, read_pointer};
use fo_rules::{may_have, read_leaf};
use std::alloc::{AllocError, Global};

/// The label of the block to which a step leads.
fn label_of(walk: &Walk, step: &Step, address: u32) -> Result<Label, TreeError>
    ensures within { IfOk result (λ _. address < walk.now.blocks) }
    ensures cause { IfErr result (λ e. e ≡ ReadFault → ⊥) }
    ensures answer { MatchResult result (IsAllowed walk.now step.now address) (RefusesStep walk.now step.now address) }
{
    if address < first_data(walk.blocks) || walk.blocks <= address {
        return Err(TreeError::Label(step.holder.block));
    }
    let place = Place {
        kind: step.kind,
        tag: step.tag,
        index: step.index,
        rank: 0,
    };
    match walk.labels.label(address) {
        None => Err(TreeError::Label(address)),
        Some(label) if may_have(&label, &step.holder.label, &place, walk.epoch, walk.active) => {
            Ok(label)
        }
        Some(_) => Err(TreeError::Label(address)),
    }
}

/// Follows all pointers that are left.
pub(crate) fn follow_all<D: Reads>(
    alloc: Global,
    main: &mut D,
    walk: &mut Walk,
    depth: u32,
    named: bool,
) -> Result<(), TreeError>
    requires size { D.size main.old ≡ walk.old.blocks }
    ensures walks { (arena : Arena) (device : List Block) (image : Image) (s : Super) (k : Kept) (rest : List Step) → Shows (D.state main.old).holds device → Walking arena device image s k rest walk.old
        → MatchResult result (λ _. Walking arena device image s k rest walk.new) (RefusesTree arena device image k) }
    ensures lists { (arena : Arena) (device : List Block) (image : Image) (s : Super) (k : Kept) (meta : Link) (rest : List Step) → Shows (D.state main.old).holds device → Walking arena device image s k rest walk.old
        → IsListing arena image k meta walk.old.labels.known.items walk.old.steps.items walk.old.named.items → OnOk result (IsListing arena image k meta walk.new.labels.known.items walk.new.steps.items walk.new.named.items) }
    ensures dirs { (arena : Arena) (device : List Block) (image : Image) (s : Super) (k : Kept) (rest : List Step) (others : List Folder) → Shows (D.state main.old).holds device → Walking arena device image s k rest walk.old → AreJudged arena image k others walk.old
        → OnOk result (AreJudged arena image k others walk.new) }
    ensures formed { (arena : Arena) (device : List Block) (image : Image) (s : Super) (k : Kept) (rest : List Step) (others : List Folder) → Shows (D.state main.old).holds device → Walking arena device image s k rest walk.old
        → AreFormed arena image k walk.old.labels.known.items walk.old.noted walk.old.steps.items (others ++ walk.old.folders.items)
        → OnOk result (AreFormed arena image k walk.new.labels.known.items walk.new.noted walk.new.steps.items (others ++ walk.new.folders.items)) }
    ensures grounds { (arena : Arena) (device : List Block) (image : Image) (s : Super) (k : Kept) (rest : List Step) → Shows (D.state main.old).holds device → Walking arena device image s k rest walk.old
        → HasGrounds arena image k walk.old.noted walk.old.steps.items walk.old.folders.items → OnOk result (HasGrounds arena image k walk.new.noted walk.new.steps.items walk.new.folders.items) }
    ensures six { (device : List Block) (image : Image) → Shows (D.state main.old).holds device → OnOk result (KeepsPairs walk.old.noted walk.new.noted) }
    ensures done { OnOk result (walk.new.steps.items ≡ []) }
    ensures blocks { OnOk result (walk.new.blocks ≡ walk.old.blocks) }
    ensures budget { OnOk result (205 * walk.new.labels.left + length walk.new.folders.items ≤ 205 * walk.old.labels.left + length walk.old.folders.items) }
    ensures level { OnOk result (level walk.new.noted ≤ level walk.old.noted) }
    ensures size { D.size main.new ≡ D.size main.old }
    ensures kept { D.state main.new ≡ D.state main.old }
    ensures reads { Spends (D.calls main.old) (D.calls main.new) walk.old.labels walk.new.labels result }
    ensures once { SpendsAt (D.reads main.old) (D.reads main.new) (left_at D.watched walk.old.labels.known.items) (left_at D.watched walk.new.labels.known.items) result }
    ensures cause { HasCauses (D.faults main.old) (D.faults main.new) result }
    ensures pairs { (arena : Arena) (device : List Block) (image : Image) (s : Super) (k : Kept) (entries : Link) (names : List Named) (rest : List Step) → Shows (D.state main.old).holds device → Walking arena device image s k rest walk.old → named ≡ true
        → AreSought arena image entries names walk.old.noted walk.old.steps.items walk.old.named.items walk.old.folders.items → OnOk result (AreSought arena image entries names walk.new.noted walk.new.steps.items walk.new.named.items walk.new.folders.items) }
    ensures asked { (arena : Arena) (device : List Block) (image : Image) (s : Super) (k : Kept) (entries : Link) (names : List Named) (rest : List Step) → Shows (D.state main.old).holds device → Walking arena device image s k rest walk.old → named ≡ true → IsApart names
        → AreSought arena image entries names walk.old.noted walk.old.steps.items walk.old.named.items walk.old.folders.items → AreAsked arena image entries walk.old.steps.items walk.old.named.items → OnOk result (AreAsked arena image entries walk.new.steps.items walk.new.named.items) }
    ensures hidden { (arena : Arena) (device : List Block) (image : Image) (s : Super) (k : Kept) (entries : Link) (names : List Named) (rest : List Step) → Shows (D.state main.old).holds device → Walking arena device image s k rest walk.old → named ≡ true
        → AreSought arena image entries names walk.old.noted walk.old.steps.items walk.old.named.items walk.old.folders.items → AreHidden arena image k entries walk.old.named.items → OnOk result (AreHidden arena image k entries walk.new.named.items) }
    ensures rules { OnOk result (KeepsRules walk.old.noted walk.new.noted) }
    ensures reached { (arena : Arena) (device : List Block) (image : Image) (s : Super) (k : Kept) (rest : List Step) → Shows (D.state main.old).holds device → Walking arena device image s k rest walk.old → OnOk result ((at : ℕ) (l : LabelOf) → Reached walk.old.labels.known.items at l → Reached walk.new.labels.known.items at l) }
    ensures news { (arena : Arena) (device : List Block) (image : Image) (s : Super) (k : Kept) (meta : Link) (rest : List Step) (before : List Known) → Shows (D.state main.old).holds device → Walking arena device image s k rest walk.old
        → IsListing arena image k meta walk.old.labels.known.items walk.old.steps.items walk.old.named.items → AreFresh before walk.old.labels.known.items walk.old.named.items → OnOk result (AreFresh before walk.new.labels.known.items walk.new.named.items) }
    ensures eight { (arena : Arena) (device : List Block) (image : Image) (s : Super) (k : Kept) (rest : List Step) (numbers : ℕ) → Shows (D.state main.old).holds device → Walking arena device image s k rest walk.old → (8 < level walk.old.noted → AreBelow arena image k depth walk.old.steps.items)
        → HasSources arena image k numbers walk.old.noted walk.old.folders.items → OnOk result (HasSources arena image k numbers walk.new.noted walk.new.folders.items) }
    ensures heads { (arena : Arena) (device : List Block) (image : Image) (s : Super) (k : Kept) (entries : Link) (names : List Named) (rest : List Step) (before : List Folder) → Shows (D.state main.old).holds device → Walking arena device image s k rest walk.old → named ≡ true
        → AreSought arena image entries names walk.old.noted walk.old.steps.items walk.old.named.items walk.old.folders.items → AreLed arena image entries names walk.old.noted before walk.old.folders.items → OnOk result (AreLed arena image entries names walk.new.noted before walk.new.folders.items) }
    ensures unnamed { (arena : Arena) (device : List Block) (image : Image) (s : Super) (k : Kept) (rest : List Step) → Shows (D.state main.old).holds device → Walking arena device image s k rest walk.old → named ≡ false → OnOk result (GrowsUnnamed walk.old.folders.items walk.new.folders.items) }
    ensures grows { (arena : Arena) (device : List Block) (image : Image) (s : Super) (k : Kept) (rest : List Step) → Shows (D.state main.old).holds device → Walking arena device image s k rest walk.old → OnOk result (Grows walk.old.folders.items walk.new.folders.items) }
    ensures spread { (arena : Arena) (device : List Block) (image : Image) (s : Super) (k : Kept) (w : Link) (deep : ℕ) (rest : List Step) → Shows (D.state main.old).holds device → Walking arena device image s k rest walk.old → deep ≡ min (depth + 1) (2 ^ 32 - 1)
        → AreSpread arena image k w deep walk.old.noted walk.old.steps.items walk.old.folders.items → OnOk result (AreSpread arena image k w deep walk.new.noted walk.new.steps.items walk.new.folders.items) }
{
    while let Some(step) = walk.steps.pop() {
        follow(alloc, main, walk, &step, depth, named)?;
    }
    Ok(())
}

/// Follows one pointer.
fn follow<D: Reads>(
    alloc: Global,
    main: &mut D,
    walk: &mut Walk,
    step: &Step,
    depth: u32,
    named: bool,
) -> Result<(), TreeError>
    requires size { D.size main.old ≡ walk.old.blocks }
    ensures follows { (device : List Block) (image : Image) → Shows (D.state main.old).holds device → OnOk result (Follows device image depth named step.now walk.old walk.new) }
    ensures refuses { IfErr result (RefusesFollow walk.old step.now) }
    ensures blocks { OnOk result (walk.new.blocks ≡ walk.old.blocks) }
    ensures tree { OnOk result ((walk.new.epoch ≡ walk.old.epoch) × (walk.new.active ≡ walk.old.active)) }
    ensures rules { OnOk result (KeepsRules walk.old.noted walk.new.noted) }
    ensures left { OnOk result (410 * walk.new.labels.left + length walk.new.steps.items ≤ 410 * walk.old.labels.left + length walk.old.steps.items) }
    ensures budget { OnOk result (205 * walk.new.labels.left + length walk.new.folders.items ≤ 205 * walk.old.labels.left + length walk.old.folders.items) }
    ensures level { OnOk result (level walk.new.noted ≤ level walk.old.noted) }
    ensures size { D.size main.new ≡ D.size main.old }
    ensures kept { D.state main.new ≡ D.state main.old }
    ensures reads { Spends (D.calls main.old) (D.calls main.new) walk.old.labels walk.new.labels result }
    ensures once { SpendsAt (D.reads main.old) (D.reads main.new) (left_at D.watched walk.old.labels.known.items) (left_at D.watched walk.new.labels.known.items) result }
    ensures cause { HasCauses (D.faults main.old) (D.faults main.new) result }
{
    match step.pointer {
        Pointer::Nil => Ok(()),
        Pointer::Score(_) => {
            walk.note(9, step.holder.block);
            Ok(())
        }
        Pointer::Local(address) => follow_local(alloc, main, walk, step, address, depth, named),
    }
}

/// Follows a pointer to a block.
fn follow_local<D: Reads>(
    alloc: Global,
    main: &mut D,
    walk: &mut Walk,
    step: &Step,
    address: u32,
    depth: u32,
    named: bool,
) -> Result<(), TreeError>
    requires size { D.size main.old ≡ walk.old.blocks }
    ensures reaches { (device : List Block) (image : Image) → Shows (D.state main.old).holds device → OnOk result (Reaches device image depth named step.now address walk.old walk.new) }
    ensures refuses { step.now.pointer ≡ Local address → IfErr result (RefusesFollow walk.old step.now) }
    ensures blocks { OnOk result (walk.new.blocks ≡ walk.old.blocks) }
    ensures tree { OnOk result ((walk.new.epoch ≡ walk.old.epoch) × (walk.new.active ≡ walk.old.active)) }
    ensures rules { OnOk result (KeepsRules walk.old.noted walk.new.noted) }
    ensures left { OnOk result (410 * walk.new.labels.left + length walk.new.steps.items ≤ 410 * walk.old.labels.left + length walk.old.steps.items) }
    ensures budget { OnOk result (205 * walk.new.labels.left + length walk.new.folders.items ≤ 205 * walk.old.labels.left + length walk.old.folders.items) }
    ensures level { OnOk result (level walk.new.noted ≤ level walk.old.noted) }
    ensures size { D.size main.new ≡ D.size main.old }
    ensures kept { D.state main.new ≡ D.state main.old }
    ensures reads { Spends (D.calls main.old) (D.calls main.new) walk.old.labels walk.new.labels result }
    ensures once { SpendsAt (D.reads main.old) (D.reads main.new) (left_at D.watched walk.old.labels.known.items) (left_at D.watched walk.new.labels.known.items) result }
    ensures cause { HasCauses (D.faults main.old) (D.faults main.new) result }
{
    let label = label_of(walk, step, address)?;
    if !walk.labels.reach(address) {
        walk.note(7, address);
        miss(walk, step);
        return Ok(());
    }
    let here = Holder {
        block: address,
        label,
    };
    enter(alloc, main, walk, step, here, depth, named)?;
    Ok(())
}

/// How many leaves hang from a block of pointers at this level.
fn leaves_below(level: u8) -> u64
    ensures is { level ≤ 4 → result ≡ 409 ^ level }
    ensures least { 1 ≤ result }
{
    match level {
        0 => 1,
        1 => 409,
        2 => 167_281,
        3 => 68_417_929,
        _ => 27_982_932_961,
    }
}

/// The records whose pairs are behind a pointer to a block of entries that was entered from elsewhere.
fn miss(walk: &mut Walk, step: &Step)
    ensures named { MissesBy step.now step.now.kind walk.old.named.items walk.new.named.items }
    ensures noted { walk.new.noted ≡ walk.old.noted }
    ensures blocks { walk.new.blocks ≡ walk.old.blocks }
    ensures tree { (walk.new.epoch ≡ walk.old.epoch) × (walk.new.active ≡ walk.old.active) }
    ensures labels { walk.new.labels ≡ walk.old.labels }
    ensures steps { walk.new.steps.items ≡ walk.old.steps.items }
    ensures folders { walk.new.folders.items ≡ walk.old.folders.items }
{
    match step.kind {
        Kind::Dir(level) => {
            let count = leaves_below(level);
            miss_pairs(&mut walk.named, step.index, count);
        }
        Kind::Data(_) | Kind::Root => {}
    }
}

/// Reads a block that was reached, unless it holds a file's bytes.
fn enter<D: Reads>(
    alloc: Global,
    main: &mut D,
    walk: &mut Walk,
    step: &Step,
    here: Holder,
    depth: u32,
    named: bool,
) -> Result<(), TreeError>
    requires block { here.block < D.size main.old }
    ensures pushed { (device : List Block) (c : Content) → Shows (D.state main.old).holds device → HasSlots step.now.kind c (block_of device here.block)
        → OnOk result (walk.new.steps.items ≡ walk.old.steps.items ++ steps_of step.now here c step.now.kind) }
    ensures put { (device : List Block) (c : Content) → Shows (D.state main.old).holds device → HasSlots step.now.kind c (block_of device here.block)
        → OnOk result (Puts here c depth named step.now.kind walk.old.folders.items walk.new.folders.items) }
    ensures notes { OnOk result (NotesAt here.block walk.old.noted walk.new.noted) }
    ensures format { (device : List Block) (c : Content) → Shows (D.state main.old).holds device → OnOk result (Reads step.now.kind c (block_of device here.block) walk.new.noted) }
    ensures clean { (device : List Block) (c : Content) → Shows (D.state main.old).holds device → IsRead step.now.kind c (block_of device here.block) → (step.now.kind ≡ Data 0 → (step.now.holds ≡ Bytes → ⊥) → IsLeaf (block_of device here.block)) → OnOk result (KeepsFormats walk.old.noted walk.new.noted) }
    ensures refuses { IfErr result NotLabel }
    ensures blocks { OnOk result (walk.new.blocks ≡ walk.old.blocks) }
    ensures tree { OnOk result ((walk.new.epoch ≡ walk.old.epoch) × (walk.new.active ≡ walk.old.active)) }
    ensures labels { OnOk result (walk.new.labels ≡ walk.old.labels) }
    ensures left { OnOk result (walk.new.labels.left ≡ walk.old.labels.left) }
    ensures steps { OnOk result (length walk.new.steps.items ≤ length walk.old.steps.items + 409) }
    ensures folders { OnOk result (length walk.new.folders.items ≤ length walk.old.folders.items + 204) }
    ensures level { OnOk result (level walk.new.noted ≤ level walk.old.noted) }
    ensures size { D.size main.new ≡ D.size main.old }
    ensures kept { D.state main.new ≡ D.state main.old }
    ensures reads { D.calls main.new ≤ D.calls main.old + 1 }
    ensures once { D.reads main.new ≤ D.reads main.old + hits here.block D.watched }
    ensures cause { HasCauses (D.faults main.old) (D.faults main.new) result }
    ensures named { (device : List Block) → Shows (D.state main.old).holds device → OnOk result (Adds step.now here.block (block_of device here.block) step.now.kind walk.old.named.items walk.new.named.items) }
    ensures leaf { (device : List Block) → Shows (D.state main.old).holds device → step.now.kind ≡ Data 0 → step.now.holds ≡ Records → OnOk result (5 < level walk.new.noted → IsLeaf (block_of device here.block)) }
    ensures sought { (device : List Block) (c : Content) → Shows (D.state main.old).holds device → HasSlots step.now.kind c (block_of device here.block) → OnOk result (Seeks step.now c named step.now.kind walk.old.named.items walk.new.named.items walk.new.folders.items) }
    ensures asks { (device : List Block) (c : Content) → Shows (D.state main.old).holds device → HasSlots step.now.kind c (block_of device here.block) → OnOk result (AsksOf step.now c step.now.kind walk.old.named.items walk.new.named.items) }
    ensures file { step.now.kind ≡ Data 0 → step.now.holds ≡ Bytes → OnOk result (walk.new.named.items ≡ walk.old.named.items) }
    ensures eight { (device : List Block) (c : Content) → Shows (D.state main.old).holds device → HasSlots step.now.kind c (block_of device here.block) → OnOk result (NotesDepths c (min (depth + 1) (2 ^ 32 - 1)) here.block step.now.kind walk.old.noted walk.new.noted) }
    ensures heads { (device : List Block) (c : Content) → Shows (D.state main.old).holds device → HasSlots step.now.kind c (block_of device here.block) → OnOk result (LeadsOf step.now c step.now.kind walk.old.named.items walk.old.folders.items walk.new.folders.items) }
    ensures deep { (device : List Block) (c : Content) → Shows (D.state main.old).holds device → HasSlots step.now.kind c (block_of device here.block) → OnOk result (Deepens c (min (depth + 1) (2 ^ 32 - 1)) step.now.kind walk.new.noted) }
{
    if step.kind == Kind::Data(0) && step.holds == Holds::Bytes {
        return Ok(());
    }
    let mut block = [0; BLOCK];
    read(main, here.block, &mut block)?;
    match add_block(alloc, walk, step, here, &block, depth, named) {
        Ok(()) => Ok(()),
        Err(_) => Err(TreeError::Memory),
    }
}

/// What a block holds, as its kind says.
fn add_block(
    alloc: Global,
    walk: &mut Walk,
    step: &Step,
    here: Holder,
    block: &[u8],
    depth: u32,
    named: bool,
) -> Result<(), AllocError>
    requires { length block.now ≡ 8192 }
    ensures pushed { (c : Content) → HasSlots step.now.kind c block.now → OnOk result (walk.new.steps.items ≡ walk.old.steps.items ++ steps_of step.now here c step.now.kind) }
    ensures format { (c : Content) → OnOk result (Reads step.now.kind c block.now walk.new.noted) }
    ensures put { (c : Content) → HasSlots step.now.kind c block.now → OnOk result (Puts here c depth named step.now.kind walk.old.folders.items walk.new.folders.items) }
    ensures notes { OnOk result (NotesAt here.block walk.old.noted walk.new.noted) }
    ensures blocks { OnOk result (walk.new.blocks ≡ walk.old.blocks) }
    ensures tree { OnOk result ((walk.new.epoch ≡ walk.old.epoch) × (walk.new.active ≡ walk.old.active)) }
    ensures labels { OnOk result (walk.new.labels ≡ walk.old.labels) }
    ensures steps { OnOk result (length walk.new.steps.items ≤ length walk.old.steps.items + 409) }
    ensures folders { OnOk result (length walk.new.folders.items ≤ length walk.old.folders.items + 204) }
    ensures level { OnOk result (level walk.new.noted ≤ level walk.old.noted) }
    ensures named { OnOk result (Adds step.now here.block block.now step.now.kind walk.old.named.items walk.new.named.items) }
    ensures clean { (c : Content) → IsRead step.now.kind c block.now → (step.now.kind ≡ Data 0 → IsLeaf block.now) → OnOk result (KeepsFormats walk.old.noted walk.new.noted) }
    ensures leaf { step.now.kind ≡ Data 0 → OnOk result (5 < level walk.new.noted → IsLeaf block.now) }
    ensures sought { (c : Content) → HasSlots step.now.kind c block.now → OnOk result (Seeks step.now c named step.now.kind walk.old.named.items walk.new.named.items walk.new.folders.items) }
    ensures asks { (c : Content) → HasSlots step.now.kind c block.now → OnOk result (AsksOf step.now c step.now.kind walk.old.named.items walk.new.named.items) }
    ensures eight { (c : Content) → HasSlots step.now.kind c block.now → OnOk result (NotesDepths c (min (depth + 1) (2 ^ 32 - 1)) here.block step.now.kind walk.old.noted walk.new.noted) }
    ensures heads { (c : Content) → HasSlots step.now.kind c block.now → OnOk result (LeadsOf step.now c step.now.kind walk.old.named.items walk.old.folders.items walk.new.folders.items) }
    ensures deep { (c : Content) → HasSlots step.now.kind c block.now → OnOk result (Deepens c (min (depth + 1) (2 ^ 32 - 1)) step.now.kind walk.new.noted) }
{
    match step.kind {
        Kind::Data(0) => add_records(alloc, walk, step, here, block),
        Kind::Data(level) => add_pointers(walk, step, Kind::Data(level - 1), here, block),
        Kind::Dir(0) => add_entries(walk, step.index, here, block, depth, named),
        Kind::Dir(level) => add_pointers(walk, step, Kind::Dir(level - 1), here, block),
        Kind::Root => Ok(()),
    }
}

/// The pointers of a block.
fn add_pointers(
    walk: &mut Walk,
    step: &Step,
    kind: Kind,
    here: Holder,
    block: &[u8],
) -> Result<(), AllocError>
    requires { length block.now ≡ 8192 }
    ensures pushed { (c : Content) → ((i : ℕ) → i < 409 → HasPointer c block.now i) → OnOk result (walk.new.steps.items ≡ walk.old.steps.items ++ steps_below step.now kind here c 409) }
    ensures noted { OnOk result (walk.new.noted ≡ unless (is_zero (drop 8180 block.now)) 5 here.block walk.old.noted) }
    ensures blocks { OnOk result (walk.new.blocks ≡ walk.old.blocks) }
    ensures tree { OnOk result ((walk.new.epoch ≡ walk.old.epoch) × (walk.new.active ≡ walk.old.active)) }
    ensures labels { OnOk result (walk.new.labels ≡ walk.old.labels) }
    ensures steps { OnOk result (length walk.new.steps.items ≤ length walk.old.steps.items + 409) }
    ensures folders { OnOk result (walk.new.folders.items ≡ walk.old.folders.items) }
    ensures level { OnOk result (level walk.new.noted ≤ level walk.old.noted) }
    ensures named { OnOk result (walk.new.named.items ≡ walk.old.named.items) }
{
    walk.note_rest(here.block, &block[8180..]);
    for i in 0..409 {
        let pointer = read_pointer(&block[20 * i..20 * i + 20]);
        add_pointer(walk, step, kind, here, i, pointer)?;
    }
    Ok(())
}

/// The pointer in slot `i` of a block, unless it leads nowhere.
fn add_pointer(
    walk: &mut Walk,
    step: &Step,
    kind: Kind,
    here: Holder,
    i: usize,
    pointer: Pointer,
) -> Result<(), AllocError>
    ensures pushed { OnOk result (walk.new.steps.items ≡ walk.old.steps.items ++ steps_by step.now kind here i pointer) }
    ensures noted { walk.new.noted ≡ walk.old.noted }
    ensures blocks { walk.new.blocks ≡ walk.old.blocks }
    ensures tree { (walk.new.epoch ≡ walk.old.epoch) × (walk.new.active ≡ walk.old.active) }
    ensures labels { walk.new.labels ≡ walk.old.labels }
    ensures steps { OnOk result (length walk.new.steps.items ≤ length walk.old.steps.items + 1) }
    ensures folders { walk.new.folders.items ≡ walk.old.folders.items }
    ensures named { walk.new.named.items ≡ walk.old.named.items }
{
    match pointer {
        Pointer::Nil => {}
        Pointer::Local(_) | Pointer::Score(_) => walk.steps.push(Step {
            pointer,
            kind,
            index: step.index.saturating_mul(409).saturating_add(i as u64),
            holder: here,
            ..*step
        })?,
    }
    Ok(())
}

/// The records of a leaf. Those of leaves past the size are not of the directory.
fn add_records(
    alloc: Global,
    walk: &mut Walk,
    step: &Step,
    here: Holder,
    block: &[u8],
) -> Result<(), AllocError>
    requires { length block.now ≡ 8192 }
    ensures blocks { OnOk result (walk.new.blocks ≡ walk.old.blocks) }
    ensures tree { OnOk result ((walk.new.epoch ≡ walk.old.epoch) × (walk.new.active ≡ walk.old.active)) }
    ensures labels { OnOk result (walk.new.labels ≡ walk.old.labels) }
    ensures steps { OnOk result (walk.new.steps.items ≡ walk.old.steps.items) }
    ensures folders { OnOk result (walk.new.folders.items ≡ walk.old.folders.items) }
    ensures format { ¬ IsLeaf block.now → OnOk result (walk.new.noted ≡ lower walk.old.noted 5 here.block) }
    ensures quiet { IsLeaf block.now → OnOk result (walk.new.noted ≡ walk.old.noted) }
    ensures notes { OnOk result (NotesAt here.block walk.old.noted walk.new.noted) }
    ensures level { OnOk result (level walk.new.noted ≤ level walk.old.noted) }
    ensures named { OnOk result (AddsNamed step.now here.block block.now walk.old.named.items walk.new.named.items) }
    ensures leaf { OnOk result (5 < level walk.new.noted → IsLeaf block.now) }
    ensures eight { OnOk result (KeepsNumbers walk.old.noted walk.new.noted) }
{
    let Some(records) = read_leaf(alloc, block)? else {
        walk.note(5, here.block);
        return Ok(());
    };
    if step.size <= step.index.saturating_mul(8192) {
        return Ok(());
    }
    add_named(&mut walk.named, records, here.block)
}
