//! Leaves of entries, and directories.
ghost use Rattle.std.specs.Prelude.{◌≡◌, ◌⊎◌, ℕ, List, MatchResult, suc, ◌+◌, ◌-◌, ◌*◌, ◌^◌, ◌<◌, ◌≤◌, not, ◌&&◌, None, cond, min, true, false, length, take, drop, map, [], ◌∷◌, ◌++◌, OnOk};
ghost use Rattle.fo_image.specs.declared.types.Entry.{Entry};
ghost use Rattle.fo_image.specs.Format.{SpellsEntry};
ghost use Rattle.fo_crash.specs.Images.{Arena, Content, Image, Link, entry_of as entry_at};
ghost use Rattle.fo_disk.specs.Disk.{Block};
ghost use Rattle.fo_good.specs.Means.{HasEntry};
ghost use Rattle.fo_good.specs.Sound.{Kept};
ghost use Rattle.fo_good.specs.Trees.{IsTree, IsEntries};
ghost use Rattle.fo_check_tree.specs.Answer.{HasOwnNames};
ghost use Rattle.fo_check_tree.specs.Dirs.{AreJudged};
ghost use Rattle.fo_check_tree.specs.Formats.{AreFormed};
ghost use Rattle.fo_check_tree.specs.Grounds.{HasRecordsOf, HasGrounds};
ghost use Rattle.fo_check_tree.specs.Listing.{IsMetaOf, SomeOf, NotesSlots};
ghost use Rattle.fo_image.specs.declared.types.Super.{Super};
ghost use Rattle.fo_image.specs.declared.types.Label.{Label};
ghost use Rattle.fo_sound.specs.Image.{is_zero};
ghost use Rattle.fo_sound.specs.Device.{Shows};
ghost use Rattle.fo_check_tree.specs.declared.walk.Holds.TheVariants.{Bytes, Entries};
ghost use Rattle.fo_check_tree.specs.Answer.{RefusesTree};
ghost use Rattle.fo_check_labels.specs.Known.{left_at};
ghost use Rattle.fo_check_tree.specs.Reads.{Spends, SpendsAt};
ghost use Rattle.fo_check_tree.specs.Walking.{Reached, Walking, tops};
ghost use Rattle.fo_check_labels.specs.Cause.{HasCauses};
ghost use Rattle.fo_check_tree.specs.Lower.{lower, level};
ghost use Rattle.fo_check_tree.specs.Slots.{top_step, entry_of, HasSlot, steps_by_pairs, AddsFolders, pair_steps, first_steps, second_steps, pair_folders, folders_by};
ghost use Rattle.fo_check_names.specs.Pairs.{no_entry, is_folder, is_source, records_of};
ghost use Rattle.fo_check_tree.specs.Notes.{NotesAt, NotesDeep, NotesFolders, KeepsFormats, KeepsPairs, KeepsNumbers, KeepsRules};
ghost use Rattle.fo_check_tree.specs.Depths.{HasFolder, IsSourceOf};
ghost use Rattle.fo_check_tree.specs.Numbers.{IsSourceIn, HasSources, AreFresh, AreNumbers};
ghost use Rattle.fo_check_tree.specs.Pairing.{Searches, IsApart, Asks, Leads, AreInOrder, Settles, Grows, GrowsUnnamed, IsOfDir, HasHeads};
ghost use Rattle.fo_check_names.specs.Names.{number_in};
ghost use Rattle.fo_check_names.specs.Finds.{Finds};

use crate::blocks::follow_all;
use crate::walk::{Folder, Holder, Holds, Step, Walk};
use fo_check_labels::{Reads, TreeError};
use fo_check_names::{
    Number, add_numbers, find_pair, is_alone, is_both, is_folder, is_source, leaf_unless,
    records_of, same_name, same_pair, without_pair,
};
use fo_image::{Entry, Pointer, read_entry};
use std::alloc::{AllocError, Global};

const NO_ENTRY: Entry = Entry {
    generation: 0,
    active: false,
    dir: false,
    depth: 0,
    tag: 0,
    size: 0,
    top: Pointer::Nil,
};

/// An entry that is of at most four levels. Another is not followed.
pub(crate) fn shallow(walk: &mut Walk, block: u32, entry: &Entry) -> Entry
    ensures blocks { walk.new.blocks ≡ walk.old.blocks }
    ensures tree { (walk.new.epoch ≡ walk.old.epoch) × (walk.new.active ≡ walk.old.active) }
    ensures labels { walk.new.labels ≡ walk.old.labels }
    ensures steps { walk.new.steps.items ≡ walk.old.steps.items }
    ensures folders { walk.new.folders.items ≡ walk.old.folders.items }
    ensures level { level walk.new.noted ≤ level walk.old.noted }
    ensures entry { entry.now.depth ≤ 4 → result ≡ entry.now }
    ensures quiet { entry.now.depth ≤ 4 → walk.new.noted ≡ walk.old.noted }
    ensures none { 4 < entry.now.depth → result ≡ no_entry }
    ensures deep { 4 < entry.now.depth → level walk.new.noted ≤ 5 }
    ensures notes { NotesAt block walk.old.noted walk.new.noted }
    ensures eight { KeepsNumbers walk.old.noted walk.new.noted }
    ensures named { walk.new.named.items ≡ walk.old.named.items }
{
    if entry.depth <= 4 {
        *entry
    } else {
        walk.note(5, block);
        NO_ENTRY
    }
}

/// An entry of a leaf. One that is not of the format is not followed.
fn entry_at(walk: &mut Walk, here: Holder, block: &[u8], i: usize) -> Entry
    requires length { length block.now ≡ 8192 }
    requires place { i < 204 }
    ensures found { (e : Entry) → SpellsEntry e (take 40 (drop (40 * i) block.now)) → e.depth ≤ 4 → result ≡ e }
    ensures is { (c : Content) → HasSlot c block.now i → result ≡ entry_of (c.slot i) }
    ensures none { ((e : Entry) → SpellsEntry e (take 40 (drop (40 * i) block.now)) → 4 < e.depth) → (result ≡ no_entry) × (level walk.new.noted ≤ 5) }
    ensures kept { (c : Content) → HasEntry c block.now i → walk.new.noted ≡ walk.old.noted }
    ensures notes { NotesAt here.block walk.old.noted walk.new.noted }
    ensures eight { KeepsNumbers walk.old.noted walk.new.noted }
    ensures blocks { walk.new.blocks ≡ walk.old.blocks }
    ensures tree { (walk.new.epoch ≡ walk.old.epoch) × (walk.new.active ≡ walk.old.active) }
    ensures labels { walk.new.labels ≡ walk.old.labels }
    ensures steps { walk.new.steps.items ≡ walk.old.steps.items }
    ensures folders { walk.new.folders.items ≡ walk.old.folders.items }
    ensures level { level walk.new.noted ≤ level walk.old.noted }
    ensures named { walk.new.named.items ≡ walk.old.named.items }
{
    match read_entry(&block[40 * i..40 * i + 40]) {
        Ok(entry) => shallow(walk, here.block, &entry),
        Err(_) => {
            walk.note(5, here.block);
            NO_ENTRY
        }
    }
}

/// The pairs of a leaf of entries.
pub(crate) fn add_entries(
    walk: &mut Walk,
    index: u64,
    here: Holder,
    block: &[u8],
    depth: u32,
    named: bool,
) -> Result<(), AllocError>
    requires { length block.now ≡ 8192 }
    ensures pushed { (c : Content) → ((i : ℕ) → i < 204 → HasSlot c block.now i) → OnOk result (walk.new.steps.items ≡ walk.old.steps.items ++ steps_by_pairs here c 102) }
    ensures put { (c : Content) → ((i : ℕ) → i < 204 → HasSlot c block.now i) → OnOk result (AddsFolders here c (min (depth + 1) (2 ^ 32 - 1)) named 102 walk.old.folders.items walk.new.folders.items) }
    ensures whole { (c : Content) → ((i : ℕ) → i < 204 → HasSlot c block.now i) → OnOk result (5 < level walk.new.noted → (i : ℕ) → i < 204 → HasEntry c block.now i) }
    ensures rest { is_zero (drop 8160 block.now) ≡ false → OnOk result (level walk.new.noted ≤ 5) }
    ensures clean { (c : Content) → ((i : ℕ) → i < 204 → HasEntry c block.now i) → is_zero (drop 8160 block.now) ≡ true → OnOk result (KeepsFormats walk.old.noted walk.new.noted) }
    ensures notes { OnOk result (NotesAt here.block walk.old.noted walk.new.noted) }
    ensures blocks { OnOk result (walk.new.blocks ≡ walk.old.blocks) }
    ensures tree { OnOk result ((walk.new.epoch ≡ walk.old.epoch) × (walk.new.active ≡ walk.old.active)) }
    ensures labels { OnOk result (walk.new.labels ≡ walk.old.labels) }
    ensures steps { OnOk result (length walk.new.steps.items ≤ length walk.old.steps.items + 204) }
    ensures folders { OnOk result (length walk.new.folders.items ≤ length walk.old.folders.items + 204) }
    ensures level { OnOk result (level walk.new.noted ≤ level walk.old.noted) }
    ensures sought { (c : Content) → ((i : ℕ) → i < 204 → HasSlot c block.now i) → OnOk result (Searches index c named 102 walk.old.named.items walk.new.named.items walk.new.folders.items) }
    ensures asks { (c : Content) → ((i : ℕ) → i < 204 → HasSlot c block.now i) → index < 27982932961 → IsApart walk.old.named.items → OnOk result (Asks index c 102 walk.old.named.items walk.new.named.items) }
    ensures eight { (c : Content) → ((i : ℕ) → i < 204 → HasSlot c block.now i) → OnOk result (NotesFolders (HasFolder c) (min (depth + 1) (2 ^ 32 - 1)) here.block walk.old.noted walk.new.noted) }
    ensures heads { (c : Content) → ((i : ℕ) → i < 204 → HasSlot c block.now i) → OnOk result (Leads index c 102 walk.old.named.items walk.old.folders.items walk.new.folders.items) }
    ensures deep { (c : Content) → ((i : ℕ) → i < 204 → HasSlot c block.now i) → OnOk result (8 < level walk.new.noted → (i : ℕ) → i < 204 → is_folder (entry_of (c.slot i)) ≡ true → min (depth + 1) (2 ^ 32 - 1) ≤ 64) }
{
    walk.note_rest(here.block, &block[8160..]);
    let below = depth.saturating_add(1);
    for k in 0..102 {
        let first = entry_at(walk, here, block, 2 * k);
        let second = entry_at(walk, here, block, 2 * k + 1);
        let of = find_here(
            walk,
            index.saturating_mul(102).saturating_add(k as u64),
            &first,
            &second,
        );
        let leads = is_both(named, of);
        add_pair(walk, here, &first, &second, below, leads)?;
    }
    Ok(())
}

/// Whether a record of the directory in course names this pair and is its own.
fn find_here(walk: &mut Walk, slot: u64, first: &Entry, second: &Entry) -> bool
    ensures finds { Finds slot first.now second.now result walk.old.named.items walk.new.named.items }
    ensures noted { walk.new.noted ≡ walk.old.noted }
    ensures blocks { walk.new.blocks ≡ walk.old.blocks }
    ensures tree { (walk.new.epoch ≡ walk.old.epoch) × (walk.new.active ≡ walk.old.active) }
    ensures labels { walk.new.labels ≡ walk.old.labels }
    ensures steps { walk.new.steps.items ≡ walk.old.steps.items }
    ensures folders { walk.new.folders.items ≡ walk.old.folders.items }
    ensures level { level walk.new.noted ≤ level walk.old.noted }
{
    find_pair(&mut walk.named, slot, first, second)
}

/// A pair of entries: a directory, or sources of their own.
fn add_pair(
    walk: &mut Walk,
    here: Holder,
    first: &Entry,
    second: &Entry,
    depth: u32,
    named: bool,
) -> Result<(), AllocError>
    ensures pushed { OnOk result (walk.new.steps.items ≡ walk.old.steps.items ++ pair_steps here first.now second.now) }
    ensures put { OnOk result (walk.new.folders.items ≡ walk.old.folders.items ++ pair_folders here first.now second.now depth named) }
    ensures notes { OnOk result (NotesDeep here.block walk.old.noted walk.new.noted) }
    ensures blocks { OnOk result (walk.new.blocks ≡ walk.old.blocks) }
    ensures tree { OnOk result ((walk.new.epoch ≡ walk.old.epoch) × (walk.new.active ≡ walk.old.active)) }
    ensures labels { OnOk result (walk.new.labels ≡ walk.old.labels) }
    ensures steps { OnOk result (length walk.new.steps.items ≤ length walk.old.steps.items + 2) }
    ensures folders { OnOk result (length walk.new.folders.items ≤ length walk.old.folders.items + 2) }
    ensures level { OnOk result (level walk.new.noted ≤ level walk.old.noted) }
    ensures named { OnOk result (walk.new.named.items ≡ walk.old.named.items) }
    ensures first_deep { is_folder first.now ≡ true → 64 < depth → OnOk result (level walk.new.noted ≤ 8) }
    ensures second_deep { is_folder second.now ≡ true → 64 < depth → OnOk result (level walk.new.noted ≤ 8) }
    ensures eight { OnOk result (NotesFolders ((is_folder first.now ≡ true) ⊎ (is_folder second.now ≡ true)) depth here.block walk.old.noted walk.new.noted) }
{
    let records = records_of(first, second);
    add_first(walk, here, first, records, depth, named)?;
    add_second(walk, here, first, second, depth)?;
    Ok(())
}

/// The first entry of a pair.
fn add_first(
    walk: &mut Walk,
    here: Holder,
    entry: &Entry,
    records: Option<Entry>,
    depth: u32,
    named: bool,
) -> Result<(), AllocError>
    ensures pushed { OnOk result (walk.new.steps.items ≡ walk.old.steps.items ++ first_steps here entry.now) }
    ensures put { OnOk result (walk.new.folders.items ≡ walk.old.folders.items ++ folders_by here entry.now records depth named) }
    ensures notes { OnOk result (NotesDeep here.block walk.old.noted walk.new.noted) }
    ensures blocks { OnOk result (walk.new.blocks ≡ walk.old.blocks) }
    ensures tree { OnOk result ((walk.new.epoch ≡ walk.old.epoch) × (walk.new.active ≡ walk.old.active)) }
    ensures labels { OnOk result (walk.new.labels ≡ walk.old.labels) }
    ensures steps { OnOk result (length walk.new.steps.items ≤ length walk.old.steps.items + 1) }
    ensures folders { OnOk result (length walk.new.folders.items ≤ length walk.old.folders.items + 1) }
    ensures level { OnOk result (level walk.new.noted ≤ level walk.old.noted) }
    ensures named { OnOk result (walk.new.named.items ≡ walk.old.named.items) }
    ensures deep { is_folder entry.now ≡ true → 64 < depth → OnOk result (level walk.new.noted ≤ 8) }
    ensures eight { OnOk result (NotesFolders (is_folder entry.now ≡ true) depth here.block walk.old.noted walk.new.noted) }
{
    add_entry(walk, here, entry, records, depth, named)?;
    let step = Step::top(entry, Holds::Bytes, here);
    let source = is_source(entry);
    add_source(walk, step, source)?;
    Ok(())
}

/// The second entry of a pair.
fn add_second(
    walk: &mut Walk,
    here: Holder,
    first: &Entry,
    second: &Entry,
    depth: u32,
) -> Result<(), AllocError>
    ensures pushed { OnOk result (walk.new.steps.items ≡ walk.old.steps.items ++ second_steps here (is_folder first.now) second.now) }
    ensures put { OnOk result (walk.new.folders.items ≡ walk.old.folders.items ++ folders_by here second.now None depth false) }
    ensures notes { OnOk result (NotesDeep here.block walk.old.noted walk.new.noted) }
    ensures blocks { OnOk result (walk.new.blocks ≡ walk.old.blocks) }
    ensures tree { OnOk result ((walk.new.epoch ≡ walk.old.epoch) × (walk.new.active ≡ walk.old.active)) }
    ensures labels { OnOk result (walk.new.labels ≡ walk.old.labels) }
    ensures steps { OnOk result (length walk.new.steps.items ≤ length walk.old.steps.items + 1) }
    ensures folders { OnOk result (length walk.new.folders.items ≤ length walk.old.folders.items + 1) }
    ensures level { OnOk result (level walk.new.noted ≤ level walk.old.noted) }
    ensures named { OnOk result (walk.new.named.items ≡ walk.old.named.items) }
    ensures deep { is_folder second.now ≡ true → 64 < depth → OnOk result (level walk.new.noted ≤ 8) }
    ensures eight { OnOk result (NotesFolders (is_folder second.now ≡ true) depth here.block walk.old.noted walk.new.noted) }
{
    add_entry(walk, here, second, None, depth, false)?;
    let step = Step::unlisted(second, here);
    let alone = is_alone(first, second);
    add_source(walk, step, alone)?;
    Ok(())
}

/// A step, where it is to be made.
fn add_source(walk: &mut Walk, step: Step, is: bool) -> Result<(), AllocError>
    ensures pushed { OnOk result (walk.new.steps.items ≡ walk.old.steps.items ++ cond is (step ∷ []) []) }
    ensures steps { OnOk result (length walk.new.steps.items ≤ length walk.old.steps.items + 1) }
    ensures noted { walk.new.noted ≡ walk.old.noted }
    ensures blocks { walk.new.blocks ≡ walk.old.blocks }
    ensures tree { (walk.new.epoch ≡ walk.old.epoch) × (walk.new.active ≡ walk.old.active) }
    ensures labels { walk.new.labels ≡ walk.old.labels }
    ensures folders { walk.new.folders.items ≡ walk.old.folders.items }
    ensures named { walk.new.named.items ≡ walk.old.named.items }
{
    if is {
        walk.steps.push(step)?;
    }
    Ok(())
}

/// The source of an entry, where that names a source of entries.
fn add_entry(
    walk: &mut Walk,
    here: Holder,
    entry: &Entry,
    records: Option<Entry>,
    depth: u32,
    named: bool,
) -> Result<(), AllocError>
    ensures put { OnOk result (walk.new.folders.items ≡ walk.old.folders.items ++ folders_by here entry.now records depth named) }
    ensures notes { OnOk result (NotesDeep here.block walk.old.noted walk.new.noted) }
    ensures folders { OnOk result (length walk.new.folders.items ≤ length walk.old.folders.items + 1) }
    ensures deep { is_folder entry.now ≡ true → 64 < depth → OnOk result (walk.new.noted ≡ lower walk.old.noted 8 here.block) }
    ensures quiet { depth ≤ 64 → walk.new.noted ≡ walk.old.noted }
    ensures other { is_folder entry.now ≡ false → walk.new.noted ≡ walk.old.noted }
    ensures level { level walk.new.noted ≤ level walk.old.noted }
    ensures blocks { walk.new.blocks ≡ walk.old.blocks }
    ensures tree { (walk.new.epoch ≡ walk.old.epoch) × (walk.new.active ≡ walk.old.active) }
    ensures labels { walk.new.labels ≡ walk.old.labels }
    ensures steps { walk.new.steps.items ≡ walk.old.steps.items }
    ensures named { walk.new.named.items ≡ walk.old.named.items }
{
    if is_folder(entry) {
        walk.note_depth(here.block, depth);
        walk.folders.push(Folder {
            entries: *entry,
            records,
            holder: here,
            depth,
            named,
        })?;
    }
    Ok(())
}

/// What the leaves of the first source of a pair hold.
fn holds_in(entry: &Entry) -> Holds
    ensures { result ≡ cond entry.now.dir Entries Bytes }
{
    if entry.dir {
        return Holds::Entries;
    }
    Holds::Bytes
}

/// The records of a directory, and the rules that they have to keep by themselves.
fn list<D: Reads>(
    alloc: Global,
    main: &mut D,
    walk: &mut Walk,
    numbers: &mut Vec<Number>,
    folder: &Folder,
) -> Result<(), TreeError>
    requires size { D.size main.old ≡ walk.old.blocks }
    ensures walks { (arena : Arena) (device : List Block) (image : Image) (s : Super) (k : Kept) → Shows (D.state main.old).holds device → Walking arena device image s k (tops folder.now) walk.old
        → MatchResult result (λ _. Walking arena device image s k (top_step folder.now.entries Bytes folder.now.holder ∷ []) walk.new) (RefusesTree arena device image k) }
    ensures names { (arena : Arena) (device : List Block) (image : Image) (s : Super) (k : Kept) (meta : Link) → Shows (D.state main.old).holds device → Walking arena device image s k (tops folder.now) walk.old → IsMetaOf folder.now meta
        → walk.old.steps.items ≡ [] → walk.old.named.items ≡ [] → OnOk result (5 < level walk.new.noted → HasOwnNames arena image k meta) }
    ensures dirs { (arena : Arena) (device : List Block) (image : Image) (s : Super) (k : Kept) (others : List Folder) → Shows (D.state main.old).holds device → Walking arena device image s k (tops folder.now) walk.old → AreJudged arena image k others walk.old
        → OnOk result (AreJudged arena image k others walk.new) }
    ensures formed { (arena : Arena) (device : List Block) (image : Image) (s : Super) (k : Kept) (others : List Folder) → Shows (D.state main.old).holds device → Walking arena device image s k (tops folder.now) walk.old
        → AreFormed arena image k walk.old.labels.known.items walk.old.noted walk.old.steps.items (folder.now ∷ others ++ walk.old.folders.items)
        → OnOk result (AreFormed arena image k walk.new.labels.known.items walk.new.noted walk.new.steps.items (others ++ walk.new.folders.items)) }
    ensures blocks { OnOk result (walk.new.blocks ≡ walk.old.blocks) }
    ensures budget { OnOk result (205 * walk.new.labels.left + length walk.new.folders.items ≤ 205 * walk.old.labels.left + length walk.old.folders.items) }
    ensures level { OnOk result (level walk.new.noted ≤ level walk.old.noted) }
    ensures size { D.size main.new ≡ D.size main.old }
    ensures kept { D.state main.new ≡ D.state main.old }
    ensures reads { Spends (D.calls main.old) (D.calls main.new) walk.old.labels walk.new.labels result }
    ensures once { SpendsAt (D.reads main.old) (D.reads main.new) (left_at D.watched walk.old.labels.known.items) (left_at D.watched walk.new.labels.known.items) result }
    ensures cause { HasCauses (D.faults main.old) (D.faults main.new) result }
    ensures listed { (arena : Arena) (device : List Block) (image : Image) (s : Super) (k : Kept) (meta : Link) → Shows (D.state main.old).holds device → Walking arena device image s k (tops folder.now) walk.old → IsMetaOf folder.now meta
        → walk.old.steps.items ≡ [] → walk.old.named.items ≡ [] → OnOk result (AreInOrder arena image k meta folder.now.named walk.new.noted walk.new.named.items) }
    ensures slots { (arena : Arena) (device : List Block) (image : Image) (s : Super) (k : Kept) (meta : Link) → Shows (D.state main.old).holds device → Walking arena device image s k (tops folder.now) walk.old → IsMetaOf folder.now meta
        → walk.old.steps.items ≡ [] → walk.old.named.items ≡ [] → OnOk result (NotesSlots arena image meta walk.old.noted walk.new.noted) }
    ensures counted { walk.old.named.items ≡ [] → folder.now.named ≡ true → OnOk result (numbers.new.items ≡ numbers.old.items ++ map number_in walk.new.named.items) }
    ensures rules { OnOk result (KeepsRules walk.old.noted walk.new.noted) }
    ensures uncounted { folder.now.named ≡ false → OnOk result (numbers.new.items ≡ numbers.old.items) }
    ensures done { OnOk result (walk.old.steps.items ≡ [] → walk.new.steps.items ≡ []) }
    ensures six { (device : List Block) (image : Image) → Shows (D.state main.old).holds device → (folder.now.named ≡ true → level walk.old.noted ≤ 6) → OnOk result (KeepsPairs walk.old.noted walk.new.noted) }
    ensures eight { (arena : Arena) (device : List Block) (image : Image) (s : Super) (k : Kept) (limit : ℕ) → Shows (D.state main.old).holds device → Walking arena device image s k (tops folder.now) walk.old → walk.old.steps.items ≡ [] → (8 < level walk.old.noted → IsSourceIn arena image k folder.now)
        → HasSources arena image k limit walk.old.noted walk.old.folders.items → OnOk result (HasSources arena image k limit walk.new.noted walk.new.folders.items) }
    ensures reached { (arena : Arena) (device : List Block) (image : Image) (s : Super) (k : Kept) → Shows (D.state main.old).holds device → Walking arena device image s k (tops folder.now) walk.old → OnOk result ((at : ℕ) (l : Label) → Reached walk.old.labels.known.items at l → Reached walk.new.labels.known.items at l) }
    ensures news { (arena : Arena) (device : List Block) (image : Image) (s : Super) (k : Kept) (meta : Link) → Shows (D.state main.old).holds device → Walking arena device image s k (tops folder.now) walk.old → IsMetaOf folder.now meta → walk.old.steps.items ≡ [] → walk.old.named.items ≡ []
        → OnOk result (AreFresh walk.old.labels.known.items walk.new.labels.known.items walk.new.named.items) }
    ensures apart { walk.old.named.items ≡ [] → folder.now.named ≡ true → OnOk result (6 < level walk.new.noted → IsApart walk.new.named.items) }
    ensures unnamed { (arena : Arena) (device : List Block) (image : Image) (s : Super) (k : Kept) → Shows (D.state main.old).holds device → Walking arena device image s k (tops folder.now) walk.old → OnOk result (GrowsUnnamed walk.old.folders.items walk.new.folders.items) }
    ensures grounds { (arena : Arena) (device : List Block) (image : Image) (s : Super) (k : Kept) → Shows (D.state main.old).holds device → Walking arena device image s k (tops folder.now) walk.old → walk.old.steps.items ≡ [] → walk.old.named.items ≡ [] → HasRecordsOf arena image k folder.now
        → HasGrounds arena image k walk.old.noted walk.old.steps.items walk.old.folders.items → OnOk result (HasGrounds arena image k walk.new.noted walk.new.steps.items walk.new.folders.items) }
    ensures grows { (arena : Arena) (device : List Block) (image : Image) (s : Super) (k : Kept) → Shows (D.state main.old).holds device → Walking arena device image s k (tops folder.now) walk.old → OnOk result (Grows walk.old.folders.items walk.new.folders.items) }
{
    let Some(records) = folder.records else {
        return Ok(());
    };
    let top = Step::top(&records, Holds::Records, folder.holder);
    if walk.steps.push(top).is_err() {
        return Err(TreeError::Memory);
    }
    follow_all(alloc, main, walk, folder.depth, false)?;
    let repeated = same_name(&mut walk.named);
    let named_twice = leaf_unless(records.dir, repeated);
    walk.note_leaf(5, named_twice);
    let twice = same_pair(&mut walk.named);
    if !folder.named {
        return Ok(());
    }
    walk.note_leaf(6, twice);
    match add_numbers(&walk.named, numbers) {
        Ok(()) => Ok(()),
        Err(_) => Err(TreeError::Memory),
    }
}

/// Walks a directory: its records, and then its entries with what hangs from them.
pub(crate) fn walk_folder<D: Reads>(
    alloc: Global,
    main: &mut D,
    walk: &mut Walk,
    numbers: &mut Vec<Number>,
    folder: &Folder,
) -> Result<(), TreeError>
    requires size { D.size main.old ≡ walk.old.blocks }
    ensures walks { (arena : Arena) (device : List Block) (image : Image) (s : Super) (k : Kept) → Shows (D.state main.old).holds device → Walking arena device image s k (tops folder.now) walk.old
        → MatchResult result (λ _. Walking arena device image s k [] walk.new) (RefusesTree arena device image k) }
    ensures names { (arena : Arena) (device : List Block) (image : Image) (s : Super) (k : Kept) (meta : Link) → Shows (D.state main.old).holds device → Walking arena device image s k (tops folder.now) walk.old → IsMetaOf folder.now meta
        → walk.old.steps.items ≡ [] → OnOk result (5 < level walk.new.noted → HasOwnNames arena image k meta) }
    ensures dirs { (arena : Arena) (device : List Block) (image : Image) (s : Super) (k : Kept) (others : List Folder) → Shows (D.state main.old).holds device → Walking arena device image s k (tops folder.now) walk.old → AreJudged arena image k others walk.old
        → OnOk result (AreJudged arena image k others walk.new) }
    ensures formed { (arena : Arena) (device : List Block) (image : Image) (s : Super) (k : Kept) (others : List Folder) → Shows (D.state main.old).holds device → Walking arena device image s k (tops folder.now) walk.old
        → AreFormed arena image k walk.old.labels.known.items walk.old.noted walk.old.steps.items (folder.now ∷ others ++ walk.old.folders.items)
        → OnOk result (AreFormed arena image k walk.new.labels.known.items walk.new.noted walk.new.steps.items (others ++ walk.new.folders.items)) }
    ensures done { OnOk result (walk.new.steps.items ≡ []) }
    ensures blocks { OnOk result (walk.new.blocks ≡ walk.old.blocks) }
    ensures budget { OnOk result (205 * walk.new.labels.left + length walk.new.folders.items ≤ 205 * walk.old.labels.left + length walk.old.folders.items) }
    ensures level { OnOk result (level walk.new.noted ≤ level walk.old.noted) }
    ensures size { D.size main.new ≡ D.size main.old }
    ensures kept { D.state main.new ≡ D.state main.old }
    ensures reads { Spends (D.calls main.old) (D.calls main.new) walk.old.labels walk.new.labels result }
    ensures once { SpendsAt (D.reads main.old) (D.reads main.new) (left_at D.watched walk.old.labels.known.items) (left_at D.watched walk.new.labels.known.items) result }
    ensures cause { HasCauses (D.faults main.old) (D.faults main.new) result }
    ensures pairs { (arena : Arena) (device : List Block) (image : Image) (s : Super) (k : Kept) → Shows (D.state main.old).holds device → Walking arena device image s k (tops folder.now) walk.old → walk.old.steps.items ≡ [] → folder.now.named ≡ true
        → OnOk result (Settles arena image k folder.now walk.new.noted walk.new.folders.items numbers.old.items numbers.new.items) }
    ensures rules { OnOk result (KeepsRules walk.old.noted walk.new.noted) }
    ensures uncounted { folder.now.named ≡ false → OnOk result (numbers.new.items ≡ numbers.old.items) }
    ensures grounds { (arena : Arena) (device : List Block) (image : Image) (s : Super) (k : Kept) → Shows (D.state main.old).holds device → Walking arena device image s k (tops folder.now) walk.old → walk.old.steps.items ≡ [] → HasRecordsOf arena image k folder.now
        → HasGrounds arena image k walk.old.noted walk.old.steps.items walk.old.folders.items → OnOk result (HasGrounds arena image k walk.new.noted walk.new.steps.items walk.new.folders.items) }
    ensures grows { (arena : Arena) (device : List Block) (image : Image) (s : Super) (k : Kept) → Shows (D.state main.old).holds device → Walking arena device image s k (tops folder.now) walk.old → OnOk result (Grows walk.old.folders.items walk.new.folders.items) }
    ensures eight { (arena : Arena) (device : List Block) (image : Image) (s : Super) (k : Kept) (limit : ℕ) → Shows (D.state main.old).holds device → Walking arena device image s k (tops folder.now) walk.old → walk.old.steps.items ≡ [] → (8 < level walk.old.noted → IsSourceIn arena image k folder.now)
        → HasSources arena image k limit walk.old.noted walk.old.folders.items → OnOk result (HasSources arena image k limit walk.new.noted walk.new.folders.items) }
    ensures counts { (arena : Arena) (device : List Block) (image : Image) (s : Super) (k : Kept) → Shows (D.state main.old).holds device → Walking arena device image s k (tops folder.now) walk.old → walk.old.steps.items ≡ [] → (6 < level walk.old.noted → folder.now.named ≡ true → IsOfDir arena image k folder.now)
        → (6 < level walk.old.noted → AreNumbers arena image k walk.old.labels.known.items numbers.old.items) → OnOk result (6 < level walk.new.noted → AreNumbers arena image k walk.new.labels.known.items numbers.new.items) }
    ensures heads { (arena : Arena) (device : List Block) (image : Image) (s : Super) (k : Kept) → Shows (D.state main.old).holds device → Walking arena device image s k (tops folder.now) walk.old → walk.old.steps.items ≡ [] → (6 < level walk.old.noted → folder.now.named ≡ true → IsOfDir arena image k folder.now)
        → HasHeads arena image k walk.old.noted walk.old.folders.items → OnOk result (HasHeads arena image k walk.new.noted walk.new.folders.items) }
    ensures spread { (arena : Arena) (device : List Block) (image : Image) (s : Super) (k : Kept) (deep : ℕ) (w : Link) → Shows (D.state main.old).holds device → Walking arena device image s k (tops folder.now) walk.old → walk.old.steps.items ≡ [] → IsSourceOf deep w folder.now
        → OnOk result (8 < level walk.new.noted → IsTree arena image k.at → (j : ℕ) → IsEntries (entry_at arena image w j).slot → SomeOf (IsSourceOf (suc deep) (entry_at arena image w j)) walk.new.folders.items) }
{
    walk.named = Vec::new(alloc);
    list(alloc, main, walk, numbers, folder)?;
    let holds = holds_in(&folder.entries);
    let top = Step::top(&folder.entries, holds, folder.holder);
    if walk.steps.push(top).is_err() {
        return Err(TreeError::Memory);
    }
    follow_all(alloc, main, walk, folder.depth, folder.named)?;
    if !folder.named {
        return Ok(());
    }
    let alone = without_pair(&walk.named, folder.entries.size);
    walk.note_leaf(6, alone);
    Ok(())
}
