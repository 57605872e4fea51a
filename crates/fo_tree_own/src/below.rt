//! The block below a slot is made current.
ghost use Rattle.std.specs.Prelude.{◌≡◌, ◌≢◌, ◌⊎◌, ◌+◌, ◌*◌, ◌/◌, ◌%◌, ◌^◌, ◌<◌, ◌≤◌, ℕ, suc, true, false};
ghost use Rattle.fo_image.specs.declared.types.Pointer.TheVariants.{Nil, Local};
ghost use Rattle.fo_crash.specs.Images.{SameContent, target};
ghost use Rattle.fo_tree_look.specs.of_ports.Blocks.{blank};
ghost use Rattle.fo_tree_look.specs.of_tree_read.Tree.{kind_at};
ghost use Rattle.fo_tree_look.specs.Source.{IsPrepared, IsTold};
ghost use Rattle.fo_tree_own.specs.Step.{IsOwn, Links};

use fo_crash::Slot;
use fo_image::{Kind, Pointer};
use fo_tree_look::{Blocks, Tree};

/// How many pointers a block has.
pub(crate) const SLOTS: u64 = 409;

/// Copies the older block `k` of a level, and leads the slot above to the copy.
fn copy_below<B: Blocks>(tree: &Tree, on: &mut B, above: u32, level: u8, k: u64, below: u32) -> u32
    requires above { IsOwn (B.state on.old) tree.now (suc level) (k / 409) above }
    requires leads { target (((B.state on.old).now above).slot (k % 409)) ≡ Local below }
    requires below { IsPrepared (B.state on.old) (kind_at tree.now.dir level) tree.now.tag below }
    requires older { ((B.state on.old).label below).epoch < (B.state on.old).high }
    requires told { (B.state on.old).tells → IsTold (B.state on.old) tree.now.top below }
    requires spare { 0 < (B.state on.old).spare }
    ensures links { Links tree.now level (k / 409) above (k % 409) (Local below) result (B.state on.old) (B.state on.new) }
    ensures content { SameContent ((B.state on.new).now result) ((B.state on.old).now below) }
    ensures keeps { B.keeps on.old on.new }
{
    let copy = on.copy(below);
    on.put_slot(
        above,
        (k % SLOTS) as u32,
        Slot::Pointer(Pointer::Local(copy)),
    );
    copy
}

/// Makes block `k` of a level current, which stands on the device: it is the block itself where that is of the active epoch, and else a
/// copy, to which the slot above is led.
pub fn own_below<B: Blocks>(
    tree: &Tree,
    on: &mut B,
    above: u32,
    level: u8,
    k: u64,
    below: u32,
) -> u32
    requires above { IsOwn (B.state on.old) tree.now (suc level) (k / 409) above }
    requires leads { target (((B.state on.old).now above).slot (k % 409)) ≡ Local below }
    requires below { IsPrepared (B.state on.old) (kind_at tree.now.dir level) tree.now.tag below }
    requires told { (B.state on.old).tells → IsTold (B.state on.old) tree.now.top below }
    requires spare { (((B.state on.old).label below).epoch ≡ (B.state on.old).high) ⊎ (0 < (B.state on.old).spare) }
    ensures step { ((result ≡ below) × (on.new ≡ on.old) × IsOwn (B.state on.old) tree.now level (409 * (k / 409) + k % 409) below) ⊎ Links tree.now level (k / 409) above (k % 409) (Local below) result (B.state on.old) (B.state on.new) }
    ensures content { SameContent ((B.state on.new).now result) ((B.state on.old).now below) }
    ensures keeps { B.keeps on.old on.new }
{
    if is_current(on, below) {
        below
    } else {
        copy_below(tree, on, above, level, k, below)
    }
}

/// Whether a block is of the current epoch.
pub fn is_current<B: Blocks>(on: &B, at: u32) -> bool
    requires block { (B.state on.now).is_block at }
    requires up_to { ((B.state on.now).label at).epoch ≤ (B.state on.now).high }
    ensures yes { result ≡ true → ((B.state on.now).label at).epoch ≡ (B.state on.now).high }
    ensures older { result ≡ false → ((B.state on.now).label at).epoch < (B.state on.now).high }
{
    on.label(at).epoch == on.high()
}

/// Makes block `k` of a level, where there is none, as one of zeros, and leads the slot above to it.
pub fn new_below<B: Blocks>(tree: &Tree, on: &mut B, above: u32, level: u8, k: u64) -> u32
    requires above { IsOwn (B.state on.old) tree.now (suc level) (k / 409) above }
    requires leads { target (((B.state on.old).now above).slot (k % 409)) ≡ Nil }
    requires level { level < 4 }
    requires low { tree.now.rank < 2 ^ 31 }
    requires spare { 0 < (B.state on.old).spare }
    ensures links { Links tree.now level (k / 409) above (k % 409) Nil result (B.state on.old) (B.state on.new) }
    ensures content { SameContent ((B.state on.new).now result) (blank (kind_at tree.now.dir level)) }
    ensures keeps { B.keeps on.old on.new }
{
    let kind = kind_at(tree.dir, level);
    let made = on.new_block(kind, tree.tag, tree.rank + level as u32);
    on.put_slot(
        above,
        (k % SLOTS) as u32,
        Slot::Pointer(Pointer::Local(made)),
    );
    made
}

/// The kind of a block of a source at this level.
pub fn kind_at(dir: bool, level: u8) -> Kind
    ensures { result ≡ kind_at dir level }
{
    if dir {
        Kind::Dir(level)
    } else {
        Kind::Data(level)
    }
}
