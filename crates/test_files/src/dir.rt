//! A directory without files, over any blocks that tell nothing.
ghost use Rattle.std.specs.Prelude.{◌≡◌, ◌+◌, ◌≤◌, ℕ, IfSome};
ghost use Rattle.fo_image.specs.declared.types.State.TheVariants.{Live};
ghost use Rattle.fo_dir_put.specs.Puts.{IsOwnedEntries, IsNewEntry};
ghost use Rattle.fo_files_dir.specs.Dir.{IsDirAt};

use fo_dir_put::{is_free, put_pair};
use fo_files_dir::DirAt;
use fo_image::{Entry, Kind, Pointer};
use fo_ports::Blocks;

/// A new leaf of entries.
fn new_entries<B: Blocks>(on: &mut B) -> u32
    requires spare { 1 ≤ (B.state on.old).spare }
    requires untold { (b : B) → (B.state b).tells → ⊥ }
    ensures owned { IsOwnedEntries (B.state on.new) result }
    ensures block { (B.state on.new).is_block result × (((B.state on.new).label result).state ≡ Live) }
    ensures left { ((B.state on.new).spare + 1 ≡ (B.state on.old).spare) × ((B.state on.new).room ≡ (B.state on.old).room) × ((B.state on.new).pins_left ≡ (B.state on.old).pins_left) }
{
    on.new_block(Kind::Dir(0), 32, 2088)
}

/// The entry of a new source of directory 5.
fn entry(dir: bool, tag: u32) -> Entry
    ensures { IsNewEntry result }
{
    Entry {
        generation: 0,
        active: true,
        dir,
        depth: 0,
        tag,
        size: 0,
        top: Pointer::Nil,
    }
}

/// Directory 5, without files, whose entries are the first pair of a new leaf.
pub fn new_dir<B: Blocks>(on: &mut B) -> Option<DirAt>
    requires spare { 1 ≤ (B.state on.old).spare }
    requires untold { (b : B) → (B.state b).tells → ⊥ }
    ensures dir { IfSome result (IsDirAt (B.state on.new)) }
    ensures rank { IfSome result (λ d. d.rank ≡ 2088) }
    ensures left { ((B.state on.old).spare ≤ (B.state on.new).spare + 1) × ((B.state on.new).room ≡ (B.state on.old).room) × ((B.state on.new).pins_left ≡ (B.state on.old).pins_left) }
{
    let at = new_entries(on);
    if !is_free(on, at, 0) {
        return None;
    }
    put_pair(on, at, 0, entry(true, 42), entry(false, 43));
    Some(DirAt {
        at,
        slot: 0,
        number: 5,
        rank: 2088,
    })
}
