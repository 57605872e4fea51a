//! A look at a leaf of entries.
ghost use Rattle.std.specs.Prelude.{◌≡◌, ◌+◌, ◌≤◌, ℕ, length, IfOk, IfErr, MatchOption};
ghost use Rattle.fo_image.specs.declared.types.Kind.TheVariants.{Dir};
ghost use Rattle.fo_image.specs.declared.types.Pointer.TheVariants.{Local};
ghost use Rattle.fo_ports.specs.State.{Looks};
ghost use Rattle.fo_tree_read.specs.Tree.{StandsAs, Failed};
ghost use Rattle.fo_arch_walk.specs.Entries.{IsEntriesForm, NamesTop};

use fo_arch_form::{Missing, Stored, form_entries};
use fo_image::Kind;
use fo_ports::{BlockError, Blocks};

/// Makes the form of a leaf of entries. Where the top of one isn't stored, that entry is answered, and the bytes are of no use.
pub fn look_entries<B: Blocks>(
    on: &mut B,
    done: &Stored,
    at: u32,
    rank: u32,
    block: &mut [u8],
) -> Result<Option<Missing>, BlockError>
    requires block { (B.state on.old).is_block at }
    requires told { (B.state on.old).tells → StandsAs (B.state on.old) (Dir 0) rank at }
    requires length { length block.old ≡ 8192 }
    ensures form { IfOk result (λ missing. MatchOption missing (IsEntriesForm done.now ((B.state on.new).now at) block.new) (NamesTop done.now ((B.state on.new).now at))) }
    ensures block { IfOk result (λ missing. MatchOption missing (Unit {0}) (λ m. (b : ℕ) → m.entry.top ≡ Local b → (B.state on.new).is_block b)) }
    ensures pins { (B.state on.old).pins_left ≤ (B.state on.new).pins_left + 1 }
    ensures looks { Looks (B.state on.old) (B.state on.new) }
    ensures keeps { B.keeps on.old on.new }
    ensures cause { IfErr result (Failed (B.state on.old) (B.state on.new)) }
{
    on.get(at, Kind::Dir(0), rank, block)?;
    match form_entries(done, block) {
        Ok(()) => Ok(None),
        Err(missing) => Ok(Some(missing)),
    }
}
