//! A look at a root block.
ghost use Rattle.std.specs.Prelude.{◌≡◌, ◌+◌, ◌≤◌, ℕ, length, IfOk, IfErr, MatchOption};
ghost use Rattle.fo_image.specs.declared.types.Kind.TheVariants.{Root};
ghost use Rattle.fo_image.specs.declared.types.Pointer.TheVariants.{Local};
ghost use Rattle.fo_ports.specs.State.{Looks};
ghost use Rattle.fo_tree_read.specs.Tree.{StandsAs, Failed};
ghost use Rattle.fo_arch_walk.specs.Entries.{NamesTop};
ghost use Rattle.fo_arch_walk.specs.Forms.{IsTopForm};

use fo_arch_form::{Missing, Stored, form_root};
use fo_base::BLOCK;
use fo_image::Kind;
use fo_ports::{BlockError, Blocks};

/// Makes the top block of a root block. Where the top of one of its entries isn't stored, that entry is answered.
pub fn look_root<B: Blocks>(
    on: &mut B,
    done: &Stored,
    at: u32,
    rank: u32,
    form: &mut [u8],
) -> Result<Option<Missing>, BlockError>
    requires block { (B.state on.old).is_block at }
    requires told { (B.state on.old).tells → StandsAs (B.state on.old) Root rank at }
    requires length { length form.old ≡ 8192 }
    ensures form { IfOk result (λ missing. MatchOption missing (IsTopForm done.now ((B.state on.new).now at) form.new) (NamesTop done.now ((B.state on.new).now at))) }
    ensures block { IfOk result (λ missing. MatchOption missing (Unit {0}) (λ m. (b : ℕ) → m.entry.top ≡ Local b → (B.state on.new).is_block b)) }
    ensures pins { (B.state on.old).pins_left ≤ (B.state on.new).pins_left + 1 }
    ensures looks { Looks (B.state on.old) (B.state on.new) }
    ensures keeps { B.keeps on.old on.new }
    ensures cause { IfErr result (Failed (B.state on.old) (B.state on.new)) }
{
    let mut block = [0; BLOCK];
    on.get(at, Kind::Root, rank, &mut block)?;
    match form_root(done, &block, form) {
        Ok(()) => Ok(None),
        Err(missing) => Ok(Some(missing)),
    }
}
