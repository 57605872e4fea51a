//! A look at a block of pointers.
ghost use Rattle.std.specs.Prelude.{◌≡◌, ◌-◌, ◌+◌, ◌≤◌, length, IfOk, IfErr, MatchOption};
ghost use Rattle.fo_image.specs.declared.types.Kind.{Kind};
ghost use Rattle.fo_image.specs.Format.{KindHolds, kind_code};
ghost use Rattle.fo_ports.specs.Blocks.{IsInner};
ghost use Rattle.fo_ports.specs.State.{Looks};
ghost use Rattle.fo_tree_read.specs.Tree.{StandsAs, Failed};
ghost use Rattle.fo_arch_walk.specs.Pointers.{IsPointersForm, NamesMissing};

use fo_arch_form::{Stored, form_pointers};
use fo_image::Kind;
use fo_ports::{BlockError, Blocks};

/// The kind in the arena of the blocks below a block of pointers.
fn code_below(kind: Kind) -> u8
    requires inner { IsInner kind }
    requires holds { KindHolds kind }
    ensures { result ≡ kind_code kind - 1 }
{
    match kind {
        Kind::Data(level) => level - 1,
        Kind::Dir(level) => 7 + level,
        Kind::Root => 15,
    }
}

/// Makes the form of a block of pointers. Where one of the blocks below it isn't stored, that is answered, and the bytes are of no use.
pub fn look_pointers<B: Blocks>(
    on: &mut B,
    done: &Stored,
    at: u32,
    kind: Kind,
    rank: u32,
    block: &mut [u8],
) -> Result<Option<u32>, BlockError>
    requires block { (B.state on.old).is_block at }
    requires inner { IsInner kind }
    requires holds { KindHolds kind }
    requires told { (B.state on.old).tells → StandsAs (B.state on.old) kind rank at }
    requires length { length block.old ≡ 8192 }
    ensures form { IfOk result (λ missing. MatchOption missing (IsPointersForm done.now kind ((B.state on.new).now at) block.new) (NamesMissing done.now kind ((B.state on.new).now at))) }
    ensures block { IfOk result (λ missing. MatchOption missing (Unit {0}) (B.state on.new).is_block) }
    ensures pins { (B.state on.old).pins_left ≤ (B.state on.new).pins_left + 1 }
    ensures looks { Looks (B.state on.old) (B.state on.new) }
    ensures keeps { B.keeps on.old on.new }
    ensures cause { IfErr result (Failed (B.state on.old) (B.state on.new)) }
{
    on.get(at, kind, rank, block)?;
    match form_pointers(done, code_below(kind), block) {
        Ok(()) => Ok(None),
        Err(below) => Ok(Some(below)),
    }
}
