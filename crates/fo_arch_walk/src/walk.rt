//! The walk from the root block down.
ghost use Rattle.std.specs.Prelude.{◌≡◌, ℕ, length, None, IfOk, IfErr};
ghost use Rattle.fo_ports.specs.State.{Looks};
ghost use Rattle.fo_tree_read.specs.Tree.{Failed};
ghost use Rattle.fo_arch_form.specs.Stored.{found};
ghost use Rattle.fo_arch_walk.specs.Spots.{IsSnapshot, IsNext};

use crate::looks::look;
use crate::spot::Spot;
use fo_arch_form::Stored;
use fo_image::Kind;
use fo_ports::{BlockError, Blocks};

/// The block that is stored next below a root block that isn't stored, and its form: all that it names is stored. The second block is
/// the one above it, from which the walk came.
pub fn next_block<B: Blocks>(
    on: &mut B,
    done: &Stored,
    root: u32,
    form: &mut [u8],
) -> Result<(Spot, Spot), BlockError>
    requires block { (B.state on.old).is_block root }
    requires told { (B.state on.old).tells → IsSnapshot (B.state on.old) root }
    requires open { found done.now root 17 ≡ None }
    requires length { length form.old ≡ 8192 }
    ensures next { IfOk result (λ r. IsNext done.now (B.state on.new) root form.new r.0 r.1) }
    ensures looks { Looks (B.state on.old) (B.state on.new) }
    ensures keeps { B.keeps on.old on.new }
    ensures cause { IfErr result (Failed (B.state on.old) (B.state on.new)) }
{
    let mut above = Spot {
        at: root,
        kind: Kind::Root,
        rank: 2144,
    };
    let mut spot = above;
    while let Some(next) = look(on, done, spot, form)? {
        above = spot;
        spot = next;
    }
    Ok((spot, above))
}
