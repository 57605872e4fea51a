//! A look at a leaf of data.
ghost use Rattle.std.specs.Prelude.{◌≡◌, ◌+◌, ◌≤◌, length, OnOk, IfErr};
ghost use Rattle.fo_image.specs.declared.types.Kind.TheVariants.{Data};
ghost use Rattle.fo_ports.specs.State.{Looks};
ghost use Rattle.fo_tree_read.specs.Tree.{StandsAs, Failed};
ghost use Rattle.fo_arch_walk.specs.Forms.{IsSame};

use fo_image::Kind;
use fo_ports::{BlockError, Blocks};

/// Gets a leaf of data, which is its own form.
pub fn look_data<B: Blocks>(
    on: &mut B,
    at: u32,
    rank: u32,
    block: &mut [u8],
) -> Result<(), BlockError>
    requires block { (B.state on.old).is_block at }
    requires told { (B.state on.old).tells → StandsAs (B.state on.old) (Data 0) rank at }
    requires length { length block.old ≡ 8192 }
    ensures form { OnOk result (IsSame ((B.state on.new).now at) block.new) }
    ensures pins { (B.state on.old).pins_left ≤ (B.state on.new).pins_left + 1 }
    ensures looks { Looks (B.state on.old) (B.state on.new) }
    ensures keeps { B.keeps on.old on.new }
    ensures cause { IfErr result (Failed (B.state on.old) (B.state on.new)) }
{
    on.get(at, Kind::Data(0), rank, block)
}
