//! The label table of a device that is formatted: the label of the root block, and zeros for all free blocks.
ghost use Rattle.std.specs.Prelude.{◌≡◌, ◌^◌, ◌<◌, ◌≤◌, List, length, OnOk, IfErr};
ghost use Rattle.fo_base.specs.Cause.{HasCause};
ghost use Rattle.fo_disk.specs.Disk.{latest, IsSure};
ghost use Rattle.fo_disk.specs.declared.disk.DiskFault.TheVariants.{Write};
ghost use Rattle.fo_image.specs.Place.{first_data};
ghost use Rattle.fo_format.specs.Labels.{IsLabelBlock, HasLabelBlocks};

use crate::calls::write;
use fo_disk::{BLOCK, Disk, DiskFault};
use fo_image::{first_data, label_place, write_label};
use fo_sound::fresh_label;

/// Fills the block with what this block of the label table holds.
fn fill_labels(blocks: u32, at: u32, block: &mut [u8])
    requires most { blocks ≤ 2 ^ 20 }
    requires length { length block.old ≡ 8192 }
    ensures { IsLabelBlock blocks at block.new }
{
    block.fill(0);
    let (root_at, from) = label_place(first_data(blocks));
    if at == root_at {
        write_label(&fresh_label(blocks), &mut block[from..from + 14]);
    }
}

/// Writes the label table of a device of so many blocks.
pub(crate) fn write_labels<D: Disk>(main: &mut D, blocks: u32) -> Result<(), DiskFault>
    requires size { D.size main.old ≡ blocks }
    requires least { 64 ≤ blocks }
    requires most { blocks ≤ 2 ^ 20 }
    ensures size { D.size main.new ≡ D.size main.old }
    ensures labels { OnOk result (HasLabelBlocks blocks (first_data blocks) (latest (D.state main.old).holds) (latest (D.state main.new).holds)) }
    ensures sure { OnOk result (IsSure (D.state main.old) → IsSure (D.state main.new)) }
    ensures cause { HasCause (D.faults main.old) (D.faults main.new) result }
    ensures fault { IfErr result (λ e. e ≡ Write) }
{
    let mut block = [0; BLOCK];
    for at in 2..first_data(blocks) {
        fill_labels(blocks, at, &mut block);
        write(main, at, &block)?;
    }
    Ok(())
}
