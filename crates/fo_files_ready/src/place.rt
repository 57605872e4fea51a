//! Whether a leaf of records has a place for a record.
ghost use Rattle.std.specs.Prelude.{◌≡◌, ◌⊎◌, ℕ, true, false, IfOk, IfErr, OnOk, IfSome};
ghost use Rattle.fo_base.specs.Cause.{Rose};
ghost use Rattle.fo_image.specs.Record.{RecordHolds};
ghost use Rattle.fo_meta.specs.Leaf.{IsLeaf};
ghost use Rattle.fo_ports.specs.Causes.{Caused};
ghost use Rattle.fo_ports.specs.State.{Looks};
ghost use Rattle.fo_files_move.specs.of_dir_change.Changes.{Bears, BearsNot, IsTooLong};
ghost use Rattle.fo_files_dir.specs.Dir.{IsDirAt};
ghost use Rattle.fo_files_move.specs.of_files_record.Leaf.{IsRecordsAt};
ghost use Rattle.fo_files_ready.specs.Ready.{HasPlace, HasRoom, IsLeafOf, IsReadyFor};

use crate::leaf::RECORDS_BELOW;
use fo_base::BLOCK;
use fo_files_dir::DirAt;
use fo_files_move::read;
use fo_image::Record;
use fo_meta::{remove, replace};
use fo_ports::{BlockError, Blocks};

/// Whether a leaf has a record of this name.
fn bears(leaf: &[u8], name: &[u8]) -> bool
    requires { IsLeaf leaf.now }
    ensures yes { result ≡ true → Bears name.now leaf.now }
    ensures no { result ≡ false → BearsNot name.now leaf.now }
{
    let mut rest = [0; BLOCK];
    rest.copy_from_slice(leaf);
    remove(&mut rest, name)
}

/// Whether a record fits into a leaf in the place of the first of this name.
fn fits(leaf: &[u8], name: &[u8], named: &Record) -> bool
    requires leaf { IsLeaf leaf.now }
    requires spelled { RecordHolds named.now }
    ensures yes { result ≡ true → IsTooLong name.now named.now leaf.now → ⊥ }
    ensures no { result ≡ false → IsTooLong name.now named.now leaf.now }
{
    let mut rest = [0; BLOCK];
    rest.copy_from_slice(leaf);
    match replace(&mut rest, name, named) {
        Ok(()) => true,
        Err(_) => false,
    }
}

/// Whether a record fits into a leaf in the place of the first of this name; None where it has no such record.
fn judged(leaf: &[u8], name: &[u8], named: &Record) -> Option<bool>
    requires leaf { IsLeaf leaf.now }
    requires spelled { RecordHolds named.now }
    ensures { IfSome result (λ yes. yes ≡ true → HasPlace name.now named.now leaf.now) }
{
    if bears(leaf, name) {
        Some(fits(leaf, name, named))
    } else {
        None
    }
}

/// Whether a leaf has no record of this name, and room for one.
fn takes(leaf: &[u8], name: &[u8], named: &Record) -> bool
    requires leaf { IsLeaf leaf.now }
    requires spelled { RecordHolds named.now }
    ensures { result ≡ true → HasRoom name.now named.now leaf.now }
{
    !bears(leaf, name) && fits(leaf, name, named)
}

/// Whether a record fits into a leaf of a directory's records that may be changed, in the place of the first of this name. A leaf without one is
/// damaged.
pub(crate) fn has_place<B: Blocks>(
    on: &mut B,
    dir: DirAt,
    leaf: u32,
    name: &[u8],
    named: &Record,
) -> Result<bool, BlockError>
    requires silent { (B.state on.old).tells → ⊥ }
    requires dir { IsDirAt (B.state on.old) dir }
    requires own { IsLeafOf dir (B.state on.old) leaf }
    requires leaf { IsRecordsAt (B.state on.old) leaf }
    requires spelled { RecordHolds named.now }
    ensures ready { IfOk result (λ yes. yes ≡ true → IsReadyFor (B.state on.new) dir leaf name.now named.now) }
    ensures bytes { OnOk result (IsLeaf (((B.state on.new).now leaf).bytes)) }
    ensures own { IsLeafOf dir (B.state on.new) leaf }
    ensures pins { (B.state on.new).pins_left ≡ (B.state on.old).pins_left }
    ensures looks { Looks (B.state on.old) (B.state on.new) }
    ensures cause { IfErr result (Caused ⊥ (B.state on.old).is_block (Rose (B.state on.old).faults (B.state on.new).faults) ⊥) }
    ensures keeps { B.keeps on.old on.new }
{
    let mut bytes = [0; BLOCK];
    match read(on, leaf, dir.rank - RECORDS_BELOW, &mut bytes) {
        Ok(()) => {}
        Err(why) => return Err(why),
    }
    match judged(&bytes, name, named) {
        Some(yes) => Ok(yes),
        None => Err(BlockError::Damaged(leaf)),
    }
}

/// Reads a leaf of a directory's records that may be changed, which is damaged where it has a record of this name, or no room for this one.
pub(crate) fn with_room<B: Blocks>(
    on: &mut B,
    dir: DirAt,
    leaf: u32,
    name: &[u8],
    named: &Record,
) -> Result<(), BlockError>
    requires silent { (B.state on.old).tells → ⊥ }
    requires dir { IsDirAt (B.state on.old) dir }
    requires leaf { IsRecordsAt (B.state on.old) leaf }
    requires spelled { RecordHolds named.now }
    ensures room { OnOk result (HasRoom name.now named.now (((B.state on.new).now leaf).bytes)) }
    ensures leaf { IsRecordsAt (B.state on.new) leaf }
    ensures pins { (B.state on.new).pins_left ≡ (B.state on.old).pins_left }
    ensures looks { Looks (B.state on.old) (B.state on.new) }
    ensures cause { IfErr result (Caused ⊥ (B.state on.old).is_block (Rose (B.state on.old).faults (B.state on.new).faults) ⊥) }
    ensures keeps { B.keeps on.old on.new }
{
    let mut bytes = [0; BLOCK];
    match read(on, leaf, dir.rank - RECORDS_BELOW, &mut bytes) {
        Ok(()) => {}
        Err(why) => return Err(why),
    }
    if takes(&bytes, name, named) {
        Ok(())
    } else {
        Err(BlockError::Damaged(leaf))
    }
}
