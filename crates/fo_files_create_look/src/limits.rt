//! Whether a file may be made in a directory.
ghost use Rattle.std.specs.Prelude.{◌≡◌, ◌⊎◌, ◌*◌, ◌^◌, ◌<◌, ◌≤◌, ℕ, Bool, true, false, List, length, IfOk, IfErr, OnOk, MatchResult};
ghost use Rattle.fo_base.specs.Cause.{Rose};
ghost use Rattle.fo_image.specs.declared.record.Record.{Record};
ghost use Rattle.fo_image.specs.Record.{RecordHolds};
ghost use Rattle.fo_ports.specs.Causes.{Caused};
ghost use Rattle.fo_ports.specs.State.{Looks};
ghost use Rattle.fo_world.specs.Answers.{Refuses};
ghost use Rattle.fo_world.specs.Step.{is_active};
ghost use Rattle.fo_files_along.specs.of_files_at.Held.{FileHolds};
ghost use Rattle.fo_files_along.specs.of_files_look.Told.{faults_of};
ghost use Rattle.fo_files_create_look.specs.Refused.{IsAt, IsLimit, IsRefused, MayMake};

use fo_dir_read::lookup;
use fo_files_along::files_at::{File, RECORDS_BELOW, records_of};
use fo_files_along::files_look::file_error;
use fo_files_spot::is_full;
use fo_image::Record;
use fo_ports::{BlockError, Blocks};
use fo_world::{DMDIR, FileError, MOST_ABOVE, Place, View};
use std::alloc::Global;

/// Whether a view is that of the active tree.
fn is_of_active(view: View) -> bool
    ensures { result ≡ is_active view }
{
    matches!(view, View::Active)
}

/// What limits say of a file with this mode, in a directory of the active tree at a place.
fn within_limits(at: &Place, mode: u32, halted: bool) -> Result<(), FileError>
    requires active { is_active at.now.view ≡ true }
    ensures { MatchResult result (λ u. MayMake at.now mode halted) (λ e. IsLimit at.now mode halted e) }
{
    if halted {
        return Err(FileError::Halted);
    }
    if DMDIR <= mode && MOST_ABOVE <= at.trail.as_slice().len() {
        return Err(FileError::TooDeep);
    }
    Ok(())
}

/// Whether a directory has a file of this name.
fn bears<B: Blocks>(alloc: Global, on: &mut B, dir: &File, name: &[u8]) -> Result<bool, BlockError>
    requires silent { (B.state on.old).tells → ⊥ }
    requires holds { FileHolds (B.state on.old) dir.now }
    requires high { 40 ≤ dir.now.rank }
    ensures bears { IfOk result (λ bears. bears ≡ true → (r : Record) × RecordHolds r × (r.name ≡ name.now)) }
    ensures looks { Looks (B.state on.old) (B.state on.new) × B.keeps on.old on.new }
    ensures cause { IfErr result (Caused ⊥ (λ b. (B.state on.old).is_block b) (Rose (B.state on.old).faults (B.state on.new).faults) ⊥) }
{
    let mut records = match records_of(alloc, on, dir) {
        Ok(records) => records,
        Err(why) => return Err(why),
    };
    match lookup(alloc, &mut records, on, dir.rank - RECORDS_BELOW, name) {
        Ok(Some(_)) => Ok(true),
        Ok(None) => Ok(false),
        Err(why) => Err(why),
    }
}

/// Whether a name is free in a directory of the active tree.
fn is_free<B: Blocks>(
    alloc: Global,
    on: &mut B,
    root: u32,
    at: &Place,
    dir: &File,
    name: &[u8],
) -> Result<(), FileError>
    requires silent { (B.state on.old).tells → ⊥ }
    requires dir { IsAt (B.state on.old) root at.now.trail true dir.now }
    requires holds { FileHolds (B.state on.old) dir.now }
    requires high { 40 ≤ dir.now.rank }
    ensures active { OnOk result (is_active at.now.view ≡ true) }
    ensures refused { IfErr result (λ e. (mode : ℕ) (halted : Bool) → IsRefused B.state root at.now name.now mode halted ⊥ ⊥ e) }
    ensures looks { Looks (B.state on.old) (B.state on.new) × B.keeps on.old on.new }
    ensures cause { Refuses (faults_of (B.state on.old)) (faults_of (B.state on.new)) ⊥ (λ n. ⊥) 0 result }
{
    let _ = root;
    if !is_of_active(at.view) {
        return Err(FileError::ReadOnly);
    }
    match bears(alloc, on, dir, name) {
        Ok(true) => Err(FileError::Exists),
        Ok(false) => Ok(()),
        Err(why) => Err(file_error(why)),
    }
}

/// Whether a directory takes one more name.
fn takes_more<B: Blocks>(
    alloc: Global,
    on: &mut B,
    root: u32,
    at: &Place,
    dir: &File,
) -> Result<(), FileError>
    requires silent { (B.state on.old).tells → ⊥ }
    requires dir { IsAt (B.state on.old) root at.now.trail true dir.now }
    requires holds { FileHolds (B.state on.old) dir.now }
    requires high { 40 ≤ dir.now.rank }
    ensures refused { IfErr result (λ e. (name : List ℕ) (mode : ℕ) (halted : Bool) → MayMake at.now mode halted → IsRefused B.state root at.now name mode halted ⊥ ⊥ e) }
    ensures looks { Looks (B.state on.old) (B.state on.new) × B.keeps on.old on.new }
    ensures cause { Refuses (faults_of (B.state on.old)) (faults_of (B.state on.new)) ⊥ (λ n. ⊥) 0 result }
{
    let _ = root;
    let _ = at;
    match is_full(alloc, on, dir) {
        Ok(true) => Err(FileError::DirFull),
        Ok(false) => Ok(()),
        Err(why) => Err(file_error(why)),
    }
}

/// Whether a file with this record may be made in the directory at a place.
pub(crate) fn may_make<B: Blocks>(
    alloc: Global,
    on: &mut B,
    root: u32,
    at: &Place,
    dir: &File,
    named: &Record,
    halted: bool,
) -> Result<(), FileError>
    requires silent { (B.state on.old).tells → ⊥ }
    requires dir { IsAt (B.state on.old) root at.now.trail true dir.now }
    requires holds { FileHolds (B.state on.old) dir.now }
    requires high { 40 ≤ dir.now.rank }
    ensures may { OnOk result (MayMake at.now named.now.mode halted) }
    ensures refused { IfErr result (IsRefused B.state root at.now named.now.name named.now.mode halted ⊥ ⊥) }
    ensures looks { Looks (B.state on.old) (B.state on.new) × B.keeps on.old on.new }
    ensures cause { Refuses (faults_of (B.state on.old)) (faults_of (B.state on.new)) ⊥ (λ n. ⊥) 0 result }
{
    match is_free(alloc, on, root, at, dir, named.name.as_slice()) {
        Ok(()) => {}
        Err(why) => return Err(why),
    }
    match within_limits(at, named.mode, halted) {
        Ok(()) => {}
        Err(why) => return Err(why),
    }
    match takes_more(alloc, on, root, at, dir) {
        Ok(()) => Ok(()),
        Err(why) => Err(why),
    }
}
