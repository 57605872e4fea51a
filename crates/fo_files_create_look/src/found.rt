//! What a new file needs is found.
ghost use Rattle.std.specs.Prelude.{◌≡◌, ◌*◌, ◌≤◌, ℕ, List, Bool, true, length, IfOk, IfErr, OnOk};
ghost use Rattle.fo_image.specs.Record.{RecordHolds, RootRecordHolds};
ghost use Rattle.fo_ports.specs.State.{Looks};
ghost use Rattle.fo_world.specs.declared.error.FileError.TheVariants.{Memory};
ghost use Rattle.fo_world.specs.Answers.{Refuses};
ghost use Rattle.fo_world.specs.Limits.{IsName, IsUser};
ghost use Rattle.fo_dir_read.specs.Names.{leaf_count};
ghost use Rattle.fo_files_along.specs.of_files_at.Way.{IsWay};
ghost use Rattle.fo_files_along.specs.of_files_look.Told.{faults_of, MayLook};
ghost use Rattle.fo_files_create_look.specs.Named as of;
ghost use Rattle.fo_files_create_look.specs.Found.{IsFound};
ghost use Rattle.fo_files_create_look.specs.Refused.{IsRefused, MayMake};

use crate::limits::may_make;
use crate::names::{new_record, renewed};
use crate::place::{Places, places_in, way_to_dir};
use fo_base::Bytes;
use fo_files_along::files_at::{Way, way_ends};
use fo_files_along::files_look::file_error;
use fo_files_spot::Spot;
use fo_image::Record;
use fo_ports::Blocks;
use fo_world::{FileError, Place};
use std::alloc::Global;

/// What was found for a new file: the way to the directory that gets it, whose record is the one that it has then, and the leaf to which that goes
/// where it outgrows its own; the new file's record, but for its number and its pair; and the pair and the leaf of records that it gets, with
/// whether its name stands alone there.
#[derive(Debug, Drop)]
pub struct Found {
    pub way: Way,
    pub spare: u32,
    pub named: Record,
    pub spot: Spot,
}

/// What was found, with the record that the directory has then. Refused: want of memory.
fn found_at<B: Blocks>(
    alloc: Global,
    on: &B,
    root: u32,
    at: &Place,
    way: Way,
    named: Record,
    places: Places,
) -> Result<Found, FileError>
    requires way { IsWay (B.state on.now) root at.now.trail way }
    requires dir { way.file.dir ≡ true }
    requires of_root { length at.now.trail ≡ 0 → RootRecordHolds way.file.named }
    requires named { RecordHolds named }
    requires pair { places.spot.pair ≤ 102 * leaf_count way.file.first.size }
    requires leaf { places.spot.leaf ≤ leaf_count way.file.second.size }
    ensures found { IfOk result (IsFound (B.state on.now) root at.now.trail named) }
    ensures memory { IfErr result (λ e. e ≡ Memory) }
{
    let _ = on;
    let _ = root;
    let _ = at;
    let Places { spot, spare } = places;
    match renewed(alloc, way, &named.muid, named.mtime) {
        Ok(way) => Ok(Found {
            way,
            spare,
            named,
            spot,
        }),
        Err(why) => Err(why),
    }
}

/// The same, where nothing but a place in the directory has to be found.
fn find_place<B: Blocks>(
    alloc: Global,
    on: &mut B,
    root: u32,
    at: &Place,
    way: Way,
    named: Record,
) -> Result<Found, FileError>
    requires silent { (B.state on.old).tells → ⊥ }
    requires way { IsWay (B.state on.old) root at.now.trail way }
    requires dir { way.file.dir ≡ true }
    requires of_root { length at.now.trail ≡ 0 → RootRecordHolds way.file.named }
    requires short { length at.now.trail ≤ 65 }
    requires named { RecordHolds named }
    ensures found { IfOk result (IsFound (B.state on.new) root at.now.trail named) }
    ensures refused { IfErr result (λ e. (name : List ℕ) (mode : ℕ) (halted : Bool) → IsRefused B.state root at.now name mode halted ⊥ ⊥ e) }
    ensures looks { Looks (B.state on.old) (B.state on.new) × B.keeps on.old on.new }
    ensures cause { Refuses (faults_of (B.state on.old)) (faults_of (B.state on.new)) ⊥ (λ n. ⊥) 0 result }
{
    way_ends(on, &way, root);
    match places_in(alloc, on, root, &way, &named) {
        Ok(places) => match found_at(alloc, on, root, at, way, named, places) {
            Ok(found) => Ok(found),
            Err(why) => Err(why),
        },
        Err(why) => Err(file_error(why)),
    }
}

/// What a new file with this record needs is found in the directory at the end of a way.
fn find_in<B: Blocks>(
    alloc: Global,
    on: &mut B,
    root: u32,
    at: &Place,
    way: Way,
    named: Record,
    halted: bool,
) -> Result<Found, FileError>
    requires silent { (B.state on.old).tells → ⊥ }
    requires way { IsWay (B.state on.old) root at.now.trail way }
    requires dir { way.file.dir ≡ true }
    requires of_root { length at.now.trail ≡ 0 → RootRecordHolds way.file.named }
    requires short { length at.now.trail ≤ 65 }
    requires named { RecordHolds named }
    ensures found { IfOk result (IsFound (B.state on.new) root at.now.trail named) }
    ensures may { OnOk result (MayMake at.now named.mode halted) }
    ensures refused { IfErr result (IsRefused B.state root at.now named.name named.mode halted ⊥ ⊥) }
    ensures looks { Looks (B.state on.old) (B.state on.new) × B.keeps on.old on.new }
    ensures cause { Refuses (faults_of (B.state on.old)) (faults_of (B.state on.new)) ⊥ (λ n. ⊥) 0 result }
{
    way_ends(on, &way, root);
    match may_make(alloc, on, root, at, &way.file, &named, halted) {
        Ok(()) => match find_place(alloc, on, root, at, way, named) {
            Ok(found) => Ok(found),
            Err(why) => Err(why),
        },
        Err(why) => Err(why),
    }
}

/// What a new file with this record needs is found in the directory at a place.
fn find_at<B: Blocks>(
    alloc: Global,
    on: &mut B,
    root: u32,
    at: &Place,
    named: Record,
    halted: bool,
) -> Result<Found, FileError>
    requires may { MayLook (B.state on.old) root }
    requires named { RecordHolds named }
    ensures found { IfOk result (IsFound (B.state on.new) root at.now.trail named) }
    ensures may { OnOk result (MayMake at.now named.mode halted) }
    ensures short { OnOk result (length at.now.trail ≤ 65) }
    ensures refused { IfErr result (IsRefused B.state root at.now named.name named.mode halted ⊥ ⊥) }
    ensures looks { Looks (B.state on.old) (B.state on.new) × B.keeps on.old on.new }
    ensures cause { Refuses (faults_of (B.state on.old)) (faults_of (B.state on.new)) ⊥ (λ n. ⊥) 0 result }
{
    match way_to_dir(alloc, on, root, at) {
        Ok(way) => match find_in(alloc, on, root, at, way, named, halted) {
            Ok(found) => Ok(found),
            Err(why) => Err(why),
        },
        Err(why) => Err(why),
    }
}

/// Finds what a file of this name needs that is made in the directory at a place of the tree with this root block, or a directory where the mode
/// has DMDIR. Refused in this order: the place is gone, it is no directory, the view isn't the active tree, the directory has the name, the
/// system is halted, a directory would lie deeper than 64, and the directory has 2^20 names.
pub fn look_for_new<B: Blocks>(
    alloc: Global,
    on: &mut B,
    root: u32,
    at: &Place,
    name: &Bytes,
    mode: u32,
    who: &Bytes,
    uid: &Bytes,
    gid: &Bytes,
    now: u32,
    halted: bool,
) -> Result<Found, FileError>
    requires may { MayLook (B.state on.old) root }
    requires name { IsName name.now }
    requires who { IsUser who.now }
    requires uid { IsUser uid.now }
    requires gid { IsUser gid.now }
    ensures found { IfOk result (IsFound (B.state on.new) root at.now.trail (of.new_record name.now mode who.now uid.now gid.now now)) }
    ensures may { OnOk result (MayMake at.now mode halted) }
    ensures short { OnOk result (length at.now.trail ≤ 65) }
    ensures refused { IfErr result (IsRefused B.state root at.now name.now mode halted ⊥ ⊥) }
    ensures looks { Looks (B.state on.old) (B.state on.new) × B.keeps on.old on.new }
    ensures cause { Refuses (faults_of (B.state on.old)) (faults_of (B.state on.new)) ⊥ (λ n. ⊥) 0 result }
{
    match new_record(alloc, name, mode, who, uid, gid, now) {
        Ok(named) => match find_at(alloc, on, root, at, named, halted) {
            Ok(found) => Ok(found),
            Err(why) => Err(why),
        },
        Err(why) => Err(why),
    }
}
