//! A write to a file of the active tree.
ghost use Rattle.std.specs.Prelude.{◌≡◌, ◌⊎◌, ◌+◌, ◌-◌, ◌*◌, ◌/◌, ◌^◌, ◌<◌, ◌≤◌, ℕ, Bool, length, true, false, IfErr, OnOk, OnErr};
ghost use Rattle.fo_base.specs.Cause.{Rose};
ghost use Rattle.fo_ports.specs.Causes.{Caused};
ghost use Rattle.fo_ports.specs.State.{Looks, Rests, none};
ghost use Rattle.fo_world.specs.declared.place.View.{View};
ghost use Rattle.fo_world.specs.Answers.{Refuses, HadRoom};
ghost use Rattle.fo_world.specs.Limits.{IsUser};
ghost use Rattle.fo_world.specs.Step.{need, write_need, is_active};
ghost use Rattle.fo_files_into.specs.of_files_at.declared.at.Way.{Way};
ghost use Rattle.fo_files_into.specs.of_files_at.Way.{IsWay};
ghost use Rattle.fo_files_into.specs.of_files_look.Told.{faults_of, MayLook};
ghost use Rattle.fo_files_into.specs.of_files_along.Along.{HasRoom, IsBlocks};
ghost use Rattle.fo_files_request.specs.Write.{WhyRefused, PutsFile, IsLeft, Writes, Refused};
ghost use Rattle.fo_ports.specs.Sources.{Dirties};

use crate::found::{Found, Limit, file_found, limit_of, unwritten};
use crate::need::reserve_for;
use fo_base::Bytes;
use fo_files_into::files_along::own_along;
use fo_files_into::files_look::file_error;
use fo_files_into::write_into;
use fo_ports::{BlockError, Blocks};
use fo_world::{FileError, Place};
use std::alloc::Global;

/// Writes a piece, which is not empty, to the file at the end of a way, with the record that the file has there.
fn write_along<B: Blocks>(
    alloc: Global,
    on: &mut B,
    root: u32,
    trail: &[u32],
    found: &Found,
    offset: u64,
    piece: &[u8],
) -> Result<(), BlockError>
    requires silent { (B.state on.old).tells → ⊥ }
    requires way { IsWay (B.state on.old) root trail.now found.now.way }
    requires short { (0 < length trail.now) × (length trail.now ≤ 65) }
    requires some { 0 < length piece.now }
    requires within { offset + length piece.now ≤ 2 ^ 40 }
    requires blocks { need (length trail.now - 1) (length piece.now) ≤ (B.state on.old).spare }
    requires pins { 20 * length trail.now + length piece.now / 8192 + length piece.now / 2 ^ 21 + 91 ≤ (B.state on.old).pins_left }
    requires room { 3274 ≤ (B.state on.old).room }
    ensures puts { OnOk result (PutsFile B B.state on.old on.new root trail.now found.now.way offset (length piece.now)) }
    ensures left { OnErr result (IsLeft B B.state on.old on.new root trail.now) }
    ensures taken { (B.state on.old).usable ≤ (B.state on.new).usable + need (length trail.now - 1) (length piece.now) }
    ensures cause { IfErr result (Caused ⊥ (λ b. (B.state on.old).is_block b ⊎ (b ≡ 1)) (Rose (B.state on.old).faults (B.state on.new).faults) (Rose (B.state on.old).arena_faults (B.state on.new).arena_faults)) }
    ensures dirties { Dirties (2 * need (length trail.now - 1) (length piece.now)) none (B.state on.old) (B.state on.new) }
    ensures keeps { B.keeps on.old on.new }
{
    let _ = root;
    let _ = trail;
    let stand = match own_along(alloc, on, &found.way) {
        Ok(stand) => stand,
        Err(why) => return Err(why),
    };
    let steps = &found.way.steps;
    let leaf = steps[steps.len() - 1].leaf;
    let named = &found.way.file.named;
    match write_into(alloc, on, stand, leaf, found.spare, named, offset, piece) {
        Ok(()) => Ok(()),
        Err(why) => Err(why),
    }
}

/// Reserves what a write needs, and writes a piece, which is not empty, to a file that was found.
fn write_found<B: Blocks>(
    alloc: Global,
    on: &mut B,
    root: u32,
    trail: &[u32],
    found: &Found,
    offset: u64,
    piece: &[u8],
) -> Result<(), FileError>
    requires silent { (B.state on.old).tells → ⊥ }
    requires way { IsWay (B.state on.old) root trail.now found.now.way }
    requires short { (0 < length trail.now) × (length trail.now ≤ 65) }
    requires some { 0 < length piece.now }
    requires within { offset + length piece.now ≤ 2 ^ 40 }
    ensures puts { OnOk result ((b : B) × Rests (B.state on.old) (B.state b) × PutsFile B B.state b on.new root trail.now found.now.way offset (length piece.now)) }
    ensures left { OnErr result ((b : B) × (Looks (B.state on.old) (B.state b) ⊎ Rests (B.state on.old) (B.state b)) × IsLeft B B.state b on.new root trail.now) }
    ensures refused { IfErr result IsBlocks }
    ensures room { HadRoom (HasRoom (B.state on.old)) (need (length trail.now - 1) (length piece.now)) result }
    ensures taken { (B.state on.old).usable ≤ (B.state on.new).usable + need (length trail.now - 1) (length piece.now) }
    ensures cause { Refuses (faults_of (B.state on.old)) (faults_of (B.state on.new)) ⊥ (HasRoom (B.state on.new)) (need (length trail.now - 1) (length piece.now)) result }
    ensures dirties { Dirties (2 * need (length trail.now - 1) (length piece.now)) none (B.state on.old) (B.state on.new) }
    ensures keeps { B.keeps on.old on.new }
{
    match reserve_for(on, trail.len(), piece.len() as u64) {
        Ok(()) => {}
        Err(why) => return Err(why),
    }
    match write_along(alloc, on, root, trail, found, offset, piece) {
        Ok(()) => Ok(()),
        Err(why) => Err(file_error(why)),
    }
}

/// Writes a piece, which is not empty, at an offset of the file at the end of a trail.
fn write_at<B: Blocks>(
    alloc: Global,
    on: &mut B,
    root: u32,
    trail: &[u32],
    offset: u64,
    piece: &[u8],
    who: &Bytes,
    now: u32,
) -> Result<(), FileError>
    requires may { MayLook (B.state on.old) root }
    requires who { IsUser who.now }
    requires some { 0 < length piece.now }
    requires within { offset + length piece.now ≤ 2 ^ 40 }
    ensures writes { OnOk result (Writes B B.state on.old on.new root trail.now offset (length piece.now) who.now now) }
    ensures left { OnErr result (Refused B B.state on.old on.new root trail.now) }
    ensures refused { IfErr result (λ e. (view : View) (offset n : ℕ) (halted : Bool) → WhyRefused B B.state root trail.now view offset n halted e) }
    ensures room { HadRoom (HasRoom (B.state on.old)) (need (length trail.now - 1) (length piece.now)) result }
    ensures taken { (B.state on.old).usable ≤ (B.state on.new).usable + need (length trail.now - 1) (length piece.now) }
    ensures cause { Refuses (faults_of (B.state on.old)) (faults_of (B.state on.new)) ⊥ (HasRoom (B.state on.new)) (need (length trail.now - 1) (length piece.now)) result }
    ensures dirties { Dirties (2 * need (length trail.now - 1) (length piece.now)) none (B.state on.old) (B.state on.new) }
    ensures keeps { B.keeps on.old on.new }
{
    match file_found(alloc, on, root, trail, who, now) {
        Ok(found) => write_found(alloc, on, root, trail, &found, offset, piece),
        Err(why) => Err(why),
    }
}

/// Writes a piece at an offset of the file at a place of the tree with this root block, by a user at a moment (seconds since 1970-01-01 UTC). A piece
/// of no bytes changes nothing. Refused in this order: the file is gone, it is a directory, the view isn't the active tree, the file would be longer
/// than 2^40 bytes, the system is halted, and what blocks refuse. A refused write leaves the file's record and its length.
pub fn write_file<B: Blocks>(
    alloc: Global,
    on: &mut B,
    root: u32,
    at: &Place,
    offset: u64,
    piece: &[u8],
    who: &Bytes,
    now: u32,
    halted: bool,
) -> Result<(), FileError>
    requires may { MayLook (B.state on.old) root }
    requires who { IsUser who.now }
    ensures none { OnOk result (length piece.now ≡ 0 → Looks (B.state on.old) (B.state on.new) × ((w : Way) × IsWay (B.state on.new) root at.now.trail w × (w.file.dir ≡ false))) }
    ensures writes { OnOk result (0 < length piece.now → Writes B B.state on.old on.new root at.now.trail offset (length piece.now) who.now now) }
    ensures granted { OnOk result ((is_active at.now.view ≡ true) × (0 < length piece.now → (offset + length piece.now ≤ 2 ^ 40) × (halted ≡ false))) }
    ensures left { OnErr result (Refused B B.state on.old on.new root at.now.trail) }
    ensures refused { IfErr result (WhyRefused B B.state root at.now.trail at.now.view offset (length piece.now) halted) }
    ensures room { HadRoom (HasRoom (B.state on.old)) (write_need at.now piece.now) result }
    ensures taken { (B.state on.old).usable ≤ (B.state on.new).usable + write_need at.now piece.now }
    ensures cause { Refuses (faults_of (B.state on.old)) (faults_of (B.state on.new)) ⊥ (HasRoom (B.state on.new)) (write_need at.now piece.now) result }
    ensures dirties { Dirties (2 * write_need at.now piece.now) none (B.state on.old) (B.state on.new) }
    ensures keeps { B.keeps on.old on.new }
{
    let n = piece.len() as u64;
    let trail = at.trail.as_slice();
    match limit_of(at.view, offset, n, halted) {
        Limit::May => match write_at(alloc, on, root, trail, offset, piece, who, now) {
            Ok(()) => Ok(()),
            Err(why) => Err(why),
        },
        Limit::Bars(bar) => match unwritten(alloc, on, root, trail, bar) {
            Ok(()) => Ok(()),
            Err(why) => Err(why),
        },
    }
}
