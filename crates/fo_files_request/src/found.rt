//! What a write looks at before it reserves.
ghost use Rattle.std.specs.Prelude.{◌≡◌, ◌⊎◌, ◌+◌, ◌-◌, ◌^◌, ◌<◌, ◌≤◌, ℕ, Bool, true, false, length, IfOk, IfErr, OnOk};
ghost use Rattle.fo_base.specs.Cause.{Rose};
ghost use Rattle.fo_image.specs.Record.{RecordHolds};
ghost use Rattle.fo_ports.specs.Causes.{Caused};
ghost use Rattle.fo_ports.specs.State.{Looks};
ghost use Rattle.fo_world.specs.declared.error.FileError.TheVariants.{Memory};
ghost use Rattle.fo_world.specs.declared.place.View.{View};
ghost use Rattle.fo_world.specs.Answers.{Refuses};
ghost use Rattle.fo_world.specs.Limits.{IsUser};
ghost use Rattle.fo_world.specs.Step.{is_active};
ghost use Rattle.fo_files_into.specs.of_files_at.declared.at.Way.{Way};
ghost use Rattle.fo_files_into.specs.of_files_at.Held.{FileHolds};
ghost use Rattle.fo_files_into.specs.of_files_at.Way.{IsWay};
ghost use Rattle.fo_files_into.specs.of_files_look.Told.{faults_of, MayLook};
ghost use Rattle.fo_files_into.specs.of_files_along.Along.{with_touched};
ghost use Rattle.fo_files_request.specs.Write.{WhyRefused};
ghost use Rattle.fo_files_request.specs.declared.found.Bar.TheVariants.{Empty};
ghost use Rattle.fo_files_request.specs.Limits.{IsBar, IsLimit, IsTold};

use fo_base::Bytes;
use fo_files_into::files_along::{spare_for, touch};
use fo_files_into::files_at::{DATA_LIMIT, File, Way, at_place};
use fo_files_into::files_look::file_error;
use fo_image::record_len;
use fo_ports::{BlockError, Blocks};
use fo_world::{FileError, View};
use std::alloc::Global;

/// What was found for a write: the way to the file, whose record is the new one already, and the leaf for the record where it has to move.
#[derive(Debug, Drop)]
pub(crate) struct Found {
    pub(crate) way: Way,
    pub(crate) spare: u32,
}

/// Why limits keep a write from writing something.
#[derive(Clone, Copy, Debug)]
pub(crate) enum Bar {
    Empty,
    ReadOnly,
    TooBig,
    Halted,
}

/// What the limits say of a write.
#[derive(Clone, Copy, Debug)]
pub(crate) enum Limit {
    May,
    Bars(Bar),
}

/// The way to a file that is no directory, at the end of a trail; the root is one.
fn way_to_file<B: Blocks>(
    alloc: Global,
    on: &mut B,
    root: u32,
    trail: &[u32],
) -> Result<Way, FileError>
    requires may { MayLook (B.state on.old) root }
    ensures way { IfOk result (IsWay (B.state on.new) root trail.now) }
    ensures short { IfOk result (λ w. (0 < length trail.now) × (length trail.now ≤ 65)) }
    ensures file { IfOk result (λ w. w.file.dir ≡ false) }
    ensures refused { IfErr result (λ e. (view : View) (offset n : ℕ) (halted : Bool) → WhyRefused B B.state root trail.now view offset n halted e) }
    ensures looks { Looks (B.state on.old) (B.state on.new) × B.keeps on.old on.new }
    ensures cause { Refuses (faults_of (B.state on.old)) (faults_of (B.state on.new)) ⊥ (λ n. ⊥) 0 result }
{
    if trail.is_empty() {
        return Err(FileError::IsDir);
    }
    let way = match at_place(alloc, on, root, trail) {
        Ok(Some(way)) => way,
        Ok(None) => return Err(FileError::Gone),
        Err(why) => return Err(file_error(why)),
    };
    if way.file.dir {
        return Err(FileError::IsDir);
    }
    Ok(way)
}

/// Whether a view is that of the active tree.
fn is_of_active(view: View) -> bool
    ensures { result ≡ is_active view }
{
    matches!(view, View::Active)
}

/// What the limits say of a write of `n` bytes at an offset.
pub(crate) fn limit_of(view: View, offset: u64, n: u64, halted: bool) -> Limit
    ensures { IsLimit view offset n halted result }
{
    if !is_of_active(view) {
        return Limit::Bars(Bar::ReadOnly);
    }
    if n == 0 {
        return Limit::Bars(Bar::Empty);
    }
    if DATA_LIMIT < offset.saturating_add(n) {
        return Limit::Bars(Bar::TooBig);
    }
    if halted {
        return Limit::Bars(Bar::Halted);
    }
    Limit::May
}

/// The way to a file whose record says that this user changed it at a moment.
fn with_touch(way: Way, who: Bytes, now: u32) -> Way
    ensures { (result.steps ≡ way.steps) × (result.file ≡ with_touched who now way.file) }
{
    let Way { steps, file } = way;
    let File {
        named,
        dir,
        first,
        second,
        leaf,
        rank,
    } = file;
    let file = File {
        named: touch(named, who, now),
        dir,
        first,
        second,
        leaf,
        rank,
    };
    Way { steps, file }
}

/// The same, with a copy of the user's name. Refused: want of memory.
fn renewed(alloc: Global, way: Way, who: &Bytes, now: u32) -> Result<Way, FileError>
    ensures is { IfOk result (λ w. (w.steps ≡ way.steps) × (w.file ≡ with_touched who.now now way.file)) }
    ensures memory { IfErr result (λ e. e ≡ Memory) }
{
    match who.copy(alloc) {
        Ok(copy) => Ok(with_touch(way, copy, now)),
        Err(_) => Err(FileError::Memory),
    }
}

/// The leaf to which the record of the file at the end of a way goes that took as many bytes as this before.
fn spare_of<B: Blocks>(
    alloc: Global,
    on: &mut B,
    root: u32,
    trail: &[u32],
    way: &Way,
    was: usize,
) -> Result<u32, BlockError>
    requires silent { (B.state on.old).tells → ⊥ }
    requires way { IsWay (B.state on.old) root trail.now way.now }
    requires some { 0 < length trail.now }
    ensures looks { Looks (B.state on.old) (B.state on.new) × B.keeps on.old on.new }
    ensures cause { IfErr result (Caused ⊥ (λ b. (B.state on.old).is_block b) (Rose (B.state on.old).faults (B.state on.new).faults) ⊥) }
{
    let _ = root;
    let _ = trail;
    let len = record_len(&way.file.named);
    let step = &way.steps[way.steps.len() - 1];
    match spare_for(alloc, on, step, was, len) {
        Ok(spare) => Ok(spare),
        Err(why) => Err(why),
    }
}

/// What was found for a write, where the way to the file was.
fn with_spare<B: Blocks>(
    alloc: Global,
    on: &mut B,
    root: u32,
    trail: &[u32],
    way: Way,
    was: usize,
) -> Result<Found, FileError>
    requires silent { (B.state on.old).tells → ⊥ }
    requires way { IsWay (B.state on.old) root trail.now way }
    requires some { 0 < length trail.now }
    ensures way { IfOk result (λ f. f.way ≡ way) }
    ensures refused { IfErr result (λ e. (view : View) (offset n : ℕ) (halted : Bool) → WhyRefused B B.state root trail.now view offset n halted e) }
    ensures looks { Looks (B.state on.old) (B.state on.new) × B.keeps on.old on.new }
    ensures cause { Refuses (faults_of (B.state on.old)) (faults_of (B.state on.new)) ⊥ (λ n. ⊥) 0 result }
{
    match spare_of(alloc, on, root, trail, &way, was) {
        Ok(spare) => Ok(Found { way, spare }),
        Err(why) => Err(file_error(why)),
    }
}

/// The same, with the record of the file as it is after the write.
fn ready_way<B: Blocks>(
    alloc: Global,
    on: &mut B,
    root: u32,
    trail: &[u32],
    way: Way,
    who: &Bytes,
    now: u32,
) -> Result<Found, FileError>
    requires silent { (B.state on.old).tells → ⊥ }
    requires way { IsWay (B.state on.old) root trail.now way }
    requires some { 0 < length trail.now }
    requires who { IsUser who.now }
    ensures way { IfOk result (λ f. IsWay (B.state on.new) root trail.now f.way) }
    ensures file { IfOk result (λ f. (f.way.steps ≡ way.steps) × (f.way.file ≡ with_touched who.now now way.file)) }
    ensures refused { IfErr result (λ e. (view : View) (offset n : ℕ) (halted : Bool) → WhyRefused B B.state root trail.now view offset n halted e) }
    ensures looks { Looks (B.state on.old) (B.state on.new) × B.keeps on.old on.new }
    ensures cause { Refuses (faults_of (B.state on.old)) (faults_of (B.state on.new)) ⊥ (λ n. ⊥) 0 result }
{
    let was = record_len(&way.file.named);
    match renewed(alloc, way, who, now) {
        Ok(way) => match with_spare(alloc, on, root, trail, way, was) {
            Ok(found) => Ok(found),
            Err(why) => Err(why),
        },
        Err(why) => Err(why),
    }
}

/// Looks whether there is a file that is no directory at the end of a trail.
fn seen<B: Blocks>(alloc: Global, on: &mut B, root: u32, trail: &[u32]) -> Result<(), FileError>
    requires may { MayLook (B.state on.old) root }
    ensures found { OnOk result ((w : Way) × IsWay (B.state on.new) root trail.now w × (w.file.dir ≡ false)) }
    ensures refused { IfErr result (λ e. (view : View) (offset n : ℕ) (halted : Bool) → WhyRefused B B.state root trail.now view offset n halted e) }
    ensures looks { Looks (B.state on.old) (B.state on.new) × B.keeps on.old on.new }
    ensures cause { Refuses (faults_of (B.state on.old)) (faults_of (B.state on.new)) ⊥ (λ n. ⊥) 0 result }
{
    match way_to_file(alloc, on, root, trail) {
        Ok(way) => {
            let _ = way;
            Ok(())
        }
        Err(why) => Err(why),
    }
}

/// What is answered where limits keep a write from writing something: no bytes are written well.
fn told(bar: Bar) -> Result<(), FileError>
    ensures none { OnOk result (bar ≡ Empty) }
    ensures told { IfErr result (IsTold bar) }
{
    match bar {
        Bar::Empty => Ok(()),
        Bar::ReadOnly => Err(FileError::ReadOnly),
        Bar::TooBig => Err(FileError::TooBig),
        Bar::Halted => Err(FileError::Halted),
    }
}

/// The answer to a write that writes nothing: whether there is such a file comes first.
pub(crate) fn unwritten<B: Blocks>(
    alloc: Global,
    on: &mut B,
    root: u32,
    trail: &[u32],
    bar: Bar,
) -> Result<(), FileError>
    requires may { MayLook (B.state on.old) root }
    ensures none { OnOk result (bar ≡ Empty) }
    ensures found { OnOk result ((w : Way) × IsWay (B.state on.new) root trail.now w × (w.file.dir ≡ false)) }
    ensures refused { IfErr result (λ e. (view : View) (offset n : ℕ) (halted : Bool) → IsBar view offset n halted bar → WhyRefused B B.state root trail.now view offset n halted e) }
    ensures looks { Looks (B.state on.old) (B.state on.new) × B.keeps on.old on.new }
    ensures cause { Refuses (faults_of (B.state on.old)) (faults_of (B.state on.new)) ⊥ (λ n. ⊥) 0 result }
{
    match seen(alloc, on, root, trail) {
        Ok(()) => match told(bar) {
            Ok(()) => Ok(()),
            Err(why) => Err(why),
        },
        Err(why) => Err(why),
    }
}

/// What is found for a write to the file at the end of a trail.
pub(crate) fn file_found<B: Blocks>(
    alloc: Global,
    on: &mut B,
    root: u32,
    trail: &[u32],
    who: &Bytes,
    now: u32,
) -> Result<Found, FileError>
    requires may { MayLook (B.state on.old) root }
    requires who { IsUser who.now }
    ensures way { IfOk result (λ f. IsWay (B.state on.new) root trail.now f.way) }
    ensures file { IfOk result (λ f. (way : Way) × IsWay (B.state on.new) root trail.now way × (way.file.dir ≡ false) × (f.way.steps ≡ way.steps) × (f.way.file ≡ with_touched who.now now way.file)) }
    ensures short { IfOk result (λ f. (0 < length trail.now) × (length trail.now ≤ 65)) }
    ensures refused { IfErr result (λ e. (view : View) (offset n : ℕ) (halted : Bool) → WhyRefused B B.state root trail.now view offset n halted e) }
    ensures looks { Looks (B.state on.old) (B.state on.new) × B.keeps on.old on.new }
    ensures cause { Refuses (faults_of (B.state on.old)) (faults_of (B.state on.new)) ⊥ (λ n. ⊥) 0 result }
{
    match way_to_file(alloc, on, root, trail) {
        Ok(way) => match ready_way(alloc, on, root, trail, way, who, now) {
            Ok(found) => Ok(found),
            Err(why) => Err(why),
        },
        Err(why) => Err(why),
    }
}
