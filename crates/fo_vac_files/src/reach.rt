//! Files of an archive, along trails of file numbers.
ghost use Rattle.std.specs.Prelude.{◌≡◌, ℕ, List, true, false, IfOk, IfSome, MatchResult};
ghost use Rattle.fo_crash.specs.Images.{Link};
ghost use Rattle.fo_image.specs.Record.{RecordHolds};
ghost use Rattle.fo_vac_walk.specs.Walk.{Holding, IsTold};
ghost use Rattle.fo_vac_dir.specs.declared.choice.Wanted.TheVariants.{Number};
ghost use Rattle.fo_vac_dir.specs.Choice.{test_of};
ghost use Rattle.fo_vac_dir.specs.Dir.{IsAmong, records_of, names_of};
ghost use Rattle.fo_world.specs.declared.tree.Node.{Node};
ghost use Rattle.fo_world.specs.Step.{is_dir_mode};
ghost use Rattle.fo_world.specs.Tree.{first, child, along};
ghost use Rattle.fo_vac_files.specs.declared.opened.Opened.{Opened};
ghost use Rattle.fo_vac_files.specs.Causes.{refusal_of, IsLoss, HasLookCauses};
ghost use Rattle.fo_vac_files.specs.Stands.{DirIs, Stands, Picks, Comes, Fails, NodeAt};

use fo_disk::Disk;
use fo_image::Record;
use fo_vac_dir::{Folder, Wanted};
use fo_vac_walk::{Source, WalkError};
use fo_world::{DMDIR, FileError};
use std::alloc::Global;
use venti_store::Arena;

/// What a file of an archive has inside.
#[derive(Drop)]
pub(crate) enum Inside {
    File(Source),
    Dir(Folder),
}

/// A file of an archive: its record, and what it has inside.
#[derive(Drop)]
pub(crate) struct Reached {
    pub(crate) named: Record,
    pub(crate) inside: Inside,
}

/// The refusal that files give.
pub(crate) fn refusal(why: WalkError) -> FileError
    ensures { result ≡ refusal_of why }
{
    match why {
        WalkError::Damaged(at) => FileError::Damaged(at),
        WalkError::ArenaRead => FileError::ArenaRead,
        WalkError::Memory => FileError::Memory,
    }
}

/// A directory of a directory.
fn enter_dir<A: Disk>(
    alloc: Global,
    arena: &mut Arena<A>,
    folder: Folder,
    named: Record,
) -> Result<Reached, FileError>
    requires { is_dir_mode named.mode ≡ true }
    ensures held { (h : Holding) (o : Opened) (entries meta : Link) → IsTold h arena.old.shelf (A.state arena.old.device) → DirIs h o folder entries meta
        → IsAmong (records_of h meta) named
        → MatchResult result (NodeAt h o folder entries named) (IsLoss h o) }
    ensures named { IfOk result (λ f. f.named ≡ named) }
    ensures shelf { arena.new.shelf ≡ arena.old.shelf }
    ensures kept { A.state arena.new.device ≡ A.state arena.old.device }
    ensures cause { HasLookCauses (A.faults arena.old.device) (A.faults arena.new.device) result }
{
    match folder.folder(alloc, arena, &named) {
        Ok(below) => Ok(Reached {
            named,
            inside: Inside::Dir(below),
        }),
        Err(why) => Err(refusal(why)),
    }
}

/// A file of a directory.
fn enter_file<A: Disk>(
    alloc: Global,
    arena: &mut Arena<A>,
    folder: Folder,
    named: Record,
) -> Result<Reached, FileError>
    requires { is_dir_mode named.mode ≡ false }
    ensures held { (h : Holding) (o : Opened) (entries meta : Link) → IsTold h arena.old.shelf (A.state arena.old.device) → DirIs h o folder entries meta
        → MatchResult result (NodeAt h o folder entries named) (IsLoss h o) }
    ensures named { IfOk result (λ f. f.named ≡ named) }
    ensures shelf { arena.new.shelf ≡ arena.old.shelf }
    ensures kept { A.state arena.new.device ≡ A.state arena.old.device }
    ensures cause { HasLookCauses (A.faults arena.old.device) (A.faults arena.new.device) result }
{
    match folder.file(alloc, arena, &named) {
        Ok(bytes) => Ok(Reached {
            named,
            inside: Inside::File(bytes),
        }),
        Err(why) => Err(refusal(why)),
    }
}

/// The file of a record of a directory.
fn enter<A: Disk>(
    alloc: Global,
    arena: &mut Arena<A>,
    folder: Folder,
    named: Record,
) -> Result<Reached, FileError>
    ensures held { (h : Holding) (o : Opened) (entries meta : Link) → IsTold h arena.old.shelf (A.state arena.old.device) → DirIs h o folder entries meta
        → IsAmong (records_of h meta) named
        → MatchResult result (NodeAt h o folder entries named) (IsLoss h o) }
    ensures named { IfOk result (λ f. f.named ≡ named) }
    ensures shelf { arena.new.shelf ≡ arena.old.shelf }
    ensures kept { A.state arena.new.device ≡ A.state arena.old.device }
    ensures cause { HasLookCauses (A.faults arena.old.device) (A.faults arena.new.device) result }
{
    if DMDIR <= named.mode {
        enter_dir(alloc, arena, folder, named)
    } else {
        enter_file(alloc, arena, folder, named)
    }
}

/// The file that is wanted of a directory.
pub(crate) fn pick<A: Disk>(
    alloc: Global,
    arena: &mut Arena<A>,
    folder: Folder,
    wanted: &Wanted,
) -> Result<Option<Reached>, FileError>
    ensures held { (h : Holding) (o : Opened) (entries meta : Link) → IsTold h arena.old.shelf (A.state arena.old.device) → DirIs h o folder entries meta
        → MatchResult result (Picks h o (first (test_of wanted.now) (names_of h folder.levels entries meta))) (IsLoss h o) }
    ensures holds { IfOk result (λ found. IfSome found (λ f. RecordHolds f.named)) }
    ensures shelf { arena.new.shelf ≡ arena.old.shelf }
    ensures kept { A.state arena.new.device ≡ A.state arena.old.device }
    ensures cause { HasLookCauses (A.faults arena.old.device) (A.faults arena.new.device) result }
{
    match folder.record(alloc, arena, wanted) {
        Ok(Some(named)) => {
            let file = enter(alloc, arena, folder, named)?;
            Ok(Some(file))
        }
        Ok(None) => Ok(None),
        Err(why) => Err(refusal(why)),
    }
}

/// The file with this number in a directory.
fn pick_number<A: Disk>(
    alloc: Global,
    arena: &mut Arena<A>,
    folder: Folder,
    number: u32,
) -> Result<Reached, FileError>
    ensures held { (h : Holding) (o : Opened) (entries meta : Link) → IsTold h arena.old.shelf (A.state arena.old.device) → DirIs h o folder entries meta
        → MatchResult result (Comes h o (first (test_of (Number number)) (names_of h folder.levels entries meta))) (Fails h o (first (test_of (Number number)) (names_of h folder.levels entries meta))) }
    ensures holds { IfOk result (λ f. RecordHolds f.named) }
    ensures shelf { arena.new.shelf ≡ arena.old.shelf }
    ensures kept { A.state arena.new.device ≡ A.state arena.old.device }
    ensures cause { HasLookCauses (A.faults arena.old.device) (A.faults arena.new.device) result }
{
    let wanted = Wanted::Number(number);
    let found = pick(alloc, arena, folder, &wanted)?;
    match found {
        Some(next) => Ok(next),
        None => Err(FileError::Gone),
    }
}

/// The file with this number directly below another one.
fn step<A: Disk>(
    alloc: Global,
    arena: &mut Arena<A>,
    from: Reached,
    number: u32,
) -> Result<Reached, FileError>
    ensures held { (h : Holding) (o : Opened) (n : List ℕ × Node) → IsTold h arena.old.shelf (A.state arena.old.device) → Stands h o from n
        → MatchResult result (Comes h o (child number n.1.body)) (Fails h o (child number n.1.body)) }
    ensures holds { IfOk result (λ f. RecordHolds f.named) }
    ensures shelf { arena.new.shelf ≡ arena.old.shelf }
    ensures kept { A.state arena.new.device ≡ A.state arena.old.device }
    ensures cause { HasLookCauses (A.faults arena.old.device) (A.faults arena.new.device) result }
{
    match from.inside {
        Inside::Dir(folder) => pick_number(alloc, arena, folder, number),
        Inside::File(_) => Err(FileError::Gone),
    }
}

/// The file below another one at a trail of file numbers.
pub(crate) fn follow<A: Disk>(
    alloc: Global,
    arena: &mut Arena<A>,
    from: Reached,
    trail: &[u32],
) -> Result<Reached, FileError>
    requires { RecordHolds from.named }
    ensures held { (h : Holding) (o : Opened) (n : List ℕ × Node) → IsTold h arena.old.shelf (A.state arena.old.device) → Stands h o from n
        → MatchResult result (Comes h o (along trail.now n)) (Fails h o (along trail.now n)) }
    ensures holds { IfOk result (λ f. RecordHolds f.named) }
    ensures shelf { arena.new.shelf ≡ arena.old.shelf }
    ensures kept { A.state arena.new.device ≡ A.state arena.old.device }
    ensures cause { HasLookCauses (A.faults arena.old.device) (A.faults arena.new.device) result }
{
    let mut here = from;
    let len = trail.len();
    'steps: for k in 0..len {
        let next = step(alloc, arena, here, trail[k])?;
        here = next;
    }
    Ok(here)
}
