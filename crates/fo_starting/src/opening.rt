//! Two devices are checked and opened.
ghost use Rattle.std.specs.Prelude.{◌≡◌, ◌<◌, ◌≤◌, ℕ, List, length, IfOk, IfErr, MatchResult};
ghost use Rattle.fo_disk.specs.Disk.{Block, IsSettled};
ghost use Rattle.fo_image.specs.declared.types.Super.{Super};
ghost use Rattle.fo_image.specs.declared.record.RootBlock.{RootBlock};
ghost use Rattle.fo_sound.specs.Device.{Shows};
ghost use Rattle.fo_sound.specs.Sizes.{IsMainSize};
ghost use Rattle.fo_check.specs.Answer.{Blames, IsOutside};
ghost use Rattle.fo_check.specs.declared.error.CheckError.TheVariants.{Size as BadSize, Memory as Wanting};
ghost use Rattle.fo_check_image.specs.Answer.{Reports, Refuses};
ghost use Rattle.fo_check_image.specs.declared.report.Report.{Report};
ghost use Rattle.fo_opening.specs.of_mind.MindParts.{parts};
ghost use Rattle.fo_devices.specs.Seen.{seen};
ghost use Rattle.fo_starting.specs.Begins.{Begins, MayOpen};
ghost use Rattle.fo_starting.specs.Whys.{arena_why, main_why};

use fo_check::CheckError;
use fo_check_image::check;
use fo_devices::Devices;
use fo_disk::{Disk, DiskFault};
use fo_opening::{Why, open};
use std::alloc::Global;
use venti_store::{Arena, ArenaOpen, ArenaWhy};

/// Two devices that were not opened, and why.
#[derive(Drop)]
pub struct Unopened<D, A> {
    pub why: CheckError,
    pub main: D,
    pub arena: A,
}

impl<D, A> Unopened<D, A> {
    /// Memory is wanting.
    pub fn wanting(main: D, arena: A) -> Unopened<D, A>
        ensures why { result.why ≡ Wanting }
        ensures main { result.main ≡ main }
        ensures arena { result.arena ≡ arena }
    {
        Unopened {
            why: CheckError::Memory,
            main,
            arena,
        }
    }
}

// Why the main device was not opened. After a check, over a device that tells what it holds, this is a fault or want of memory; else another
// reading of a block differed.
fn main_why(why: Why) -> CheckError
    ensures { result ≡ main_why why }
{
    match why {
        Why::Size => CheckError::Size,
        Why::Header => CheckError::Unsound { rule: 1, block: 0 },
        Why::Super => CheckError::Unsound { rule: 1, block: 1 },
        Why::Label(block) => CheckError::Unsound { rule: 4, block },
        Why::Root => CheckError::Unsound { rule: 2, block: 1 },
        Why::Fault(fault) => CheckError::Main(fault),
        Why::Memory => CheckError::Memory,
    }
}

// Why the arena was not opened.
fn arena_why(why: ArenaWhy) -> CheckError
    ensures { result ≡ arena_why why }
{
    match why {
        ArenaWhy::NotArena => CheckError::NotArena,
        ArenaWhy::ArenaRead => CheckError::Arena(DiskFault::Read),
        ArenaWhy::Memory => CheckError::Memory,
    }
}

// Opens an arena on one device, and then a cache on the other, whose size is known.
fn open_both<D: Disk, A: Disk>(
    alloc: Global,
    main: D,
    arena: A,
) -> Result<Devices<D, A>, Unopened<D, A>>
    requires quiet { (b : ℕ) → b < length (D.state main).holds → IsSettled (D.state main).holds b }
    requires size { IsMainSize (D.size main) }
    ensures opened { IfOk result (λ d. Begins (D.state main) (A.state arena) (D.state d.cache.main) (seen (parts d.cache.mind (D.state d.cache.main).holds (D.faults d.cache.main)) (D.size d.cache.main) d.arena.shelf (A.state d.arena.device) (A.faults d.arena.device))) }
    ensures outside { (image vault : List Block) (s : Super) (root : RootBlock) → Shows (D.state main).holds image → Shows (A.state arena).holds vault
        → MayOpen image vault s root → IfErr result (λ r. IsOutside r.why) }
    ensures sized { IfErr result (λ r. r.why ≡ BadSize → ⊥) }
    ensures kept { IfErr result (λ r. (D.state r.main ≡ D.state main) × (A.state r.arena ≡ A.state arena)) }
    ensures later { MatchResult result (λ d. (D.faults main ≤ D.faults d.cache.main) × (A.faults arena ≤ A.faults d.arena.device))
        (λ r. (D.faults main ≤ D.faults r.main) × (A.faults arena ≤ A.faults r.arena)) }
    ensures cause { IfErr result (λ r. Blames (D.faults main) (D.faults r.main) (A.faults arena) (A.faults r.arena) r.why) }
{
    let opened = match Arena::open(alloc, arena) {
        Ok(opened) => opened,
        Err(refused) => {
            let ArenaOpen { why, device } = refused;
            return Err(Unopened {
                why: arena_why(why),
                main,
                arena: device,
            });
        }
    };
    match open(alloc, main) {
        Ok(cache) => Ok(Devices::new(cache, opened)),
        Err(refused) => Err(Unopened {
            why: main_why(refused.why),
            main: refused.main,
            arena: opened.close(),
        }),
    }
}

/// Checks two devices, and opens a cache on one and an arena on the other. A refusal gives both back, and nothing is written. The first of
/// these is answered: `Size` of main and then of the arena; rule 1; `NotArena`; `NotBuilt` for an arena in which something is used; rule 2;
/// `NotBuilt` for a root before the active one or for archives; the lowest rule that is broken. A fault or want of memory comes where it is
/// met.
pub fn open_devices<D: Disk, A: Disk>(
    alloc: Global,
    main: D,
    arena: A,
) -> Result<Devices<D, A>, Unopened<D, A>>
    requires quiet { (b : ℕ) → b < length (D.state main).holds → IsSettled (D.state main).holds b }
    ensures opened { IfOk result (λ d. Begins (D.state main) (A.state arena) (D.state d.cache.main) (seen (parts d.cache.mind (D.state d.cache.main).holds (D.faults d.cache.main)) (D.size d.cache.main) d.arena.shelf (A.state d.arena.device) (A.faults d.arena.device))) }

    // Over quiet devices that tell: what is opened is sound, and a refusal says why it isn't, or is a fault or want of memory.
    ensures answer { (image vault : List Block) → Shows (D.state main).holds image → Shows (A.state arena).holds vault
        → MatchResult result (λ _. (report : Report) × Reports image vault report) (λ r. Refuses image vault r.why) }
    ensures only { (image vault : List Block) (report : Report) → Shows (D.state main).holds image → Shows (A.state arena).holds vault
        → Reports image vault report → IfErr result (λ r. IsOutside r.why) }

    ensures kept { IfErr result (λ r. (D.state r.main ≡ D.state main) × (A.state r.arena ≡ A.state arena)) }
    ensures later { MatchResult result (λ d. (D.faults main ≤ D.faults d.cache.main) × (A.faults arena ≤ A.faults d.arena.device))
        (λ r. (D.faults main ≤ D.faults r.main) × (A.faults arena ≤ A.faults r.arena)) }
    ensures cause { IfErr result (λ r. Blames (D.faults main) (D.faults r.main) (A.faults arena) (A.faults r.arena) r.why) }
{
    let mut main = main;
    let mut arena = arena;
    if let Err(why) = check(alloc, &mut main, &mut arena) {
        return Err(Unopened { why, main, arena });
    }
    open_both(alloc, main, arena)
}
