//! The check.
ghost use Rattle.std.specs.Prelude.{◌≡◌, ℕ, ◌+◌, ◌<◌, ◌≤◌, List, length, IfErr, IfOk, MatchResult};
ghost use Rattle.fo_disk.specs.Disk.{Block};
ghost use Rattle.fo_image.specs.Place.{label_blocks};
ghost use Rattle.fo_sound.specs.Sizes.{IsMainSize, HasSizes, IsArena};
ghost use Rattle.fo_sound.specs.Device.{Shows};
ghost use Rattle.fo_sound.specs.Fresh.{IsFresh};
ghost use Rattle.fo_check.specs.Answer.{Opens, IsOutside, KnowsSizes, AsksSizes};
ghost use Rattle.fo_check.specs.Device.{HasCauses};
ghost use Rattle.fo_check_image.specs.Answer.{Reports, Refuses};
ghost use Rattle.fo_check_image.specs.declared.report.Report.{Report};
ghost use Rattle.fo_check_image.specs.Stage.{refusal_of, report_of, IsOfTree, RefusesTree, HasSoundTree, IsBare};

use crate::report::Report;
use fo_check::{CheckError, Opening, open_images};
use fo_check_tree::{Found, Setting, TreeError, check_tree};
use fo_disk::{Disk, DiskFault};
use std::alloc::Global;

/// Why there is no report, where a tree was not checked to its end.
fn refusal_of(e: TreeError) -> CheckError
    ensures { result ≡ refusal_of e }
{
    match e {
        TreeError::Label(block) => CheckError::Unsound { rule: 4, block },
        TreeError::Read => CheckError::Main(DiskFault::Read),
        TreeError::Memory => CheckError::Memory,
    }
}

/// The report of a device of so many blocks, or the rule that is broken in its tree.
fn report_of(blocks: u32, found: Found) -> Result<Report, CheckError>
    ensures { result ≡ report_of blocks found.used found.leaked found.broken }
{
    match found.broken {
        Some(b) => Err(CheckError::Unsound {
            rule: b.rule,
            block: b.block,
        }),
        None => Ok(Report {
            blocks,
            used: found.used,
            leaked: found.leaked,
            snapshots: 0,
        }),
    }
}

/// Checks the active tree of images that were opened.
fn check_opened<D: Disk>(
    alloc: Global,
    main: &mut D,
    opening: &Opening,
) -> Result<Report, CheckError>
    requires size { D.size main.old ≡ opening.now.blocks }
    requires range { IsMainSize opening.now.blocks }
    ensures answer { (image vault : List Block) → Shows (D.state main.old).holds image → Opens image vault opening.now
        → MatchResult result (Reports image vault) (RefusesTree image opening.now) }
    ensures only { (image vault : List Block) → Shows (D.state main.old).holds image → Opens image vault opening.now → HasSoundTree image opening.now → IfErr result IsOutside }
    ensures bare { (image vault : List Block) → Shows (D.state main.old).holds image → Opens image vault opening.now → IsBare image opening.now
        → IfOk result (λ r. r ≡ record { blocks = opening.now.blocks; used = 1; leaked = 0; snapshots = 0 }) }
    ensures of_tree { IfErr result IsOfTree }
    ensures size { D.size main.new ≡ D.size main.old }
    ensures kept { D.state main.new ≡ D.state main.old }
    ensures most { D.calls main.new ≤ D.calls main.old + opening.now.blocks }
    ensures reads { IfOk result (λ r. D.calls main.new ≤ D.calls main.old + label_blocks opening.now.blocks + r.used) }
    ensures causes { HasCauses (D.faults main.old) (D.faults main.new) 0 0 result }
{
    let setting = Setting {
        blocks: opening.blocks,
        s: opening.s,
    };
    match check_tree(alloc, main, setting, &opening.root) {
        Ok(found) => report_of(opening.blocks, found),
        Err(e) => Err(refusal_of(e)),
    }
}

/// Checks the images of the main device and of the arena. The rules of sound images are those of fo_good, S1 to S9. Each block of
/// the label table is read once, that of the active root's label once more, and each block of the tree but a file's bytes once.
/// Nothing is written.
///
/// The first of these is answered: `Size` of main and then of the arena; rule 1; `NotArena`; `NotBuilt` for an arena in which
/// something is used; rule 2; `NotBuilt` for a root before the active one from the low epoch on, or for archives; the lowest rule that
/// is broken. A device's fault or want of memory comes where it is met.
pub fn check<D: Disk, A: Disk>(
    alloc: Global,
    main: &mut D,
    arena: &mut A,
) -> Result<Report, CheckError>
    // Over quiet devices that tell what they hold: a report says that the image is sound, with its numbers, and a refusal why it isn't.
    ensures answer { (image vault : List Block) → Shows (D.state main.old).holds image → Shows (A.state arena.old).holds vault
        → MatchResult result (Reports image vault) (Refuses image vault) }

    // A sound image with no root before the active one and no archive is refused for a fault or want of memory alone.
    ensures only { (image vault : List Block) (report : Report) → Shows (D.state main.old).holds image → Shows (A.state arena.old).holds vault
        → Reports image vault report → IfErr result IsOutside }

    // The image of devices that were just formatted is sound.
    ensures fresh { (image vault : List Block) (time : ℕ) → Shows (D.state main.old).holds image → Shows (A.state arena.old).holds vault
        → HasSizes image vault → IsFresh time image → IsArena vault 0
        → MatchResult result (λ r. r ≡ record { blocks = length image; used = 1; leaked = 0; snapshots = 0 }) IsOutside }

    // Over any devices: `Size` is answered exactly where a number of blocks that was found is out of range, and a number that is
    // known stays.
    ensures sizes { KnowsSizes (D.size main.new) (A.size arena.new) result }
    ensures asked { AsksSizes (D.size main.new) (D.calls main.old) (D.calls main.new) (A.calls arena.old) (A.calls arena.new) result }
    ensures main_fixed { 0 < D.size main.old → D.size main.new ≡ D.size main.old }
    ensures arena_fixed { 0 < A.size arena.old → A.size arena.new ≡ A.size arena.old }

    // Nothing is written.
    ensures main { D.state main.new ≡ D.state main.old }
    ensures arena { A.state arena.new ≡ A.state arena.old }

    // Over any devices: at most five calls of main and one for each of its blocks, for a report five and one for each block of the
    // label table and each used block; at most two of the arena.
    ensures most { (D.calls main.new ≤ D.calls main.old + 5 + D.size main.new) × (A.calls arena.new ≤ A.calls arena.old + 2) }
    ensures reads { IfOk result (λ r. D.calls main.new ≤ D.calls main.old + 5 + label_blocks (D.size main.new) + r.used) }

    ensures causes { HasCauses (D.faults main.old) (D.faults main.new) (A.faults arena.old) (A.faults arena.new) result }
{
    let opening = open_images(alloc, main, arena)?;
    let report = check_opened(alloc, main, &opening)?;
    Ok(report)
}
