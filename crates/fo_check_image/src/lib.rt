//! The check of the images of two devices, with all files of the active tree (flchk, fossil(4)).
//!
//! `check` opens the images as far as their trees (`fo_check`), checks the active tree (`fo_check_tree`), and writes nothing. Its answer
//! is a report, or the first refusal of a fixed order: sizes, S1, the arena, S2, what isn't built, and the lowest rule that is broken.
//!
//! Proved over quiet devices that tell what they hold: a report says that the image is sound by the definition of `fo_good`, and its four
//! numbers; a sound image, with no root before the active one and no archive, is refused for a fault or want of memory alone; a rule that
//! is named is broken at that block, and those below it hold. Over any devices: `Size` comes exactly where a number of blocks that was
//! found is out of range; a fault comes only where that device's count rose; nothing is written. **The main device is called at most five
//! times and once for each of its blocks, for a report five times and once for each block of the label table and each used block**, and
//! the arena twice.
//!
//! Where a block is at two places, S5 and S6 are asked of records in blocks at one place, with names that lead there by such blocks. **Not proved**: anything of what a device holds that tells nothing, as a file.
#![tactic(auto)]

mod checker;
mod report;

pub use checker::check;
pub use report::Report;
