//! The laws of blocks.
ghost use Rattle.std.specs.Prelude.{ℕ};
ghost use Rattle.fo_disk.specs.Disk.{Content as Holds};
ghost use Rattle.fo_mind.specs.Lawful.{IsLawful};
ghost use Rattle.fo_mind.specs.MindParts.{parts};
ghost use Rattle.fo_mind.specs.Parts.{state_of};

use crate::mind::Mind;

impl Mind {
    /// What calls on blocks see keeps the laws of blocks.
    pub fn laws(&self)
        ensures { (disk : Holds) (faults : ℕ) → IsLawful (state_of (parts self.now disk faults)) }
    {}
}
