//! An archive that is being made.
ghost use Rattle.std.specs.Prelude.{◌≡◌, ◌<◌, ◌≤◌, ◌^◌, Some};
ghost use Rattle.fo_image.specs.declared.types.Score.{Score};
ghost use Rattle.fo_image.specs.Format.{IsScore};

use fo_arch_form::Stored;
use fo_image::Score;
use std::alloc::Global;

/// An archive of a snapshot: the snapshot's epoch, time and root block, the score of the archive before, and what was stored.
#[derive(Drop)]
pub struct Archive {
    pub(crate) alloc: Global,
    pub(crate) epoch: u32,
    pub(crate) time: u32,
    pub(crate) root: u32,
    pub(crate) prev: Option<Score>,
    pub(crate) done: Stored,
    ghost begun: { 1 ≤ epoch },
    ghost few: { epoch < 2 ^ 31 },
    ghost timed: { time < 2 ^ 32 },
    ghost before: { (score : Score) → prev ≡ Some score → IsScore score.0 },
}

impl Archive {
    ghost use Rattle.std.specs.Prelude.{ℕ, None, ◌↔◌, ◌≢◌, IsTrue};
    ghost use Rattle.fo_image.specs.Format.{IsEpoch};
    ghost use Rattle.fo_vacput.specs.Vac.{PrevHolds};
    ghost use Rattle.fo_arch_form.specs.Stored.{found, count_of};
    ghost use Rattle.std.specs.Prelude.{List};
    ghost use Rattle.fo_image.specs.declared.types.ArenaLine.{ArenaLine};
    ghost use Rattle.fo_crash.specs.Images.{Image};
    ghost use Rattle.fo_arch.specs.Archive.{HasWhole};
    ghost use Rattle.fo_arch_tree.specs.Forms.{StoresForms};
    ghost use Rattle.fo_arch.specs.Forms.{AreNamed};

    /// Begins an archive of the snapshot of this epoch and time, whose root block has this address. Nothing is stored yet.
    pub fn begin(alloc: Global, epoch: u32, time: u32, root: u32, prev: Option<Score>) -> Archive
        requires epoch { IsEpoch epoch }
        requires prev { PrevHolds prev }
        ensures epoch { result.epoch ≡ epoch }
        ensures time { result.time ≡ time }
        ensures root { result.root ≡ root }
        ensures prev { result.prev ≡ prev }
        ensures none { (at kind : ℕ) → found result.done at kind ≡ None }
        ensures count { count_of result.done ≡ 0 }
        ensures forms { (image : Image) (lines : List ArenaLine) (stored : List (List ℕ)) → StoresForms result.done image lines stored }
        ensures named { (lines : List ArenaLine) → AreNamed result.done lines }
    {
        Archive {
            alloc,
            epoch,
            time,
            root,
            prev,
            done: Stored::new(alloc),
        }
    }

    /// Whether all of the snapshot is stored, so that the root of the archive may be put.
    pub fn is_whole(&self) -> bool
        ensures { IsTrue result ↔ HasWhole self.now }
    {
        self.done.score(self.root, TOP).is_some()
    }
}

/// The kind of a top block.
pub(crate) const TOP: u8 = 17;
