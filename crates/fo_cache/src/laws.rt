//! What a cache is at each moment.
ghost use Rattle.fo_facts.specs.Known.{fact_at};

use crate::cache::Cache;
use fo_disk::Disk;

impl<D: Disk> Cache<D> {
    ghost use Rattle.std.specs.Prelude.{◌≡◌, ◌<◌, ◌≤◌, ℕ, List, [], ◌∷◌, true, length};
    ghost use Rattle.fo_disk.specs.Disk.{IsSettled, latest_of, versions_of};
    ghost use Rattle.std.specs.List.{Contains};
    ghost use Rattle.fo_image.specs.Field.{Four, number_at};
    ghost use Rattle.fo_cache.specs.Fits.{MayBeOne};
    ghost use Rattle.fo_labels.specs.Spelled.{SpellsLabels};
    ghost use Rattle.fo_order.specs.Turns.{IsQuiet, flag_at};
    ghost use Rattle.fo_mind.specs.MindParts.{parts};
    ghost use Rattle.fo_mind.specs.Parts.{bytes_at, label_at};
    ghost use Rattle.fo_mind.specs.Sound.{IsCurrent};

    /// Where all is settled, the device has of each block that is in the tree of memory one version, which is memory's.
    pub fn quiet_is_memory(&self)
        ensures { IsQuiet (parts self.now.mind [] 0).turns → (b : ℕ) → (parts self.now.mind [] 0).region.first ≤ b → b < length (D.state self.now.main).holds → (fact_at (parts self.now.mind [] 0).facts b).linked ≡ true → versions_of (D.state self.now.main).holds b ≡ bytes_at (parts self.now.mind [] 0).held (D.state self.now.main).holds b ∷ [] }
    {}

    /// A data block that has a turn, and so may be written, is live and of the high epoch.
    pub fn turns_are_current(&self)
        ensures { (b : ℕ) → (parts self.now.mind [] 0).region.first ≤ b → (flag_at (parts self.now.mind [] 0).turns b).dirty ≡ true → IsCurrent (parts self.now.mind [] 0).one.high (label_at (parts self.now.mind [] 0).region b) }
    {}

    /// Where all is settled, the device has of each block of the label table one version, with the labels that memory has.
    pub fn quiet_has_labels(&self)
        ensures { IsQuiet (parts self.now.mind [] 0).turns → (b : ℕ) → 2 ≤ b → b < (parts self.now.mind [] 0).region.first → b < length (D.state self.now.main).holds → IsSettled (D.state self.now.main).holds b × SpellsLabels (parts self.now.mind [] 0).region b (latest_of (versions_of (D.state self.now.main).holds b)) }
    {}

    /// Each version that the device has of block 1 is memory's, or the one in doubt. The next file number is up to the limit that it
    /// says, and below it while it is granted.
    pub fn one_is_known(&self)
        ensures known { (bytes : List ℕ) → 1 < length (D.state self.now.main).holds → Contains (versions_of (D.state self.now.main).holds 1) bytes → MayBeOne (parts self.now.mind [] 0).one_bytes (parts self.now.mind [] 0).doubt bytes }
        ensures limited { (bytes : List ℕ) → 1 < length (D.state self.now.main).holds → Contains (versions_of (D.state self.now.main).holds 1) bytes → (parts self.now.mind [] 0).next ≤ number_at Four 22 bytes }
        ensures granted { (parts self.now.mind [] 0).granted ≡ true → (bytes : List ℕ) → 1 < length (D.state self.now.main).holds → Contains (versions_of (D.state self.now.main).holds 1) bytes → (parts self.now.mind [] 0).next < number_at Four 22 bytes }
    {}
}
