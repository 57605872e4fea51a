//! A cache with its device.
ghost use Rattle.std.specs.Prelude.{◌<◌, ◌≤◌, [], length};
ghost use Rattle.fo_disk.specs.Disk.{IsSettled};
ghost use Rattle.fo_mind.specs.MindParts.{parts};
ghost use Rattle.fo_mind.specs.Parts.{count_of};
ghost use Rattle.fo_cache.specs.Fits.{Fits, FitsLabels, FitsOne, fits_prop, labels_prop, one_prop};

use fo_disk::Disk;
use fo_mind::Mind;

/// A cache with its device.
#[derive(Drop)]
pub struct Cache<D: Disk> {
    pub main: D,
    pub mind: Mind,
    ghost sized: { count_of (parts mind [] 0).region ≤ D.size main },
    ghost spelled: { FitsLabels (parts mind (D.state main).holds 0) (D.state main).unsure } by { labels_prop (parts mind (D.state main).holds 0) (D.state main).unsure },
    ghost fits: { Fits (parts mind (D.state main).holds 0) (D.state main).unsure } by { fits_prop (parts mind (D.state main).holds 0) (D.state main).unsure },
    ghost first: { FitsOne (parts mind [] 0).one_bytes (parts mind [] 0).doubt (D.state main).holds } by { one_prop (parts mind [] 0).one_bytes (parts mind [] 0).doubt (D.state main).holds },
    ghost header: { 0 < length (D.state main).holds → IsSettled (D.state main).holds 0 },
}

impl<D: Disk> Cache<D> {
    ghost use Rattle.std.specs.Prelude.{◌≡◌, ◌<◌, ℕ, length};
    ghost use Rattle.fo_disk.specs.Disk.{IsSettled, latest_of, versions_of};
    ghost use Rattle.fo_labels.specs.Spelled.{SpellsLabels};
    ghost use Rattle.fo_mind.specs.Opened.{opened};

    /// A cache in which nothing is held, over a device that is settled, and has the labels and the super block that memory has, as far as it tells.
    pub fn open(main: D, mind: Mind) -> Cache<D>
        requires empty { parts mind [] 0 ≡ opened (parts mind [] 0).region (parts mind [] 0).one (parts mind [] 0).one_bytes }
        requires size { count_of (parts mind [] 0).region ≤ D.size main }
        requires settled { (b : ℕ) → b < length (D.state main).holds → IsSettled (D.state main).holds b }
        requires labels { (b : ℕ) → 2 ≤ b → b < (parts mind [] 0).region.first → b < length (D.state main).holds → SpellsLabels (parts mind [] 0).region b (latest_of (versions_of (D.state main).holds b)) }
        requires one { 1 < length (D.state main).holds → latest_of (versions_of (D.state main).holds 1) ≡ (parts mind [] 0).one_bytes }
        ensures main { result.main ≡ main }
        ensures mind { result.mind ≡ mind }
    {
        Cache { main, mind }
    }

    /// The device, with what it holds.
    pub fn close(self) -> D
        ensures { result ≡ self.main }
    {
        self.main
    }
}
