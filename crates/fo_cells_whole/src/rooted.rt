//! A device with the list of what stands there.
ghost use Rattle.std.specs.Prelude.{◌≡◌, ℕ, List};
ghost use Rattle.fo_crash.specs.declared.place.Place.{Place};
ghost use Rattle.fo_crash.specs.Images.{Content};
ghost use Rattle.fo_cells.specs.Device.{Mind};
ghost use Rattle.fo_cells_whole.specs.Tops.{IsRooted, noted_sync};

use fo_cells::settle;
use fo_disk::{Disk, Failed};

/// What a cache knows of blocks beside its device and its tops.
pub trait Knows {
    /// Memory, labels, waits, and what is known of writes.
    ghost mind: { Self → Mind };

    /// The place at which a top stands.
    ghost place: { Self → ℕ → Place };

    /// The high epoch.
    ghost high: { Self → ℕ };

    /// The super block in doubt, where there is one.
    ghost doubts: { Self → List Content };

    /// Notes how a sync was answered.
    fn note_sync(&mut self, ok: bool)
        ensures mind { mind self.new ≡ noted_sync ok (mind self.old) }
        ensures place { place self.new ≡ place self.old }
        ensures high { high self.new ≡ high self.old }
        ensures doubts { doubts self.new ≡ doubts self.old };
}

/// A device with what is known of it, and the blocks that stand whatever is found there: block 1, roots of kept snapshots, and what was made.
/// The invariant holds at every moment, where the device tells what it holds; it holds of no list of tops without block 1.
#[derive(Drop)]
pub struct Rooted<D: Disk, K: Knows> {
    pub(crate) main: D,
    pub(crate) known: K,
    pub(crate) tops: Vec<u32>,
    ghost rooted: { IsRooted (K.mind known) (K.place known) (K.high known) (K.doubts known) tops.items (D.state main).unsure (D.state main).holds },
}

impl<D: Disk, K: Knows> Rooted<D, K> {
    ghost use Rattle.fo_base.specs.Cause.{HasCause};
    ghost use Rattle.fo_disk.specs.Disk.{IsSync};
    ghost use Rattle.std.specs.Prelude.{is_err, not};

    /// Settles what was written. The invariant is kept, whatever the device answers, and so are the tops; only an answer Ok is noted as one.
    pub fn settle(&mut self) -> Result<(), Failed>
        ensures tops { self.new.tops.items ≡ self.old.tops.items }
        ensures mind { K.mind self.new.known ≡ noted_sync (not (is_err result)) (K.mind self.old.known) }
        ensures state { IsSync result (D.state self.old.main) (D.state self.new.main) }
        ensures cause { HasCause (D.faults self.old.main) (D.faults self.new.main) result }
    {
        let answer = settle(&mut self.main);
        self.known.note_sync(answer.is_ok());
        answer
    }
}
