//! Laws of calls in memory. Each function does nothing: its contract is the law, so that the law is proved with the crate.
ghost use Rattle.std.specs.Prelude.{Bool, List};
ghost use Rattle.fo_disk.specs.Disk.{Content as Holds};
ghost use Rattle.fo_cells.specs.Device.{known};
ghost use Rattle.fo_cells_held.specs.Room.{Used};
ghost use Rattle.fo_cells_queue.specs.of_cells_epochs.Epochs.{HasEpochs};
ghost use Rattle.fo_cells_queue.specs.Queue.{IsQueue};
ghost use Rattle.fo_cells_all.specs.All.{Kept, Format, HoldsAll, HoldsBeside, StepsBeside};

use crate::device::Divided;

/// A call in memory: what `fo_cells_epochs` and `fo_cells_queue` say of its step, and what it does beside, keep the whole.
pub fn memory_keeps_all<T: Divided>(_tree: &T, _after: &T)
    ensures kept { (c d : Kept) (f : Format) (x : Used) (unsure : List Bool) (holds : Holds) → StepsBeside c d f x holds → (HasEpochs (known c.mind holds) c.high f.high_of c.doubts c.active c.roots → HasEpochs (known d.mind holds) d.high f.high_of d.doubts d.active d.roots) → (HasEpochs (known c.mind holds) c.high f.high_of c.doubts c.active c.roots → IsQueue (known c.mind holds) (T.tree _tree.now) c.high c.active c.roots c.past c.queue → IsQueue (known d.mind holds) (T.tree _after.now) d.high d.active d.roots d.past d.queue) → HoldsAll c f (T.tree _tree.now) unsure holds → HoldsAll d f (T.tree _after.now) unsure holds }
{}

/// The whole is its three parts; what is beside the trees and the removals is kept by itself, as over a snapshot, in which the removals are
/// not spoken of from when its root is given out until it counts.
pub fn parts_make_all<T: Divided>(_tree: &T)
    ensures parts { (c : Kept) (f : Format) (unsure : List Bool) (holds : Holds) → HoldsAll c f (T.tree _tree.now) unsure holds → HasEpochs (known c.mind holds) c.high f.high_of c.doubts c.active c.roots × IsQueue (known c.mind holds) (T.tree _tree.now) c.high c.active c.roots c.past c.queue × HoldsBeside c f unsure holds }
    ensures made { (c : Kept) (f : Format) (unsure : List Bool) (holds : Holds) → HasEpochs (known c.mind holds) c.high f.high_of c.doubts c.active c.roots → IsQueue (known c.mind holds) (T.tree _tree.now) c.high c.active c.roots c.past c.queue → HoldsBeside c f unsure holds → HoldsAll c f (T.tree _tree.now) unsure holds }
    ensures beside { (c d : Kept) (f : Format) (x : Used) (unsure : List Bool) (holds : Holds) → StepsBeside c d f x holds → HoldsBeside c f unsure holds → HoldsBeside d f unsure holds }
{}
