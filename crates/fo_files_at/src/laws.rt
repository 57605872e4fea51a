//! What a way says of the file at its end.
ghost use Rattle.std.specs.Prelude.{◌≡◌, ◌+◌, ◌-◌, ◌*◌, ◌<◌, ◌≤◌, ℕ, List, length, slice_index};
ghost use Rattle.fo_files_at.specs.Held.{FileHolds};
ghost use Rattle.fo_files_at.specs.Way.{IsWay};

use crate::at::Way;
use fo_ports::Blocks;

/// The file at the end of a way from this root block holds, has the last number of the trail, and its rank says how long the trail is.
pub fn way_ends<B: Blocks>(on: &B, way: &Way, root: u32)
    ensures holds { (trail : List ℕ) → IsWay (B.state on.now) root trail way.now → FileHolds (B.state on.now) way.now.file }
    ensures rank { (trail : List ℕ) → IsWay (B.state on.now) root trail way.now → way.now.file.rank + 32 * length trail ≡ 2120 }
    ensures number { (trail : List ℕ) → IsWay (B.state on.now) root trail way.now → 0 < length trail → way.now.file.named.number ≡ slice_index trail (length trail - 1) }
{}
