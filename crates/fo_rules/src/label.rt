//! The label of a block of a tree.
ghost use Rattle.std.specs.Prelude.{◌≡◌, ◌↔◌, IsTrue};
ghost use Rattle.fo_image.specs.declared.types.Label.{Label};
ghost use Rattle.fo_good.specs.Trees.{MayHave};
ghost use Rattle.fo_rules.specs.Label.{IsInUse};

use fo_crash::Place;
use fo_image::{Label, State};

/// Whether a block at this place, in the tree of this epoch, below a block with the label `above`, may have this label.
pub fn may_have(label: &Label, above: &Label, place: &Place, epoch: u32, active: bool) -> bool
    ensures { IsTrue result ↔ MayHave epoch active place.now above.now label.now }
{
    label.kind == place.kind
        && label.tag == place.tag
        && label.epoch <= above.epoch
        && label.epoch <= epoch
        && is_in_use(label, epoch, active)
}

/// Whether the tree of this epoch may hold a block with this label.
fn is_in_use(label: &Label, epoch: u32, active: bool) -> bool
    ensures { IsTrue result ↔ IsInUse epoch active label.now }
{
    match label.state {
        State::Free => false,
        State::Live => true,
        State::Closed => !active && epoch < label.closing,
    }
}
