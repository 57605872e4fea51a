//! The label of the active root.
ghost use Rattle.std.specs.Prelude.{◌≡◌};
ghost use Rattle.fo_sound.specs.Sound.{root_label};

use fo_image::{Kind, Label, State, Super};

/// The label that the active root has by a super block: live, of kind root, tag 1 and the high epoch.
pub fn root_label(s: &Super) -> Label
    ensures { result ≡ root_label s.now }
{
    Label {
        state: State::Live,
        kind: Kind::Root,
        tag: 1,
        epoch: s.high,
        closing: u32::MAX,
    }
}
