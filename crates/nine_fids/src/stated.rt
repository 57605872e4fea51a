//! The state of files.
use fo_world::FileOps;

/// What contracts say of any files at a moment: all that `FileOps` tells of one state, in one record.
pub trait Stated {
    ghost use Rattle.nine_fids.specs.Looking.{FilesState};

    ghost state: { Self → FilesState };
}

impl<F: FileOps> Stated for F {
    ghost state = { λ f. record {
      how = record { whole = F.whole f; largest = F.largest f };
      world = F.world f;
      faults = F.faults f;
      honest = F.honest f;
      has_room = F.has_room f;
    } };
}
