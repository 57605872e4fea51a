//! Where a walk is.
ghost use Rattle.std.specs.Prelude.{◌≡◌, ◌<◌, ◌≤◌, ◌^◌};
ghost use Rattle.fo_image.specs.Format.{KindHolds};
ghost use Rattle.fo_crash.specs.Places.{place_below};
ghost use Rattle.fo_arch_walk.specs.Spots.{arena_code, place_of};

use fo_crash::{Place, Slot};
use fo_image::Kind;

/// A block that a walk comes to: its address, its kind and its rank.
#[derive(Clone, Copy, Debug, PartialEq, Eq)]
pub struct Spot {
    pub at: u32,
    pub kind: Kind,
    pub rank: u32,
}

/// The kind in the arena of a block of this kind: a root block becomes a top block.
pub fn arena_code(kind: Kind) -> u8
    requires { KindHolds kind }
    ensures { result ≡ arena_code kind }
{
    match kind {
        Kind::Data(level) => level,
        Kind::Dir(level) => 8 + level,
        Kind::Root => 17,
    }
}

/// The block at an address to which slot `i` leads.
pub(crate) fn spot_below(spot: Spot, i: u32, slot: &Slot, at: u32) -> Spot
    requires low { spot.rank < 2 ^ 31 }
    ensures at { result.at ≡ at }
    ensures kind { result.kind ≡ (place_below (place_of spot) i slot.now).kind }
    ensures rank { result.rank ≡ (place_below (place_of spot) i slot.now).rank }
{
    let here = Place {
        kind: spot.kind,
        tag: 0,
        index: 0,
        rank: spot.rank,
    };
    let below = here.below(i, slot);
    Spot {
        at,
        kind: below.kind,
        rank: below.rank,
    }
}
