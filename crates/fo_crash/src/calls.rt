//! Where slots lead, and what is left of one that is cleared.
ghost use Rattle.std.specs.Prelude.{◌≡◌, ◌+◌, ◌-◌, ◌*◌, ◌^◌, ◌<◌};
ghost use Rattle.fo_crash.specs.Images.{kind_of_top};
ghost use Rattle.fo_crash.specs.Places.{place, place_below, tag_of_top, rank_of_top};

use crate::{Place, Slot};
use fo_base::POINTERS;
use fo_image::{Entry, Kind, Pointer};

impl Slot {
    ghost use Rattle.std.specs.Prelude.{◌↔◌, IsTrue};
    ghost use Rattle.fo_crash.specs.Images.{target};
    ghost use Rattle.fo_crash.specs.Steps.{cleared};
    ghost use Rattle.fo_crash.specs.Names.{SameUse};

    /// Where the slot leads within its tree: the root block before is not followed.
    pub fn target(&self) -> Pointer
        ensures { result ≡ target self.now }
    {
        match self {
            Slot::Pointer(pointer) => *pointer,
            Slot::Entry(entry) => entry.top,
            Slot::Prev(_, _) => Pointer::Nil,
        }
    }

    /// What is left of the slot when it is cleared: of an entry its generation alone.
    pub fn cleared(&self) -> Slot
        ensures { result ≡ cleared self.now }
    {
        match self {
            Slot::Pointer(_) => Slot::Pointer(Pointer::Nil),
            Slot::Entry(entry) => Slot::Entry(Entry {
                generation: entry.generation,
                active: false,
                dir: false,
                depth: 0,
                tag: 0,
                size: 0,
                top: Pointer::Nil,
            }),
            Slot::Prev(_, _) => Slot::Prev(0, 0),
        }
    }

    /// Whether two slots are equal, or two entries are but for size, depth and top.
    pub fn same_use(&self, other: &Slot) -> bool
        ensures { IsTrue result ↔ SameUse self.now other.now }
    {
        match (self, other) {
            (Slot::Entry(a), Slot::Entry(b)) => {
                a.generation == b.generation
                    && a.active == b.active
                    && a.dir == b.dir
                    && a.tag == b.tag
            }
            (a, b) => a == b,
        }
    }
}

impl Place {
    /// The place of the block to which slot `i` of the block at this place leads.
    pub fn below(&self, i: u32, slot: &Slot) -> Place
        requires index { 409 * self.now.index + i < 2 ^ 64 }
        requires rank { self.now.rank < 2 ^ 31 }
        ensures { result ≡ place_below self.now i slot.now }
    {
        match self.kind {
            Kind::Data(0) => self.lower(i, Kind::Data(0)),
            Kind::Data(level) => self.lower(i, Kind::Data(level - 1)),
            Kind::Dir(0) => top_place(self.rank, i, slot),
            Kind::Dir(level) => self.lower(i, Kind::Dir(level - 1)),
            Kind::Root => top_place(self.rank.saturating_sub(24), i, slot),
        }
    }

    // the place of block i of those below, in the same source
    fn lower(&self, i: u32, kind: Kind) -> Place
        requires { 409 * self.now.index + i < 2 ^ 64 }
        ensures { result ≡ place kind self.now.tag (409 * self.now.index + i) (self.now.rank - 1) }
    {
        Place {
            kind,
            tag: self.tag,
            index: POINTERS as u64 * self.index + i as u64,
            rank: self.rank.saturating_sub(1),
        }
    }
}

// the place at the top of the source that slot i of an entry leaf of this rank names
fn top_place(rank: u32, i: u32, slot: &Slot) -> Place
    requires { rank < 2 ^ 31 }
    ensures { result ≡ place (kind_of_top slot.now) (tag_of_top slot.now) 0 (rank_of_top rank i slot.now) }
{
    let (kind, tag, rank) = match slot {
        Slot::Entry(entry) if entry.dir => (
            Kind::Dir(entry.depth),
            entry.tag,
            rank.saturating_sub(32) + entry.depth as u32,
        ),
        Slot::Entry(entry) if i % 2 == 0 => (
            Kind::Data(entry.depth),
            entry.tag,
            rank.saturating_sub(8) + entry.depth as u32,
        ),
        Slot::Entry(entry) => (
            Kind::Data(entry.depth),
            entry.tag,
            rank.saturating_sub(24) + entry.depth as u32,
        ),
        _ => (Kind::Root, 1, 2144),
    };
    Place {
        kind,
        tag,
        index: 0,
        rank,
    }
}
