//! The blocks that were put last, which stay in memory.
ghost use Rattle.std.specs.Vec.{vec_len, vec_capacity};
ghost use Rattle.std.specs.Prelude.{◌≤◌, length};
ghost use Rattle.std.specs.List.{All};

use fo_base::Memory;
use std::alloc::Global;

/// How many blocks stay at hand: those that were put last.
pub const RECENT: usize = 16;

/// The bytes of a block that was put, and its place.
#[derive(Drop)]
pub(crate) struct Recalled {
    pub(crate) place: u32,
    pub(crate) bytes: Vec<u8>,
}

/// The blocks that were put last, the latest last. No two have one place.
#[derive(Drop)]
pub(crate) struct Recent {
    pub(crate) blocks: Vec<Recalled>,
    ghost few: { vec_len blocks ≤ 16 },
    ghost room: { 16 ≤ vec_capacity blocks },
    ghost fit: { All (λ r. length r.bytes.items ≤ 8192) blocks.items },
}

impl Recent {
    ghost use Rattle.std.specs.Prelude.{◌≡◌, ◌==◌, ◌<◌, ◌∷◌, ◌++◌, [], length, position, IfOk, IfSome};
    ghost use Rattle.std.specs.List.{filter};
    ghost use Rattle.venti_store.specs.Recent.{is_another, latest};

    /// None yet.
    pub(crate) fn new(alloc: Global) -> Result<Recent, Memory>
        ensures { IfOk result (λ r. r.blocks.items ≡ []) }
    {
        Ok(Recent {
            blocks: Vec::with_capacity(alloc, RECENT)?,
        })
    }

    /// Where the block of this place is among them.
    pub(crate) fn find(&self, place: u32) -> Option<usize>
        ensures found { result ≡ position (λ r. r.place == place) self.now.blocks.items }
        ensures within { IfSome result (λ i. i < length self.now.blocks.items) }
    {
        self.blocks.iter().position(|r| r.place == place)
    }

    // Those but the one of this place.
    fn forget(&mut self, place: u32)
        ensures { self.new.blocks.items ≡ filter (is_another place) self.old.blocks.items }
    {
        self.blocks.retain(|r| r.place != place);
    }

    /// Puts a block behind them. The oldest goes where there are too many.
    pub(crate) fn add(&mut self, place: u32, bytes: Vec<u8>)
        requires { length bytes.items ≤ 8192 }
        ensures { self.new.blocks.items ≡ latest 16 (filter (is_another place) self.old.blocks.items ++ (record { place = place; bytes = bytes }) ∷ []) }
    {
        self.forget(place);
        if self.blocks.len() == RECENT {
            self.blocks.remove(0);
        }
        self.blocks.push_reserved(Recalled { place, bytes });
    }
}
