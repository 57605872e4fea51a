//! The index of an arena in memory: the lines of the used places, and the place of each score and kind.
ghost use Rattle.std.specs.Prelude.{◌≡◌, ◌≢◌, true, false, ◌+◌, ◌<◌, ◌^◌, ◌∷◌, ◌++◌, [], ℕ, Some, None, length, OnOk, OnErr, IfSome, IfNone};
ghost use Rattle.std.specs.BTreeMap.{get};
ghost use Rattle.sha1.specs.Sha1.{sha1};
ghost use Rattle.fo_image.specs.Format.{ArenaLineHolds};
ghost use Rattle.venti_store.specs.Held.{Name, line_at, name_of, HasName};
ghost use Rattle.venti_store.specs.Names.{name_cmp};

use fo_base::Memory;
use fo_image::{ArenaLine, Score};
use std::alloc::Global;
use std::collections::BTreeMap;

/// The score of the empty block.
const EMPTY: [u8; 20] = [
    0xda, 0x39, 0xa3, 0xee, 0x5e, 0x6b, 0x4b, 0x0d, 0x32, 0x55, 0xbf, 0xef, 0x95, 0x60, 0x18, 0x90,
    0xaf, 0xd8, 0x07, 0x09,
];

/// Whether a score is that of the empty block.
pub(crate) fn is_empty(score: &Score) -> bool
    ensures yes { result ≡ true → score.now.0 ≡ sha1 [] }
    ensures no { result ≡ false → score.now.0 ≢ sha1 [] }
{
    score.0 == EMPTY
}

/// The lines of the used places in their order, and the place of each score and kind.
#[derive(Drop)]
pub(crate) struct Index {
    pub(crate) lines: Vec<ArenaLine>,
    places: BTreeMap<([u8; 20], u8), u32>,
    ghost spelled: { (place : ℕ) → place < length lines.items → ArenaLineHolds (line_at lines.items place) },
    ghost found: { (place : ℕ) → place < length lines.items → get name_cmp places (name_of (line_at lines.items place)) ≡ Some place },
    ghost used: { (name : Name) (place : ℕ) → get name_cmp places name ≡ Some place → place < length lines.items },
    ghost named: { (name : Name) (place : ℕ) → get name_cmp places name ≡ Some place → name_of (line_at lines.items place) ≡ name },
}

impl Index {
    /// The index of an empty arena.
    pub(crate) fn new(alloc: Global) -> Index
        ensures { result.lines.items ≡ [] }
    {
        Index {
            lines: Vec::new(alloc),
            places: BTreeMap::new(alloc),
        }
    }

    /// The place of the block with this score and kind.
    pub(crate) fn place(&self, score: &Score, kind: u8) -> Option<u32>
        ensures found { IfSome result (λ place. HasName self.now.lines.items score.now.0 kind place) }
        ensures none { IfNone result ((place : ℕ) → ¬ HasName self.now.lines.items score.now.0 kind place) }
    {
        let score = score.0;
        self.places.get(&(score, kind)).copied()
    }

    /// Adds the line of the next place, of a score and a kind that no place has. Where there is no memory, nothing changes.
    pub(crate) fn add(&mut self, line: ArenaLine) -> Result<(), Memory>
        requires few { length self.old.lines.items < 2 ^ 20 }
        requires spelled { ArenaLineHolds line }
        requires fresh { (place : ℕ) → ¬ HasName self.old.lines.items line.score.0 line.kind place }
        ensures added { OnOk result (self.new.lines.items ≡ self.old.lines.items ++ line ∷ []) }
        ensures same { OnErr result (self.new.lines.items ≡ self.old.lines.items) }
    {
        self.lines.reserve(1)?;
        let place = self.lines.len() as u32;
        let score = line.score.0;
        self.places.insert((score, line.kind), place)?;
        self.lines.push_reserved(line);
        Ok(())
    }
}
