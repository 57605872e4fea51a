//! The blocks that were stored.
ghost use Rattle.std.specs.Prelude.{◌≡◌, ℕ, Some};
ghost use Rattle.std.specs.BTreeMap.{get};
ghost use Rattle.fo_image.specs.declared.types.Score.{Score};
ghost use Rattle.fo_image.specs.Format.{IsScore};
ghost use Rattle.fo_arch_form.specs.Keys.{key_cmp};

use fo_base::Memory;
use fo_image::{Pointer, Score};
use fo_vacput::EMPTY;
use std::alloc::Global;
use std::collections::BTreeMap;

/// The score under which each block was stored, by its address and its kind in the arena.
#[derive(Drop)]
pub struct Stored {
    scores: BTreeMap<(u32, u8), Score>,
    ghost real: { (key : ℕ × ℕ) (score : Score) → get key_cmp scores key ≡ Some score → IsScore score.0 },
}

impl Stored {
    ghost use Rattle.std.specs.Prelude.{None, ◌+◌, IfSome, MatchResult, OnOk, OnErr, ◌≢◌};
    ghost use Rattle.fo_image.specs.Format.{PointerHolds};
    ghost use Rattle.fo_image.specs.declared.types.Pointer.TheVariants.{Local};
    ghost use Rattle.fo_arch_form.specs.Stored.{found, count_of, score_under, Adds};

    /// Nothing was stored.
    pub fn new(alloc: Global) -> Stored
        ensures none { (at kind : ℕ) → found result at kind ≡ None }
        ensures count { count_of result ≡ 0 }
    {
        Stored {
            scores: BTreeMap::new(alloc),
        }
    }

    /// How many blocks were stored.
    pub fn count(&self) -> usize
        ensures { result ≡ count_of self.now }
    {
        self.scores.len()
    }

    /// The score under which the block of this address and kind was stored.
    pub fn score(&self, at: u32, kind: u8) -> Option<Score>
        ensures found { result ≡ found self.now at kind }
        ensures score { IfSome result (λ s. IsScore s.0) }
    {
        self.scores.get(&(at, kind)).copied()
    }

    /// The score of what a pointer to a block of this kind names; the address of a block that isn't stored.
    pub fn score_under(&self, kind: u8, pointer: Pointer) -> Result<Score, u32>
        requires { PointerHolds pointer }
        ensures score { MatchResult result (λ s. (score_under self.now kind pointer ≡ Some s) × IsScore s.0) (λ at. (pointer ≡ Local at) × (found self.now at kind ≡ None)) }
    {
        match pointer {
            Pointer::Nil => Ok(EMPTY),
            Pointer::Score(score) => Ok(score),
            Pointer::Local(at) => self.score_at(at, kind),
        }
    }

    fn score_at(&self, at: u32, kind: u8) -> Result<Score, u32>
        ensures { MatchResult result (λ s. (found self.now at kind ≡ Some s) × IsScore s.0) (λ a. (a ≡ at) × (found self.now at kind ≡ None)) }
    {
        match self.score(at, kind) {
            Some(score) => Ok(score),
            None => Err(at),
        }
    }

    /// Notes that the block of this address and kind was stored. Where there is no memory, nothing changes.
    pub fn add(&mut self, at: u32, kind: u8, score: Score) -> Result<(), Memory>
        requires { IsScore score.0 }
        ensures adds { MatchResult result (λ _. Adds at kind score self.old self.new) (λ _. (a k : ℕ) → found self.new a k ≡ found self.old a k) }
        ensures count { MatchResult result (λ _. found self.old at kind ≡ None → count_of self.new ≡ count_of self.old + 1) (λ _. count_of self.new ≡ count_of self.old) }
    {
        self.scores.insert((at, kind), score)?;
        Ok(())
    }
}
