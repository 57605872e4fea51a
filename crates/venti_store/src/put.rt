//! The calls that put and get blocks.
use crate::index::is_empty;
use crate::read::{compare, copy_of, read_stored};
use crate::{Arena, ArenaError};
use fo_disk::{Disk, DiskFault};
use fo_image::{ArenaLine, Score, is_score, stored_block};
use sha1::Sha1;

/// How many blocks may wait in memory.
const MOST_WAITING: usize = 512;

impl<A: Disk> Arena<A> {
    ghost use Rattle.std.specs.Prelude.{◌≡◌, ◌+◌, ◌<◌, ◌≤◌, ◌++◌, ◌∷◌, ℕ, List, [], true, length, MatchResult, MatchOption, OnOk, OnErr, IfOk, IfErr, IfSome, IfNone};
    ghost use Rattle.fo_disk.specs.Disk.{Since};
    ghost use Rattle.fo_image.specs.Format.{IsScore, is_arena_kind};
    ghost use Rattle.fo_image.specs.Place.{arena_places};
    ghost use Rattle.sha1.specs.Sha1.{sha1};
    ghost use Rattle.venti_store.specs.Held.{stored_at, HasName, IsNamed, IsHeld, Recovers};
    ghost use Rattle.venti_store.specs.Kept.{waits, settled_count};
    ghost use Rattle.venti_store.specs.Arena.{lines_of, Keeps, IsAtHand, IsInMemory, IsLatest, recent_of, settle_calls, IsPlaceOf, line_for, PutsLine, PutsBytes, TakesNone, IsUntouched, LookRefuses, GetRefuses, PutRefuses, RefusesHeld, AppendRefuses, IsReadOrMemory, IsWriteOrSync, HasCauses};

    /// The bytes of a place in use, which are not recalled.
    fn read_place(&mut self, place: u32) -> Result<Vec<u8>, ArenaError>
        requires { place < length (lines_of self.old.shelf) }
        ensures read { (stored : List (List ℕ)) (synced : ℕ) → Keeps self.old.shelf stored synced (A.state self.old.device) → IfOk result (λ v. v.items ≡ stored_at stored place) }
        ensures short { IfOk result (λ v. length v.items ≤ 8192) }
        ensures waits { settled_count (lines_of self.old.shelf) (waits self.old.shelf.pending.items) ≤ place → A.calls self.new.device ≡ A.calls self.old.device }
        ensures calls { A.calls self.new.device ≤ A.calls self.old.device + 1 }
        ensures shelf { self.new.shelf ≡ self.old.shelf }
        ensures kept { A.state self.new.device ≡ A.state self.old.device }
        ensures cause { HasCauses (A.faults self.old.device) (A.faults self.new.device) result }
        ensures fault { IfErr result IsReadOrMemory }
    {
        let shelf = &self.shelf;
        let settled = shelf.index.lines.len() - shelf.pending.len();
        if settled <= place as usize {
            let waiting = &shelf.pending[place as usize - settled];
            return copy_of(self.alloc, &waiting.bytes);
        }
        let len = shelf.index.lines[place as usize].len;
        read_stored(self.alloc, &mut self.device, place, len)
    }

    /// The bytes of a place in use.
    fn bytes_of(&mut self, place: u32) -> Result<Vec<u8>, ArenaError>
        requires { place < length (lines_of self.old.shelf) }
        ensures read { (stored : List (List ℕ)) (synced : ℕ) → Keeps self.old.shelf stored synced (A.state self.old.device) → IfOk result (λ v. v.items ≡ stored_at stored place) }
        ensures short { IfOk result (λ v. length v.items ≤ 8192) }
        ensures at_hand { IsInMemory self.old.shelf place → A.calls self.new.device ≡ A.calls self.old.device }
        ensures calls { A.calls self.new.device ≤ A.calls self.old.device + 1 }
        ensures shelf { self.new.shelf ≡ self.old.shelf }
        ensures kept { A.state self.new.device ≡ A.state self.old.device }
        ensures cause { HasCauses (A.faults self.old.device) (A.faults self.new.device) result }
        ensures fault { IfErr result IsReadOrMemory }
    {
        let recent = &self.shelf.recent;
        if let Some(i) = recent.find(place) {
            return copy_of(self.alloc, &recent.blocks[i].bytes);
        }
        self.read_place(place)
    }

    /// The bytes that are held under a score and a kind, which hash to the score.
    fn look(&mut self, score: &Score, kind: u8) -> Result<Option<Vec<u8>>, ArenaError>
        ensures finds { MatchResult result (λ found. MatchOption found (¬ IsNamed (lines_of self.old.shelf) score.now.0 kind) (λ v. IsNamed (lines_of self.old.shelf) score.now.0 kind × (sha1 v.items ≡ score.now.0))) (LookRefuses (lines_of self.old.shelf) score.now.0 kind) }
        ensures short { IfOk result (λ found. IfSome found (λ v. length v.items ≤ 8192)) }
        ensures held { (stored : List (List ℕ)) (synced : ℕ) → Keeps self.old.shelf stored synced (A.state self.old.device)
            → MatchResult result (λ found. MatchOption found (Unit {0}) (λ v. IsHeld (lines_of self.old.shelf) stored score.now.0 kind v.items)) (RefusesHeld (lines_of self.old.shelf) stored score.now.0 kind) }
        ensures none { IfOk result (λ found. IfNone found (A.calls self.new.device ≡ A.calls self.old.device)) }
        ensures at_hand { IsAtHand self.old.shelf score.now.0 kind → A.calls self.new.device ≡ A.calls self.old.device }
        ensures calls { A.calls self.new.device ≤ A.calls self.old.device + 1 }
        ensures shelf { self.new.shelf ≡ self.old.shelf }
        ensures kept { A.state self.new.device ≡ A.state self.old.device }
        ensures cause { HasCauses (A.faults self.old.device) (A.faults self.new.device) result }
    {
        if is_empty(score) {
            return Ok(Some(Vec::new(self.alloc)));
        }
        let Some(place) = self.shelf.index.place(score, kind) else {
            return Ok(None);
        };
        let bytes = self.bytes_of(place)?;
        let digest = Sha1::digest(&bytes);
        if score.0 == digest {
            return Ok(Some(bytes));
        }
        Err(ArenaError::Damaged(stored_block(place)))
    }

    /// Settles the blocks that wait where they are too many.
    fn make_room(&mut self) -> Result<(), ArenaError>
        ensures keeps { (stored : List (List ℕ)) (synced : ℕ) → Keeps self.old.shelf stored synced (A.state self.old.device) → Keeps self.new.shelf stored synced (A.state self.new.device) }
        ensures moments { (stored : List (List ℕ)) (synced : ℕ) → Keeps self.old.shelf stored synced (A.state self.old.device)
            → Since (A.state self.old.device).moments (A.state self.new.device).moments (Recovers synced (lines_of self.old.shelf) stored) }
        ensures calls { A.calls self.new.device ≤ A.calls self.old.device + settle_calls self.old.shelf }
        ensures blocks { self.new.shelf.blocks ≡ self.old.shelf.blocks }
        ensures index { self.new.shelf.index ≡ self.old.shelf.index }
        ensures recent { self.new.shelf.recent ≡ self.old.shelf.recent }
        ensures cause { HasCauses (A.faults self.old.device) (A.faults self.new.device) result }
        ensures fault { IfErr result IsWriteOrSync }
    {
        if self.shelf.pending.len() < MOST_WAITING {
            return Ok(());
        }
        match self.settle() {
            Ok(()) => Ok(()),
            Err(DiskFault::Sync) => Err(ArenaError::ArenaSync),
            Err(_) => Err(ArenaError::ArenaWrite),
        }
    }

    /// Puts a block that is not held.
    fn append(&mut self, score: Score, kind: u8, bytes: &[u8]) -> Result<(), ArenaError>
        requires score { score.0 ≡ sha1 bytes.now }
        requires spelled { IsScore score.0 }
        requires kind { is_arena_kind kind ≡ true }
        requires length { length bytes.now ≤ 8192 }
        requires fresh { ¬ IsNamed (lines_of self.old.shelf) score.0 kind }
        ensures added { OnOk result (lines_of self.new.shelf ≡ lines_of self.old.shelf ++ line_for kind bytes.now ∷ []) }
        ensures recent { self.new.shelf.recent ≡ self.old.shelf.recent }
        ensures same { OnErr result (lines_of self.new.shelf ≡ lines_of self.old.shelf) }
        ensures refused { IfErr result (AppendRefuses self.old.shelf.blocks (lines_of self.old.shelf)) }
        ensures full { length (lines_of self.old.shelf) ≡ arena_places self.old.shelf.blocks
            → IsUntouched self.old.shelf self.new.shelf (A.state self.old.device) (A.state self.new.device) × (A.calls self.new.device ≡ A.calls self.old.device) }
        ensures keeps { (stored : List (List ℕ)) (synced : ℕ) → Keeps self.old.shelf stored synced (A.state self.old.device)
            → MatchResult result (λ _. Keeps self.new.shelf (stored ++ bytes.now ∷ []) synced (A.state self.new.device)) (λ _. Keeps self.new.shelf stored synced (A.state self.new.device)) }
        ensures moments { (stored : List (List ℕ)) (synced : ℕ) → Keeps self.old.shelf stored synced (A.state self.old.device)
            → Since (A.state self.old.device).moments (A.state self.new.device).moments (Recovers synced (lines_of self.old.shelf) stored) }
        ensures calls { A.calls self.new.device ≤ A.calls self.old.device + settle_calls self.old.shelf }
        ensures blocks { self.new.shelf.blocks ≡ self.old.shelf.blocks }
        ensures cause { HasCauses (A.faults self.old.device) (A.faults self.new.device) result }
    {
        if self.places() <= self.used() {
            return Err(ArenaError::ArenaFull);
        }
        self.make_room()?;
        let line = ArenaLine {
            score,
            kind,
            len: bytes.len() as u16,
        };
        match self.shelf.add(self.alloc, line, bytes) {
            Ok(()) => Ok(()),
            Err(_) => Err(ArenaError::Memory),
        }
    }

    /// Puts a block, and gives its score: the SHA-1 hash of its bytes (FIPS 180-4). A block that is held takes no place.
    ///
    /// `BadScore` comes before all else. A refused call changes neither what is held nor how many places are used.
    pub fn put(&mut self, kind: u8, bytes: &[u8]) -> Result<Score, ArenaError>
        requires kind { is_arena_kind kind ≡ true }
        requires length { length bytes.now ≤ 8192 }
        ensures score { IfOk result (λ s. (s.0 ≡ sha1 bytes.now) × IsScore s.0) }
        ensures lines { MatchResult result (λ _. PutsLine kind bytes.now (lines_of self.old.shelf) (lines_of self.new.shelf)) (λ _. lines_of self.new.shelf ≡ lines_of self.old.shelf) }
        ensures refused { IfErr result (PutRefuses self.old.shelf.blocks (lines_of self.old.shelf) kind bytes.now) }

        // Over a device that tells what it holds, all that was held stays, and these bytes are held.
        ensures keeps { (stored : List (List ℕ)) (synced : ℕ) → Keeps self.old.shelf stored synced (A.state self.old.device)
            → MatchResult result (λ _. (now : List (List ℕ)) × PutsBytes kind bytes.now (lines_of self.old.shelf) stored now × Keeps self.new.shelf now synced (A.state self.new.device))
            (λ e. Keeps self.new.shelf stored synced (A.state self.new.device) × RefusesHeld (lines_of self.old.shelf) stored (sha1 bytes.now) kind e) }

        // Each image of each moment is an arena in which at least what was synced is held.
        ensures moments { (stored : List (List ℕ)) (synced : ℕ) → Keeps self.old.shelf stored synced (A.state self.old.device)
            → Since (A.state self.old.device).moments (A.state self.new.device).moments (Recovers synced (lines_of self.old.shelf) stored) }

        // Only a block that is not held is written, and only where a place is left for it. Else nothing is written or waits
        // to be, and one block is read at most.
        ensures unwritten { TakesNone self.old.shelf.blocks (lines_of self.old.shelf) kind bytes.now
            → IsUntouched self.old.shelf self.new.shelf (A.state self.old.device) (A.state self.new.device) × (A.calls self.new.device ≤ A.calls self.old.device + 1) }

        // A block that is put is at hand then, held before or not: it is the latest of the last sixteen. One that was at hand costs no
        // call of the device, and any other no more than to settle those that wait.
        ensures put { OnOk result (IsAtHand self.new.shelf (sha1 bytes.now) kind) }
        ensures recent { MatchResult result (λ _. IsLatest (sha1 bytes.now) kind self.old.shelf self.new.shelf) (λ _. recent_of self.new.shelf ≡ recent_of self.old.shelf) }
        ensures at_hand { IsAtHand self.old.shelf (sha1 bytes.now) kind → A.calls self.new.device ≡ A.calls self.old.device }

        ensures calls { A.calls self.new.device ≤ A.calls self.old.device + settle_calls self.old.shelf }
        ensures blocks { self.new.shelf.blocks ≡ self.old.shelf.blocks }
        ensures cause { HasCauses (A.faults self.old.device) (A.faults self.new.device) result }
    {
        let digest = Sha1::digest(bytes);
        let score = Score(digest);
        self.put_hashed(score, kind, bytes)?;
        Ok(score)
    }

    /// Puts a block whose score was computed elsewhere: what `put` does, without the hash.
    pub fn put_hashed(&mut self, score: Score, kind: u8, bytes: &[u8]) -> Result<(), ArenaError>
        requires hashed { score.0 ≡ sha1 bytes.now }
        requires kind { is_arena_kind kind ≡ true }
        requires length { length bytes.now ≤ 8192 }
        ensures score { OnOk result (IsScore score.0) }
        ensures lines { MatchResult result (λ _. PutsLine kind bytes.now (lines_of self.old.shelf) (lines_of self.new.shelf)) (λ _. lines_of self.new.shelf ≡ lines_of self.old.shelf) }
        ensures refused { IfErr result (PutRefuses self.old.shelf.blocks (lines_of self.old.shelf) kind bytes.now) }
        ensures keeps { (stored : List (List ℕ)) (synced : ℕ) → Keeps self.old.shelf stored synced (A.state self.old.device)
            → MatchResult result (λ _. (now : List (List ℕ)) × PutsBytes kind bytes.now (lines_of self.old.shelf) stored now × Keeps self.new.shelf now synced (A.state self.new.device))
            (λ e. Keeps self.new.shelf stored synced (A.state self.new.device) × RefusesHeld (lines_of self.old.shelf) stored (sha1 bytes.now) kind e) }
        ensures moments { (stored : List (List ℕ)) (synced : ℕ) → Keeps self.old.shelf stored synced (A.state self.old.device)
            → Since (A.state self.old.device).moments (A.state self.new.device).moments (Recovers synced (lines_of self.old.shelf) stored) }
        ensures unwritten { TakesNone self.old.shelf.blocks (lines_of self.old.shelf) kind bytes.now
            → IsUntouched self.old.shelf self.new.shelf (A.state self.old.device) (A.state self.new.device) × (A.calls self.new.device ≤ A.calls self.old.device + 1) }
        ensures put { OnOk result (IsAtHand self.new.shelf (sha1 bytes.now) kind) }
        ensures recent { MatchResult result (λ _. IsLatest (sha1 bytes.now) kind self.old.shelf self.new.shelf) (λ _. recent_of self.new.shelf ≡ recent_of self.old.shelf) }
        ensures at_hand { IsAtHand self.old.shelf (sha1 bytes.now) kind → A.calls self.new.device ≡ A.calls self.old.device }
        ensures calls { A.calls self.new.device ≤ A.calls self.old.device + settle_calls self.old.shelf }
        ensures blocks { self.new.shelf.blocks ≡ self.old.shelf.blocks }
        ensures cause { HasCauses (A.faults self.old.device) (A.faults self.new.device) result }
    {
        if !is_score(score) {
            return Err(ArenaError::BadScore);
        }
        match self.look(&score, kind)? {
            Some(held) => {
                let block = compare(self.alloc, held, bytes)?;
                self.shelf.remember(&score, kind, block);
                Ok(())
            }
            None => {
                let block = copy_of(self.alloc, bytes)?;
                self.append(score, kind, bytes)?;
                self.shelf.remember(&score, kind, block);
                Ok(())
            }
        }
    }

    /// Gets the block that is held under a score and a kind. Where it fails, `into` is unchanged.
    pub fn get(&mut self, score: &Score, kind: u8, into: &mut Vec<u8>) -> Result<(), ArenaError>
        ensures got { OnOk result ((sha1 into.new.items ≡ score.now.0) × IsNamed (lines_of self.old.shelf) score.now.0 kind) }
        ensures short { OnOk result (length into.new.items ≤ 8192) }
        ensures refused { IfErr result (GetRefuses (lines_of self.old.shelf) score.now.0 kind) }
        ensures nothing { OnErr result (into.new.items ≡ into.old.items) }

        // Over a device that tells what it holds, just what is held.
        ensures held { (stored : List (List ℕ)) (synced : ℕ) → Keeps self.old.shelf stored synced (A.state self.old.device)
            → MatchResult result (λ _. IsHeld (lines_of self.old.shelf) stored score.now.0 kind into.new.items) (RefusesHeld (lines_of self.old.shelf) stored score.now.0 kind) }

        // Nothing changes. It costs one read at most, and none of a block that is at hand.
        ensures at_hand { IsAtHand self.old.shelf score.now.0 kind → A.calls self.new.device ≡ A.calls self.old.device }
        ensures calls { A.calls self.new.device ≤ A.calls self.old.device + 1 }
        ensures shelf { self.new.shelf ≡ self.old.shelf }
        ensures kept { A.state self.new.device ≡ A.state self.old.device }
        ensures cause { HasCauses (A.faults self.old.device) (A.faults self.new.device) result }
    {
        match self.look(score, kind)? {
            Some(bytes) => {
                *into = bytes;
                Ok(())
            }
            None => Err(ArenaError::Absent),
        }
    }

    /// The device's block of the place that has a score and a kind; none where no place has them, as for the empty block.
    pub fn block_of(&self, score: &Score, kind: u8) -> Option<u32>
        ensures { MatchOption result ((place : ℕ) → ¬ HasName (lines_of self.now.shelf) score.now.0 kind place) (IsPlaceOf (lines_of self.now.shelf) score.now.0 kind) }
    {
        match self.shelf.index.place(score, kind) {
            Some(place) => Some(stored_block(place)),
            None => None,
        }
    }
}
