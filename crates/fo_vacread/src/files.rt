//! An archive that is open as files.
use crate::refuse::{no_change, no_create, no_remove, no_write};
use fo_base::Bytes;
use fo_disk::Disk;
use fo_vac_files::{Opened, find_at, info_at, next_at, parent_at, read_at};
use fo_world::{Change, FileError, FileOps, Info, Place};
use std::alloc::Global;
use venti_store::Arena;

/// The files of an archive, over the arena that holds it.
#[derive(Drop)]
pub struct VacFiles<'a, A: Disk> {
    pub(crate) alloc: Global,
    pub(crate) arena: &'a mut Arena<A>,
    pub(crate) opened: Opened,
}

impl<'a, A: Disk> VacFiles<'a, A> {
    ghost use Rattle.std.specs.Prelude.{◌≡◌};

    /// The files of an archive that was opened, over the arena that holds it.
    pub fn new(alloc: Global, arena: &'a mut Arena<A>, opened: Opened) -> VacFiles<'a, A>
        ensures same_arena { result.arena.ghost_name ≡ arena.entry.ghost_name }
        ensures arena { result.arena.now ≡ arena.old }
        ensures opened { result.opened ≡ opened }
    {
        VacFiles {
            alloc,
            arena,
            opened,
        }
    }
}

impl<A: Disk> FileOps for VacFiles<'_, A> {
    ghost use Rattle.std.specs.Prelude.{◌≡◌, ◌^◌, false, refl};
    ghost use Rattle.std.proofs.Common.{sym, ap, ◌∙◌};
    ghost use Rattle.std.proofs.lemmas.Bool.{false≢true};
    ghost use Rattle.fo_world.specs.declared.place.View.TheVariants.{Archive};
    ghost use Rattle.fo_vacread.specs.Honest.{IsHonest, holding_of};
    ghost use Rattle.fo_vacread.specs.Stays.{known, world_at, Stays, world_fits, stays_at_once, stays_joins, stays_honest, stays_silent, stays_faults};

    ghost world = { λ s. world_at s.arena.now.shelf (A.state s.arena.now.device) s.opened };

    ghost faults = { λ s. record { main = 0; arena = A.faults s.arena.now.device } };

    ghost has_room = { λ _ n. ⊥ };

    ghost honest = { λ s. IsHonest s.arena.now.shelf (A.state s.arena.now.device) s.opened.found.top };

    ghost largest = { λ _. 2 ^ 40 };

    ghost whole = { λ _. false };

    ghost serves = { λ s v. v ≡ Archive s.opened.found.root.epoch };

    ghost settled = { λ _. Unit {0} };

    ghost looks = { λ a b. Stays (known a.arena.now.shelf (A.state a.arena.now.device) (A.faults a.arena.now.device) a.opened) (known b.arena.now.shelf (A.state b.arena.now.device) (A.faults b.arena.now.device) b.opened) };

    ghost settles = { λ _ _. Unit {0} };

    ghost looks_at_once = { λ a. stays_at_once (known a.arena.now.shelf (A.state a.arena.now.device) (A.faults a.arena.now.device) a.opened) };

    ghost keeps = { λ a b. Stays (known a.arena.now.shelf (A.state a.arena.now.device) (A.faults a.arena.now.device) a.opened) (known b.arena.now.shelf (A.state b.arena.now.device) (A.faults b.arena.now.device) b.opened) };

    ghost touches = { λ a w n b. Stays (known a.arena.now.shelf (A.state a.arena.now.device) (A.faults a.arena.now.device) a.opened) (known b.arena.now.shelf (A.state b.arena.now.device) (A.faults b.arena.now.device) b.opened) };

    ghost keeps_at_once = { λ a. stays_at_once (known a.arena.now.shelf (A.state a.arena.now.device) (A.faults a.arena.now.device) a.opened) };

    ghost keeps_joins = { λ a b c p q. stays_joins (known a.arena.now.shelf (A.state a.arena.now.device) (A.faults a.arena.now.device) a.opened) (known b.arena.now.shelf (A.state b.arena.now.device) (A.faults b.arena.now.device) b.opened) (known c.arena.now.shelf (A.state c.arena.now.device) (A.faults c.arena.now.device) c.opened) p q };

    ghost keeps_faults = { λ a b p. stays_faults (known a.arena.now.shelf (A.state a.arena.now.device) (A.faults a.arena.now.device) a.opened) (known b.arena.now.shelf (A.state b.arena.now.device) (A.faults b.arena.now.device) b.opened) p };

    ghost keeps_honest = { λ a b p h. stays_honest (known a.arena.now.shelf (A.state a.arena.now.device) (A.faults a.arena.now.device) a.opened) (known b.arena.now.shelf (A.state b.arena.now.device) (A.faults b.arena.now.device) b.opened) p h };

    ghost keeps_silent = { λ a b p h. stays_silent (known a.arena.now.shelf (A.state a.arena.now.device) (A.faults a.arena.now.device) a.opened) (known b.arena.now.shelf (A.state b.arena.now.device) (A.faults b.arena.now.device) b.opened) p h };

    ghost keeps_largest = { λ a b p. refl };

    ghost keeps_whole = { λ a b p. refl };

    ghost keeps_serves = { λ a b v p h. h ∙ ap (λ o. Archive o.found.root.epoch) (sym p.opened) };

    ghost keeps_room = { λ a b n p h. absurd h };

    ghost keeps_touches = { λ a b w p. p };

    ghost keeps_then = { λ a b c w n p q. stays_joins (known a.arena.now.shelf (A.state a.arena.now.device) (A.faults a.arena.now.device) a.opened) (known b.arena.now.shelf (A.state b.arena.now.device) (A.faults b.arena.now.device) b.opened) (known c.arena.now.shelf (A.state c.arena.now.device) (A.faults c.arena.now.device) c.opened) p q };

    ghost touches_more = { λ a b w n m le p. p };

    ghost touches_room = { λ a b w n r q p h k. absurd h };

    ghost touches_faults = { λ a b w n p. stays_faults (known a.arena.now.shelf (A.state a.arena.now.device) (A.faults a.arena.now.device) a.opened) (known b.arena.now.shelf (A.state b.arena.now.device) (A.faults b.arena.now.device) b.opened) p };

    ghost touches_honest = { λ a b w n p h. stays_honest (known a.arena.now.shelf (A.state a.arena.now.device) (A.faults a.arena.now.device) a.opened) (known b.arena.now.shelf (A.state b.arena.now.device) (A.faults b.arena.now.device) b.opened) p h };

    ghost touches_largest = { λ a b w n p. refl };

    ghost touches_whole = { λ a b w n p. refl };

    ghost touches_serves = { λ a b w n v p h. h ∙ ap (λ o. Archive o.found.root.epoch) (sym p.opened) };

    ghost room_settled = { λ a n h. absurd h };

    ghost fits = { λ a h. world_fits (holding_of a.arena.now.shelf (A.state a.arena.now.device)) a.opened };

    ghost whole_serves = { λ a v p. absurd (false≢true p) };

    fn info(&mut self, at: &Place) -> Result<Info, FileError> {
        info_at(self.alloc, self.arena, &self.opened, at)
    }

    fn find(&mut self, at: &Place, name: &[u8]) -> Result<Info, FileError> {
        find_at(self.alloc, self.arena, &self.opened, at, name)
    }

    fn parent(&mut self, at: &Place) -> Result<Info, FileError> {
        parent_at(self.alloc, self.arena, &self.opened, at)
    }

    fn next_name(&mut self, at: &Place, after: Option<&Bytes>) -> Result<Option<Info>, FileError> {
        next_at(self.alloc, self.arena, &self.opened, at, after)
    }

    fn read(&mut self, at: &Place, offset: u64, into: &mut [u8]) -> Result<usize, FileError> {
        read_at(self.alloc, self.arena, &self.opened, at, offset, into)
    }

    fn write(
        &mut self,
        at: &Place,
        _offset: u64,
        _bytes: &[u8],
        _who: &Bytes,
        _now: u32,
    ) -> Result<(), FileError> {
        Err(no_write(self.alloc, self.arena, &self.opened, at))
    }

    fn create(
        &mut self,
        at: &Place,
        _name: &Bytes,
        _mode: u32,
        _who: &Bytes,
        _uid: &Bytes,
        _gid: &Bytes,
        _now: u32,
    ) -> Result<Info, FileError> {
        Err(no_create(self.alloc, self.arena, &self.opened, at))
    }

    fn remove(&mut self, at: &Place, _who: &Bytes, _now: u32) -> Result<(), FileError> {
        Err(no_remove(self.alloc, self.arena, &self.opened, at))
    }

    fn change(
        &mut self,
        at: &Place,
        what: &Change,
        _who: &Bytes,
        _now: u32,
    ) -> Result<(), FileError> {
        let len = what.length;
        Err(no_change(self.alloc, self.arena, &self.opened, at, len))
    }

    fn sync(&mut self) -> Result<(), FileError> {
        Ok(())
    }
}
