//! Plain files that know whether all is settled: what a session asks of files besides the world.
use fo_base::Bytes;
use fo_plain::PlainFiles;
use fo_world::{Change, FileError, FileOps, Info, Place};
use std::alloc::{AllocError, Global};

/// Plain files with a mark that each call sets that may change them, and that a sync takes away.
#[derive(Drop)]
pub(super) struct Watched {
    pub(super) files: PlainFiles,
    pub(super) unsettled: bool,
}

impl Watched {
    /// An empty world that is settled.
    pub(super) fn new(alloc: Global) -> Result<Watched, AllocError> {
        Ok(Watched {
            files: PlainFiles::new(alloc, 0)?,
            unsettled: false,
        })
    }
}

impl FileOps for Watched {
    ghost use Rattle.std.specs.Prelude.{◌≡◌, ◌⊎◌, ◌^◌, true, false, None, refl};
    ghost use Rattle.std.proofs.Common.{inl, inr, ⊎_elim, ◌∙◌};
    ghost use Rattle.fo_plain.specs.Kept.{kept};
    ghost use Rattle.fo_world.specs.Answers.{not_fewer};

    ghost world = { λ s. kept s.files };

    ghost faults = { λ _. record { main = 0; arena = 0 } };

    ghost has_room = { λ _ n. ⊥ };

    ghost honest = { λ _. Unit {0} };

    ghost largest = { λ _. 2 ^ 40 };

    ghost whole = { λ _. true };

    ghost serves = { λ _ _. Unit {0} };

    ghost settled = { λ s. s.unsettled ≡ false };

    ghost looks = { λ a b. kept b.files ≡ kept a.files };

    ghost settles = { λ a b. kept b.files ≡ kept a.files };

    ghost looks_at_once = { λ a. refl };

    // The world stays.
    ghost keeps = { λ a b. kept b.files ≡ kept a.files };

    // The world stays, or it is the one that the call went towards.
    ghost touches = { λ a w n b. (kept b.files ≡ kept a.files) ⊎ (kept b.files ≡ w) };

    ghost keeps_at_once = { λ a. refl };

    ghost keeps_joins = { λ a b c p q. q ∙ p };

    ghost keeps_faults = { λ a b p. not_fewer _ };

    ghost keeps_honest = { λ a b p q. tt };

    ghost keeps_silent = { λ a b p q. tt };

    ghost keeps_largest = { λ a b p. refl };

    ghost keeps_whole = { λ a b p. refl };

    ghost keeps_serves = { λ a b v p q. tt };

    ghost keeps_room = { λ a b n p h. absurd h };

    ghost keeps_touches = { λ a b w p. inl p };

    ghost keeps_then = { λ a b c w n p q. ⊎_elim (λ e. inl (e ∙ p)) inr q };

    ghost touches_more = { λ a b w n m le p. p };

    ghost touches_room = { λ a b w n r q p h k. absurd h };

    ghost touches_faults = { λ a b w n p. not_fewer _ };

    ghost touches_honest = { λ a b w n p q. tt };

    ghost touches_largest = { λ a b w n p. refl };

    ghost touches_whole = { λ a b w n p. refl };

    ghost touches_serves = { λ a b w n v p q. tt };

    ghost room_settled = { λ a n h. absurd h };

    ghost fits = { λ a h. a.files.fits };

    ghost whole_serves = { λ a v p. tt };

    fn info(&mut self, at: &Place) -> Result<Info, FileError> {
        self.files.info(at)
    }

    fn find(&mut self, at: &Place, name: &[u8]) -> Result<Info, FileError> {
        self.files.find(at, name)
    }

    fn parent(&mut self, at: &Place) -> Result<Info, FileError> {
        self.files.parent(at)
    }

    fn next_name(&mut self, at: &Place, after: Option<&Bytes>) -> Result<Option<Info>, FileError> {
        self.files.next_name(at, after)
    }

    fn read(&mut self, at: &Place, offset: u64, into: &mut [u8]) -> Result<usize, FileError> {
        self.files.read(at, offset, into)
    }

    fn write(
        &mut self,
        at: &Place,
        offset: u64,
        bytes: &[u8],
        who: &Bytes,
        now: u32,
    ) -> Result<(), FileError> {
        self.unsettled = true;
        self.files.write(at, offset, bytes, who, now)
    }

    fn create(
        &mut self,
        at: &Place,
        name: &Bytes,
        mode: u32,
        who: &Bytes,
        uid: &Bytes,
        gid: &Bytes,
        now: u32,
    ) -> Result<Info, FileError> {
        self.unsettled = true;
        self.files.create(at, name, mode, who, uid, gid, now)
    }

    fn remove(&mut self, at: &Place, who: &Bytes, now: u32) -> Result<(), FileError> {
        self.unsettled = true;
        self.files.remove(at, who, now)
    }

    fn change(
        &mut self,
        at: &Place,
        what: &Change,
        who: &Bytes,
        now: u32,
    ) -> Result<(), FileError> {
        self.unsettled = true;
        self.files.change(at, what, who, now)
    }

    fn sync(&mut self) -> Result<(), FileError> {
        self.files.sync()?;
        self.unsettled = false;
        Ok(())
    }
}
