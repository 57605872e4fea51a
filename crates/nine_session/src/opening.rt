//! Topen and Tcreate.
ghost use Rattle.std.specs.Prelude.{◌≡◌, IsTrue, Result, Ok, is_ok};
ghost use Rattle.fo_world.specs.Limits.{IsUser};
ghost use Rattle.fo_world.specs.Step as step;
ghost use Rattle.nine_fids.specs.Told.{served, qid_of};
ghost use Rattle.nine_wire.specs.declared.message.Request.TheVariants as request;
ghost use Rattle.nine_files.specs.Granting.{admitted};
ghost use Rattle.nine_session.specs.Session.{Grants, in_files, most_of, need_at, opening_need};
ghost use Rattle.nine_session.specs.Attempting.{kept, with_put, Attempted};
ghost use Rattle.nine_session.specs.Opening as nine;

use crate::session::Session;
use fo_world::{FileOps, Name};
use nine_fids::{Fid, KnownUsers, Refusal, Stated, is_exclusive, number_at, put_fid, qid_of};
use nine_files::{admit, admit_new, new_mode, open_fid, truncate};
use nine_wire::Reply;

impl Session {
    ghost use Rattle.std.specs.Prelude.{◌≡◌, ◌<◌, IsTrue, IfOk, is_ok, vec_len, vec_capacity};
    ghost use Rattle.fo_world.specs.Limits.{IsUser};
    ghost use Rattle.fo_world.specs.World.{World};
    ghost use Rattle.fo_world.specs.Step as step;
    ghost use Rattle.nine_fields.specs.Field.{TextFits};
    ghost use Rattle.nine_fids.specs.Fids.{known};
    ghost use Rattle.nine_fids.specs.Told.{served};
    ghost use Rattle.nine_wire.specs.declared.message.Request.TheVariants as request;
    ghost use Rattle.nine_files.specs.Answering.{HadRoom};
    ghost use Rattle.nine_files.specs.Granting.{admitted};
    ghost use Rattle.nine_session.specs.Session.{Grants, in_files, most_of, need_at, opening_need};
    ghost use Rattle.nine_session.specs.Attempting.{state, kept, Attempted, IsSent, with_put};
    ghost use Rattle.nine_session.specs.Opening as nine;

    /// Puts an open fid in place of the one of its number, and its file on the list where it is for exclusive use. Room on the
    /// list was made before.
    fn put_open(&mut self, exclusive: &mut Vec<u32>, fid: Fid, held: bool)
        requires room { vec_len exclusive.old < vec_capacity exclusive.old }
        requires user { IsUser fid.user }
        ensures { (w : World) → state self.new exclusive.new.items w ≡ with_put (state self.old exclusive.old.items w) fid held }
    {
        if held {
            exclusive.push_reserved(number_at(&fid.place));
        }
        put_fid(&mut self.fids, fid);
    }

    /// Topen.
    pub(crate) fn open<F: FileOps>(
        &mut self,
        files: &mut F,
        known_users: &mut KnownUsers,
        exclusive: &mut Vec<u32>,
        now: u32,
        fid: u32,
        mode: u8,
    ) -> Result<Reply, Refusal>
        requires whole { IsTrue (F.whole files.old) }
        ensures attempted { Attempted (⟦<F as Stated>⟧.state files.old) (⟦<F as Stated>⟧.state files.new) (λ w n. F.touches files.old w n files.new)
            (kept self.old exclusive.old.items) (kept self.new exclusive.new.items)
            (λ e z. nine.open_file e z now fid mode)
            (λ e z. need_at (known fid z.session.fids) (λ f. opening_need e z.world f (admitted e z.world f z.exclusive mode))) (most_of (in_files (kept self.old exclusive.old.items) (F.world files.old)) (request.Open fid mode)) (λ z. z) result }
        ensures part { IfOk result (λ r. Grants (request.Open fid mode) r) }
        ensures sends { IsSent result }
    {
        let msize = self.version()?;
        let from = self.fid(fid)?;
        let (info, mode) = admit(
            self.alloc,
            files,
            known_users,
            from,
            exclusive.as_slice(),
            mode,
        )?;
        let user = from.user.copy(self.alloc)?;
        let place = from.place.copy(self.alloc)?;
        exclusive.reserve(1)?;
        let qid = truncate(files, from, &info, mode, now)?;
        let held = is_exclusive(info.mode);
        self.put_open(exclusive, open_fid(fid, user, place, mode, held), held);
        Ok(Reply::Open {
            qid,
            iounit: msize.saturating_sub(24),
        })
    }

    /// Tcreate.
    pub(crate) fn create<F: FileOps>(
        &mut self,
        files: &mut F,
        known_users: &mut KnownUsers,
        exclusive: &mut Vec<u32>,
        now: u32,
        fid: u32,
        name: &Name,
        perm: u32,
        mode: u8,
    ) -> Result<Reply, Refusal>
        requires whole { IsTrue (F.whole files.old) }
        requires name { TextFits name.now }
        ensures attempted { Attempted (⟦<F as Stated>⟧.state files.old) (⟦<F as Stated>⟧.state files.new) (λ w n. F.touches files.old w n files.new)
            (kept self.old exclusive.old.items) (kept self.new exclusive.new.items)
            (λ e z. nine.create_file e z now fid name.now perm mode)
            (λ e z. need_at (known fid z.session.fids) (λ f. step.create_need f.place)) (need_at (known fid self.old.fids) (λ f. step.create_need f.place)) (λ z. z) result }
        ensures room { HadRoom (F.has_room files.old) (need_at (known fid self.old.fids) (λ f. step.create_need f.place)) result }
        ensures part { IfOk result (λ r. Grants (request.Create fid name.now perm mode) r) }
        ensures sends { IsSent result }
    {
        let msize = self.version()?;
        let from = self.fid(fid)?;
        let (above, mode) = admit_new(
            self.alloc,
            files,
            known_users,
            from,
            name.as_slice(),
            perm,
            mode,
        )?;
        let user = from.user.copy(self.alloc)?;
        exclusive.reserve(1)?;
        let perm = new_mode(perm, above.mode);
        let info = files.create(&from.place, name, perm, &user, &user, &above.gid, now)?;
        let qid = qid_of(&info);
        let held = is_exclusive(info.mode);
        self.put_open(exclusive, open_fid(fid, user, info.place, mode, held), held);
        Ok(Reply::Create {
            qid,
            iounit: msize.saturating_sub(24),
        })
    }
}
