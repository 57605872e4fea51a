//! Tclunk and Tremove.
ghost use Rattle.std.specs.Prelude.{◌≡◌, IsTrue, is_ok};
ghost use Rattle.fo_world.specs.Step as step;
ghost use Rattle.nine_fids.specs.Told.{served};
ghost use Rattle.nine_files.specs.Removing.{close_need, most_close, remove_need};
ghost use Rattle.nine_session.specs.Session.{Grants, need_at, without_fid};
ghost use Rattle.nine_wire.specs.declared.message.Request.TheVariants as request;
ghost use Rattle.nine_session.specs.Attempting.{kept, Attempted};
ghost use Rattle.nine_session.specs.Removing as nine;

use crate::session::Session;
use fo_world::FileOps;
use nine_fids::{Fid, KnownUsers, Refusal, Stated, fid_of};
use nine_files::{remove_on_close, remove_there};
use nine_wire::Reply;

impl Session {
    ghost use Rattle.std.specs.Prelude.{◌≡◌, ℕ, Some, IsTrue, IfOk};
    ghost use Rattle.fo_world.specs.World.{World};
    ghost use Rattle.nine_wire.specs.declared.message.Request.TheVariants as request;
    ghost use Rattle.nine_fids.specs.declared.fid.Fid.{Fid};
    ghost use Rattle.nine_fids.specs.Fids.{fid_of, known, clunked};
    ghost use Rattle.nine_files.specs.Answering.{HadRoom};
    ghost use Rattle.nine_files.specs.Removing.{close_need, most_close, remove_need};
    ghost use Rattle.nine_session.specs.Session.{Grants, need_at, without_fid};
    ghost use Rattle.nine_session.specs.Attempting.{state, kept, let_go, Attempted, IsSent};

    /// Clunks the fid of this number, which there is. It is gone in each case.
    pub(crate) fn clunk_fid<F: FileOps>(
        &mut self,
        files: &mut F,
        known_users: &mut KnownUsers,
        exclusive: &mut Vec<u32>,
        now: u32,
        number: u32,
    ) -> Result<Reply, Refusal>
        requires whole { IsTrue (F.whole files.old) }
        ensures attempted { (f : Fid) → fid_of number self.old.fids ≡ Some f → Attempted (⟦<F as Stated>⟧.state files.old) (⟦<F as Stated>⟧.state files.new) (λ w n. F.touches files.old w n files.new)
            (kept self.old exclusive.old.items) (kept self.new exclusive.new.items)
            (λ e z. nine.clunk_fid e z now f)
            (λ e z. close_need e z.world f) (most_close f) (λ z. clunked z f) result }
        ensures part { IfOk result (λ r. Grants (request.Clunk number) r) }
        ensures gone { (w : World) → state self.new exclusive.new.items w ≡ let_go number (state self.old exclusive.old.items w) }
        ensures sends { IsSent result }
    {
        let Some(fid) = fid_of(self.fids.as_slice(), number) else {
            return Err(Refusal::UnknownFid);
        };
        let removed = remove_on_close(self.alloc, files, known_users, now, fid);
        self.let_go(exclusive, number);
        removed?;
        Ok(Reply::Clunk)
    }

    /// Tclunk.
    pub(crate) fn clunk<F: FileOps>(
        &mut self,
        files: &mut F,
        known_users: &mut KnownUsers,
        exclusive: &mut Vec<u32>,
        now: u32,
        fid: u32,
    ) -> Result<Reply, Refusal>
        requires whole { IsTrue (F.whole files.old) }
        ensures attempted { Attempted (⟦<F as Stated>⟧.state files.old) (⟦<F as Stated>⟧.state files.new) (λ w n. F.touches files.old w n files.new)
            (kept self.old exclusive.old.items) (kept self.new exclusive.new.items)
            (λ e z. nine.clunk e z now fid)
            (λ e z. need_at (known fid z.session.fids) (close_need e z.world)) (need_at (known fid self.old.fids) most_close) (λ z. without_fid z z.session.msize (known fid z.session.fids)) result }
        ensures part { IfOk result (λ r. Grants (request.Clunk fid) r) }
        ensures sends { IsSent result }
    {
        self.version()?;
        self.fid(fid)?;
        self.clunk_fid(files, known_users, exclusive, now, fid)
    }

    /// Tremove.
    pub(crate) fn remove<F: FileOps>(
        &mut self,
        files: &mut F,
        known_users: &mut KnownUsers,
        exclusive: &mut Vec<u32>,
        now: u32,
        fid: u32,
    ) -> Result<Reply, Refusal>
        requires whole { IsTrue (F.whole files.old) }
        ensures attempted { Attempted (⟦<F as Stated>⟧.state files.old) (⟦<F as Stated>⟧.state files.new) (λ w n. F.touches files.old w n files.new)
            (kept self.old exclusive.old.items) (kept self.new exclusive.new.items)
            (λ e z. nine.remove e z now fid)
            (λ e z. need_at (known fid z.session.fids) remove_need) (need_at (known fid self.old.fids) remove_need) (λ z. without_fid z z.session.msize (known fid z.session.fids)) result }
        ensures room { HadRoom (F.has_room files.old) (need_at (known fid self.old.fids) remove_need) result }
        ensures part { IfOk result (λ r. Grants (request.Remove fid) r) }
        ensures sends { IsSent result }
    {
        self.version()?;
        let from = self.fid(fid)?;
        let removed = remove_there(self.alloc, files, known_users, now, from);
        self.let_go(exclusive, fid);
        removed?;
        Ok(Reply::Remove)
    }
}
