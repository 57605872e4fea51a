//! Twalk.
ghost use Rattle.std.specs.Prelude.{◌≡◌, ◌==◌, ◌&&◌, not, nat_le, length, IsTrue, MatchResult};
ghost use Rattle.nine_fids.specs.Fids as kept;
ghost use Rattle.nine_fids.specs.Told.{served};
ghost use Rattle.nine_wire.specs.declared.message.Request.TheVariants as request;
ghost use Rattle.nine_session.specs.Session.{Grants};
ghost use Rattle.nine_session.specs.Attempting.{kept, Looked};
ghost use Rattle.nine_session.specs.Walking as nine;

use crate::session::Session;
use fo_world::{FileOps, Name};
use nine_fids::{Fid, KnownUsers, MOST_FIDS, Refusal, Stated, in_use, put_fid};
use nine_files::{Walked, walk_from};
use nine_wire::{Names, Reply};

/// The most names of a walk.
const MOST_NAMES: usize = 16;

/// Whether a walk can't go to a new fid because its number is in use.
fn is_taken(fids: &[Fid], fid: u32, newfid: u32) -> bool
    ensures { result ≡ (not (newfid == fid) && kept.in_use newfid fids.now) }
{
    newfid != fid && in_use(fids, newfid)
}

/// Whether a walk can't go to a new fid because there are too many.
fn lacks_room(fids: &[Fid], fid: u32, newfid: u32) -> bool
    ensures { result ≡ (not (newfid == fid) && nat_le kept.most_fids (length fids.now)) }
{
    newfid != fid && fids.len() >= MOST_FIDS
}

impl Session {
    ghost use Rattle.std.specs.Prelude.{◌≡◌, ◌<◌, ◌≤◌, ◌^◌, ℕ, List, length, IsTrue, IfOk, OnOk, MatchResult, Ok, Err};
    ghost use Rattle.fo_world.specs.World.{World};
    ghost use Rattle.fo_world.specs.Limits.{IsUser};
    ghost use Rattle.fo_world.specs.declared.error.FileError.TheVariants as failure;
    ghost use Rattle.nine_fids.specs.declared.fid.Fid.{Fid};
    ghost use Rattle.nine_fids.specs.Told.{served};
    ghost use Rattle.nine_wire.specs.declared.message.Request.TheVariants as request;
    ghost use Rattle.nine_session.specs.Session.{Grants};
    ghost use Rattle.nine_session.specs.Walking as nine;
    ghost use Rattle.nine_session.specs.Attempting.{walked_fid, state, kept, Attempts, Looked, IsSent};

    /// Twalk.
    pub(crate) fn walk<F: FileOps>(
        &mut self,
        files: &mut F,
        known_users: &mut KnownUsers,
        fid: u32,
        newfid: u32,
        names: &Names,
    ) -> Result<Reply, Refusal>
        requires whole { IsTrue (F.whole files.old) }
        ensures looked { (x : List ℕ) → Looked (⟦<F as Stated>⟧.state files.old) (⟦<F as Stated>⟧.state files.new) (kept self.old x) (kept self.new x)
            (λ e z. nine.walk e z fid newfid names.now) result }
        ensures part { IfOk result (λ r. Grants (request.Walk fid newfid names.now) r) }
        ensures sends { IsSent result }
        ensures keeps { F.keeps files.old files.new }
    {
        let names = names.as_slice();
        let from = self.walked_fid(fid, newfid, names)?;
        let user = from.user.copy(self.alloc)?;
        let walked = walk_from(self.alloc, files, known_users, from, names)?;
        self.finish_walk(user, fid, newfid, walked)
    }

    /// The fid that a walk goes from, where it may.
    fn walked_fid(&self, fid: u32, newfid: u32, names: &[Name]) -> Result<&Fid, Refusal>
        ensures told { (x : List ℕ) (w : World) → MatchResult result (λ f. walked_fid (state self.now x w) fid newfid names.now ≡ Ok f.now)
            (λ r. walked_fid (state self.now x w) fid newfid names.now ≡ Err r) }
        ensures number { IfOk result (λ f. f.now.number ≡ fid) }
        ensures user { IfOk result (λ f. IsUser f.now.user) }
        ensures few { OnOk result (length names.now ≤ 16) }
    {
        self.version()?;
        let from = self.fid(fid)?;
        if names.len() > MOST_NAMES {
            return Err(Refusal::TooManyNames);
        }
        if from.opened.is_some() {
            return Err(Refusal::FidIsOpen);
        }
        if is_taken(self.fids.as_slice(), fid, newfid) {
            return Err(Refusal::FidInUse);
        }
        if lacks_room(self.fids.as_slice(), fid, newfid) {
            return Err(Refusal::TooManyFids);
        }
        Ok(from)
    }

    /// Moves the fid to where a walk came to its end.
    fn finish_walk(
        &mut self,
        user: Name,
        fid: u32,
        newfid: u32,
        walked: Walked,
    ) -> Result<Reply, Refusal>
        requires user { IsUser user }
        requires short { length walked.qids < 2 ^ 16 }
        ensures attempts { (x : List ℕ) (w : World) (f : Fid) → f.number ≡ fid → f.user ≡ user → Attempts (nine.ended (state self.old x w) f newfid walked.qids walked.last walked.stopped)
            (λ x. x ≡ failure.Memory) (state self.old x w) (state self.new x w) result }
        ensures sends { IsSent result }
    {
        let Walked {
            qids,
            last,
            stopped,
        } = walked;
        if let Some(refusal) = stopped {
            if qids.as_slice().is_empty() {
                return Err(refusal);
            }
            return Ok(Reply::Walk { qids });
        }
        let moved = Fid {
            number: newfid,
            user,
            place: last,
            opened: None,
        };
        if newfid == fid {
            put_fid(&mut self.fids, moved);
        } else {
            self.fids.push(moved)?;
        }
        Ok(Reply::Walk { qids })
    }
}
