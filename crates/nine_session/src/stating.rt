//! Tstat and Twstat.
ghost use Rattle.std.specs.Prelude.{◌≡◌, ℕ, IsTrue, IfOk, Ok, Result, is_ok};
ghost use Rattle.nine_fids.specs.Told.{served, info_at};
ghost use Rattle.fo_world.specs.Step as step;
ghost use Rattle.nine_files.specs.Stating.{change_of};
ghost use Rattle.nine_session.specs.Session.{Grants, need_at};
ghost use Rattle.nine_session.specs.Attempting.{kept, Attempted, Looked};
ghost use Rattle.nine_wire.specs.declared.message.Request.TheVariants as request;
ghost use Rattle.nine_session.specs.Stating as nine;

use crate::session::Session;
use fo_base::Bytes;
use fo_world::{FileError, FileOps};
use nine_fids::{KnownUsers, Refusal, Stated, info_at, put_record};
use nine_files::{change_of, changes_fixed, is_idle, restate, settle, touches_fixed};
use nine_stat::{Stat, read_stat};
use nine_wire::Reply;

impl Session {
    ghost use Rattle.std.specs.Prelude.{◌≡◌, ℕ, List, IsTrue, IfOk, MatchResult, is_ok};
    ghost use Rattle.fo_world.specs.declared.error.FileError.TheVariants as failure;
    ghost use Rattle.nine_stat.specs.declared.stat.Stat.{Stat};
    ghost use Rattle.nine_wire.specs.declared.message.Request.TheVariants as request;
    ghost use Rattle.nine_stat.specs.Stat.{IsRecord};
    ghost use Rattle.nine_fids.specs.declared.refusal.Refusal.TheVariants as refusal;
    ghost use Rattle.nine_fids.specs.Told.{served};
    ghost use Rattle.fo_world.specs.Step as step;
    ghost use Rattle.nine_fids.specs.Fids.{known};
    ghost use Rattle.nine_files.specs.Stating.{change_of};
    ghost use Rattle.nine_session.specs.Session.{Grants, SettlesOnce, need_at, touches_nothing};
    ghost use Rattle.nine_session.specs.Attempting.{state, kept, Attempted, Looked, IsSent};
    ghost use Rattle.nine_session.specs.Stating as nine;

    /// Tstat.
    pub(crate) fn stat<F: FileOps>(&self, files: &mut F, fid: u32) -> Result<Reply, Refusal>
        requires whole { IsTrue (F.whole files.old) }
        ensures looked { (x : List ℕ) → Looked (⟦<F as Stated>⟧.state files.old) (⟦<F as Stated>⟧.state files.new) (kept self.now x) (kept self.now x)
            (λ e z. nine.stat e z fid) result }
        ensures part { IfOk result (λ r. Grants (request.Stat fid) r) }
        ensures sends { IsSent result }
        ensures keeps { F.keeps files.old files.new }
    {
        let msize = self.version()?;
        let from = self.fid(fid)?;
        let info = info_at(files, &from.place)?;
        let mut record = Vec::new(self.alloc);
        put_record(info, &mut record)?;
        if 9 + record.len() > msize as usize {
            return Err(Refusal::StatTooLong);
        }
        Ok(Reply::Stat {
            stat: Bytes::new(record),
        })
    }

    /// Twstat.
    pub(crate) fn wstat<F: FileOps>(
        &self,
        files: &mut F,
        known_users: &mut KnownUsers,
        now: u32,
        fid: u32,
        stat: &Bytes,
    ) -> Result<Reply, Refusal>
        requires whole { IsTrue (F.whole files.old) }
        ensures attempted { (x : List ℕ) (s : Stat) → IsRecord stat.now s → Attempted (⟦<F as Stated>⟧.state files.old) (⟦<F as Stated>⟧.state files.new) (λ w n. F.touches files.old w n files.new)
            (kept self.now x) (kept self.now x)
            (λ e z. nine.wstat e z now fid s)
            (λ e z. need_at (known fid z.session.fids) (λ f. step.change_need e.whole z.world f.place (change_of s))) (need_at (known fid self.now.fids) (λ f. step.most_need f.place)) (λ z. z) result }
        ensures part { IfOk result (λ r. Grants (request.Wstat fid stat.now) r) }
        ensures sends { IsSent result }
        ensures settled { (s : Stat) → IsRecord stat.now s → IsTrue (touches_nothing s) → IfOk result (λ _. F.settled files.new) }
        ensures settles { (s : Stat) → IsRecord stat.now s → IsTrue (touches_nothing s) → SettlesOnce F.looks F.settles files.old files.new }
    {
        self.version()?;
        let from = self.fid(fid)?;
        let info = info_at(files, &from.place)?;
        let stat = self.read_record(stat)?;
        let fixed = touches_fixed(&stat);
        let is_bad = changes_fixed(&stat, &info);
        let what = change_of(stat);
        if is_idle(fixed, &what) {
            settle(files)?;
            return Ok(Reply::Wstat);
        }
        restate(
            self.alloc,
            files,
            known_users,
            now,
            from,
            is_bad,
            &info,
            &what,
        )?;
        Ok(Reply::Wstat)
    }

    /// The stat record that the bytes of a Twstat are.
    fn read_record(&self, bytes: &Bytes) -> Result<Stat, Refusal>
        ensures found { IfOk result (λ stat. IsRecord bytes.now stat) }
        ensures only { (s : Stat) → IsRecord bytes.now s → MatchResult result (λ stat. stat ≡ s) (λ r. r ≡ refusal.File failure.Memory) }
    {
        match read_stat(self.alloc, bytes.as_slice()) {
            Ok(stat) => Ok(stat),
            // The message's grammar has only bytes that are a record, so nothing but memory can be wanting.
            Err(_) => Err(Refusal::File(FileError::Memory)),
        }
    }
}
