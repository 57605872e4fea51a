//! Tread and Twrite.
ghost use Rattle.std.specs.Prelude.{◌≡◌, IsTrue, is_ok, Ok, Err};
ghost use Rattle.fo_world.specs.Step as step;
ghost use Rattle.nine_fids.specs.Fids as fids;
ghost use Rattle.nine_fids.specs.Told.{served};
ghost use Rattle.nine_wire.specs.declared.message.Request.TheVariants as request;
ghost use Rattle.nine_wire.specs.declared.message.Reply.TheVariants as reply;
ghost use Rattle.nine_session.specs.Session.{Grants, need_at};
ghost use Rattle.nine_session.specs.Attempting.{kept, Attempted, Looked};
ghost use Rattle.nine_session.specs.Reading as nine;

use crate::session::Session;
use fo_base::Bytes;
use fo_world::{FileError, FileOps};
use nine_fids::{Refusal, Stated, bytes_at, info_at, put_fid};
use nine_files::{is_bad_offset, list_records, opened_of, read_to, start_of, write_bytes};
use nine_wire::Reply;

/// Whether the files say that what was to be read is a directory.
fn is_directory(refusal: &Refusal) -> bool
    ensures { result ≡ nine.is_directory refusal.now }
{
    match refusal {
        Refusal::File(FileError::IsDir) => true,
        _ => false,
    }
}

impl Session {
    ghost use Rattle.std.specs.Prelude.{◌≡◌, ◌<◌, ◌-◌, ◌^◌, ℕ, List, length, IsTrue, IfOk};
    ghost use Rattle.fo_world.specs.Step as step;
    ghost use Rattle.fo_world.specs.Chain.{and_then};
    ghost use Rattle.nine_fids.specs.Fids as fids;
    ghost use Rattle.nine_fids.specs.Told.{served};
    ghost use Rattle.nine_wire.specs.declared.message.Request.TheVariants as request;
    ghost use Rattle.nine_wire.specs.declared.message.Reply.TheVariants as reply;
    ghost use Rattle.nine_files.specs.Answering.{HadRoom};
    ghost use Rattle.nine_session.specs.Session.{Grants, need_at};
    ghost use Rattle.nine_session.specs.Reading as nine;
    ghost use Rattle.nine_session.specs.Attempting.{state, kept, Attempted, Looked, IsSent};

    /// Tread.
    pub(crate) fn read<F: FileOps>(
        &mut self,
        files: &mut F,
        fid: u32,
        offset: u64,
        count: u32,
    ) -> Result<Reply, Refusal>
        requires whole { IsTrue (F.whole files.old) }
        ensures looked { (x : List ℕ) → Looked (⟦<F as Stated>⟧.state files.old) (⟦<F as Stated>⟧.state files.new) (kept self.old x) (kept self.new x)
            (λ e z. nine.read e z fid offset count) result }
        ensures part { IfOk result (λ r. Grants (request.Read fid offset count) r) }
        ensures sends { IsSent result }
        ensures keeps { F.keeps files.old files.new }
    {
        let msize = self.version()?;
        let from = self.fid(fid)?;
        let opened = opened_of(from)?;
        if !opened.access.reads() {
            return Err(Refusal::NotForReading);
        }
        let count = count.min(msize.saturating_sub(24));
        match bytes_at(self.alloc, files, &from.place, offset, count as usize) {
            Ok(bytes) => Ok(Reply::Read { bytes }),
            Err(refusal) => {
                if is_directory(&refusal) {
                    return self.read_directory(files, fid, offset, count);
                }
                Err(refusal)
            }
        }
    }

    /// Tread of a directory: whole records.
    fn read_directory<F: FileOps>(
        &mut self,
        files: &mut F,
        fid: u32,
        offset: u64,
        count: u32,
    ) -> Result<Reply, Refusal>
        requires whole { IsTrue (F.whole files.old) }
        requires short { count < 2 ^ 32 - 11 }
        ensures looked { (x : List ℕ) → Looked (⟦<F as Stated>⟧.state files.old) (⟦<F as Stated>⟧.state files.new) (kept self.old x) (kept self.new x)
            (λ e z. and_then (fids.fid_at z fid) (λ f. and_then (fids.opened_of f) (λ o. nine.read_directory e z f o offset count))) result }
        ensures part { IfOk result (λ r. Grants (request.Read fid offset count) r) }
        ensures sends { IsSent result }
        ensures keeps { F.keeps files.old files.new }
    {
        let from = self.fid(fid)?;
        let opened = opened_of(from)?;
        if is_bad_offset(opened, offset) {
            return Err(Refusal::BadOffset);
        }
        let start = start_of(self.alloc, opened, offset)?;
        let given = list_records(self.alloc, files, &from.place, start, count)?;
        let end = offset.wrapping_add(given.bytes.len() as u64);
        let moved = read_to(self.alloc, from, opened, end, given.last)?;
        put_fid(&mut self.fids, moved);
        Ok(Reply::Read {
            bytes: Bytes::new(given.bytes),
        })
    }

    /// Twrite.
    pub(crate) fn write<F: FileOps>(
        &self,
        files: &mut F,
        now: u32,
        fid: u32,
        offset: u64,
        bytes: &Bytes,
    ) -> Result<Reply, Refusal>
        requires whole { IsTrue (F.whole files.old) }
        requires bytes { length bytes.now < 2 ^ 32 - 23 }
        ensures attempted { (x : List ℕ) → Attempted (⟦<F as Stated>⟧.state files.old) (⟦<F as Stated>⟧.state files.new) (λ w n. F.touches files.old w n files.new)
            (kept self.now x) (kept self.now x)
            (λ e z. nine.write e z now fid offset bytes.now)
            (λ e z. need_at (fids.known fid z.session.fids) (λ f. step.write_need f.place bytes.now)) (need_at (fids.known fid self.now.fids) (λ f. step.write_need f.place bytes.now)) (λ z. z) result }
        ensures room { HadRoom (F.has_room files.old) (need_at (fids.known fid self.now.fids) (λ f. step.write_need f.place bytes.now)) result }
        ensures part { IfOk result (λ r. r ≡ reply.Write (length bytes.now)) }
        ensures sends { IsSent result }
    {
        // The user of a fid is a user of files, as the session keeps it.
        let _ = &self.fids;
        self.version()?;
        let from = self.fid(fid)?;
        let opened = opened_of(from)?;
        if !opened.access.writes() {
            return Err(Refusal::NotForWriting);
        }
        let info = info_at(files, &from.place)?;
        let bytes = bytes.as_slice();
        if bytes.is_empty() {
            return Ok(Reply::Write { count: 0 });
        }
        write_bytes(files, now, from, &info, offset, bytes)?;
        Ok(Reply::Write {
            count: bytes.len() as u32,
        })
    }
}
