//! Tversion, Tauth, Tflush and Tattach.
ghost use Rattle.std.specs.Prelude.{◌≡◌, ◌==◌, ◌<◌, length, position, IfSome};
ghost use Rattle.nine_session.specs.Attaching as nine;
ghost use Rattle.nine_wire.specs.declared.message.Request.TheVariants as request;
ghost use Rattle.nine_session.specs.Session.{Grants};
ghost use Rattle.nine_session.specs.Attempting.{agreed_size, kept, Looked};

use crate::session::Session;
use fo_world::{FileError, FileOps, Name, Place, View};
use nine_fids::{
    Fid, KnownUsers, MOST_FIDS, NOFID, Refusal, Stated, in_use, info_at, qid_of, table_of, user_of,
};
use nine_wire::{Ename, LARGEST_MESSAGE, Reply};

/// The least message size that is agreed to.
const LEAST: u32 = 256;

/// The place of the first point.
fn point(version: &[u8]) -> Option<usize>
    ensures found { result ≡ position (λ b. b == 46) version.now }
    ensures within { IfSome result (λ end. end < length version.now) }
{
    version.iter().position(|b| *b == b'.')
}

/// Whether a version is one of 9P2000: what stands before the first point.
fn is_known(version: &[u8]) -> bool
    ensures { result ≡ nine.is_known version.now }
{
    let end = point(version).unwrap_or(version.len());
    &version[..end] == b"9P2000".as_slice()
}

/// The text that a version is answered with.
fn answer_text(known: bool) -> &'static [u8]
    ensures { result.now ≡ nine.answer_text known }
{
    if known {
        b"9P2000".as_slice()
    } else {
        b"unknown".as_slice()
    }
}

/// The message size that is agreed to, where the version is known.
fn agreed_size(known: bool, msize: u32) -> Option<u32>
    ensures { result ≡ agreed_size known msize }
{
    if known { Some(msize) } else { None }
}

/// The root of the dated names of the snapshots, or of the archives.
fn dated(archive: bool) -> View
    ensures { result ≡ nine.dated archive }
{
    View::Dated {
        archive,
        year: 0,
        monthday: 0,
    }
}

/// The tree that a name stands for.
#[tactic(auto, unfolding(crate::specs::Attaching::tree_of))]
fn tree_of(aname: &[u8]) -> Option<View>
    ensures { result ≡ nine.tree_of aname.now }
{
    if aname == b"".as_slice() || aname == b"main/active".as_slice() {
        return Some(View::Active);
    }
    if aname == b"main/snapshot".as_slice() {
        return Some(dated(false));
    }
    if aname == b"main/archive".as_slice() {
        return Some(dated(true));
    }
    None
}

impl Session {
    ghost use Rattle.std.specs.Prelude.{◌≡◌, ℕ, List, IsTrue, IfOk};
    ghost use Rattle.fo_world.specs.World.{World};
    ghost use Rattle.fo_world.specs.declared.error.FileError.TheVariants as failure;
    ghost use Rattle.nine_fids.specs.Fids.{restarted};
    ghost use Rattle.nine_fids.specs.Told.{served};
    ghost use Rattle.nine_fids.specs.Looking.{Looks};
    ghost use Rattle.nine_session.specs.Attaching as nine;
    ghost use Rattle.nine_wire.specs.declared.message.Request.TheVariants as request;
    ghost use Rattle.nine_session.specs.Session.{Grants};
    ghost use Rattle.nine_session.specs.Attempting.{state, kept, Attempts, Looked, Replies, IsSent};

    /// Tversion.
    pub(crate) fn agree(
        &mut self,
        exclusive: &mut Vec<u32>,
        msize: u32,
        version: &Name,
    ) -> Result<Reply, Refusal>
        ensures attempts { (w : World) → Attempts (Ok (nine.version (state self.old exclusive.old.items w) msize version.now)) (λ x. x ≡ failure.Memory)
            (restarted (state self.old exclusive.old.items w) self.old.msize) (state self.new exclusive.new.items w) result }
        ensures sends { IsSent result }
    {
        if msize < LEAST {
            self.restart(exclusive, None);
            return Ok(Reply::Error {
                ename: Ename::new("msize too small"),
            });
        }
        let msize = msize.min(LARGEST_MESSAGE);
        let known = is_known(version.as_slice());
        let Ok(version) = Name::copy_of(self.alloc, answer_text(known)) else {
            let agreed = self.msize;
            self.restart(exclusive, agreed);
            return Err(Refusal::File(FileError::Memory));
        };
        self.restart(exclusive, agreed_size(known, msize));
        Ok(Reply::Version { msize, version })
    }

    /// Tauth.
    pub(crate) fn auth(&self) -> Result<Reply, Refusal>
        ensures replies { (x : List ℕ) (w : World) → Replies (nine.auth (state self.now x w)) (state self.now x w) result }
        ensures sends { IsSent result }
    {
        self.version()?;
        Err(Refusal::NoAuthentication)
    }

    /// Tflush.
    pub(crate) fn flush(&self) -> Result<Reply, Refusal>
        ensures replies { (x : List ℕ) (w : World) → Replies (nine.flush (state self.now x w)) (state self.now x w) result }
        ensures sends { IsSent result }
    {
        self.version()?;
        Ok(Reply::Flush)
    }

    /// Tattach.
    pub(crate) fn attach<F: FileOps>(
        &mut self,
        files: &mut F,
        known_users: &mut KnownUsers,
        fid: u32,
        afid: u32,
        uname: &Name,
        aname: &Name,
    ) -> Result<Reply, Refusal>
        requires { IsTrue (F.whole files.old) }
        ensures looked { (x : List ℕ) → Looked (⟦<F as Stated>⟧.state files.old) (⟦<F as Stated>⟧.state files.new) (kept self.old x) (kept self.new x)
            (λ e z. nine.attach e z fid afid uname.now aname.now) result }
        ensures part { IfOk result (λ r. Grants (request.Attach fid afid uname.now aname.now) r) }
        ensures sends { IsSent result }
        ensures keeps { F.keeps files.old files.new }
    {
        self.version()?;
        if afid != NOFID {
            return Err(Refusal::NoAuthentication);
        }
        if in_use(self.fids.as_slice(), fid) {
            return Err(Refusal::FidInUse);
        }
        if self.fids.len() >= MOST_FIDS {
            return Err(Refusal::TooManyFids);
        }
        let Some(view) = tree_of(aname.as_slice()) else {
            return Err(Refusal::UnknownTree);
        };
        let place = Place::root(self.alloc, view);
        let info = info_at(files, &place)?;
        let users = table_of(self.alloc, files, known_users)?;
        let user = user_of(self.alloc, users, uname)?;
        self.fids.push(Fid {
            number: fid,
            user,
            place,
            opened: None,
        })?;
        Ok(Reply::Attach { qid: qid_of(&info) })
    }
}
