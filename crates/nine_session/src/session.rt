//! Sessions.
ghost use Rattle.std.specs.Prelude.{◌≡◌};
ghost use Rattle.nine_session.specs.Attempting.{error_of};

use fo_world::FileOps;
use nine_fids::{
    Fid, KnownUsers, Refusal, Stated, fid_of, known, least, release, release_all, remove_fid,
};
use nine_wire::{Reply, Request};
use std::alloc::Global;
use std::marker::Model;
use std::mem;

/// A session: the message size, where a version is agreed to, its fids, and the table of users as it was last read.
#[derive(Drop)]
pub struct Session {
    pub(crate) alloc: Global,
    pub(crate) msize: Option<u32>,
    pub(crate) fids: Vec<Fid>,
    known_users: KnownUsers,
}

impl Model for Session {
    ghost use Rattle.nine_fids.specs.Fids.{Fids, AreUsers};

    ghost Value = { Fids };

    ghost view = { λ s. record { msize = s.msize; fids = s.fids.items } };

    ghost invariant = { λ s. AreUsers s.fids.items };
}

/// The Rerror of a refusal; none for a reply.
fn error_of(answer: Result<Reply, Refusal>) -> Option<Reply>
    ensures { result ≡ error_of answer }
{
    match answer {
        Ok(_) => None,
        Err(refusal) => Some(refusal.reply()),
    }
}

impl Session {
    ghost use Rattle.std.specs.Prelude.{◌≡◌, ◌<◌, ℕ, List, IsTrue, is_ok, IfOk, IfSome, MatchResult, MatchOption, Ok, Err, Some, None, length, slice_index_or};
    ghost use Rattle.nine_fids.specs.declared.fid.Fid.{Fid};
    ghost use Rattle.nine_wire.specs.Message.{RequestFits, ReplyFits};
    ghost use Rattle.nine_wire.specs.declared.message.Reply.TheVariants as reply;
    ghost use Rattle.fo_world.specs.World.{World};
    ghost use Rattle.nine_fids.specs.Fids as nine;
    ghost use Rattle.nine_fids.specs.Fids.{no_fids};
    ghost use Rattle.nine_fids.specs.Told.{served};
    ghost use Rattle.nine_session.specs.Session.{AsksSync, Serves, SettlesOnce, Drops, AgreesWithin};
    ghost use Rattle.nine_session.specs.Attempting.{state, kept, let_go, TriedOver, IsSent};
    ghost use Rattle.nine_fids.specs.declared.refusal.Refusal.TheVariants as refusal;

    /// A session before any message.
    pub fn new(alloc: Global) -> Session
        ensures { result ≡ no_fids }
    {
        Session {
            alloc,
            msize: None,
            fids: Vec::new(alloc),
            known_users: KnownUsers::new(alloc),
        }
    }

    /// The message size that was agreed to.
    pub(crate) fn version(&self) -> Result<u32, Refusal>
        ensures { (e : List ℕ) (w : World) → result ≡ nine.version_of (state self.now e w) }
    {
        self.msize.ok_or(Refusal::NoVersion)
    }

    /// The fid of a number.
    pub(crate) fn fid(&self, number: u32) -> Result<&Fid, Refusal>
        ensures { (e : List ℕ) (w : World) → MatchResult result (λ f. nine.fid_at (state self.now e w) number ≡ Ok f.now) (λ r. nine.fid_at (state self.now e w) number ≡ Err r) }
    {
        match known(self.fids.as_slice(), number) {
            Some(fid) => Ok(fid),
            None => Err(Refusal::UnknownFid),
        }
    }

    /// Lets the fid of this number go.
    pub(crate) fn let_go(&mut self, exclusive: &mut Vec<u32>, number: u32)
        ensures { (w : World) → state self.new exclusive.new.items w ≡ let_go number (state self.old exclusive.old.items w) }
    {
        let Some(fid) = fid_of(self.fids.as_slice(), number) else {
            return;
        };
        release(fid, exclusive);
        remove_fid(&mut self.fids, number);
    }

    /// Lets all fids go, and agrees to this message size, or none.
    pub(crate) fn restart(&mut self, exclusive: &mut Vec<u32>, msize: Option<u32>)
        ensures { (w : World) → state self.new exclusive.new.items w ≡ nine.restarted (state self.old exclusive.old.items w) msize }
    {
        release_all(self.fids.as_slice(), exclusive);
        self.fids.clear();
        self.msize = msize;
    }

    /// Attempts a request: its reply, or why it is refused.
    fn attempt<F: FileOps>(
        &mut self,
        files: &mut F,
        known_users: &mut KnownUsers,
        exclusive: &mut Vec<u32>,
        now: u32,
        request: Request,
    ) -> Result<Reply, Refusal>
        requires whole { IsTrue (F.whole files.old) }
        requires request { RequestFits request }
        ensures tried { TriedOver (⟦<F as Stated>⟧.state files.old) (⟦<F as Stated>⟧.state files.new) (λ w n. F.touches files.old w n files.new)
            (kept self.old exclusive.old.items) (kept self.new exclusive.new.items) now request result }
        ensures sends { IsSent result }
        ensures settled { AsksSync request → IfOk result (λ _. F.settled files.new) }
        ensures settles { AsksSync request → SettlesOnce F.looks F.settles files.old files.new }
    {
        match request {
            Request::Version { msize, version } => self.agree(exclusive, msize, &version),
            Request::Auth { .. } => self.auth(),
            Request::Attach {
                fid,
                afid,
                uname,
                aname,
            } => self.attach(files, known_users, fid, afid, &uname, &aname),
            Request::Flush { .. } => self.flush(),
            Request::Walk { fid, newfid, names } => self.walk(
                files,
                known_users,
                fid,
                newfid,
                &names,
            ),
            Request::Open { fid, mode } => self.open(files, known_users, exclusive, now, fid, mode),
            Request::Create {
                fid,
                name,
                perm,
                mode,
            } => self.create(files, known_users, exclusive, now, fid, &name, perm, mode),
            Request::Read { fid, offset, count } => self.read(files, fid, offset, count),
            Request::Write { fid, offset, bytes } => self.write(files, now, fid, offset, &bytes),
            Request::Clunk { fid } => self.clunk(files, known_users, exclusive, now, fid),
            Request::Remove { fid } => self.remove(files, known_users, exclusive, now, fid),
            Request::Stat { fid } => self.stat(files, fid),
            Request::Wstat { fid, stat } => self.wstat(files, known_users, now, fid, &stat),
        }
    }

    /// Answers a request that comes at the moment `now` (seconds since 1970-01-01 UTC). `exclusive` has the numbers of the files
    /// that any session has open for exclusive use.
    pub fn answer<F: FileOps>(
        &mut self,
        files: &mut F,
        exclusive: &mut Vec<u32>,
        now: u32,
        request: Request,
    ) -> Reply
        requires whole { IsTrue (F.whole files.old) }
        requires request { RequestFits request }

        // Where the files are honest the reply is the definition's, or the text of a failure that has its cause, and no more was touched than
        // the definition changes. Over any files the reply is of the request's kind, or a refusal with its cause.
        ensures serves { Serves (⟦<F as Stated>⟧.state files.old) (⟦<F as Stated>⟧.state files.new) (λ w n. F.touches files.old w n files.new)
            (kept self.old exclusive.old.items) now request result (kept self.new exclusive.new.items) }

        // The reply has a spelling, and agrees to no more than the largest message size.
        ensures fits { ReplyFits result }
        ensures size { AgreesWithin result }

        // Once a Twstat that touches nothing is answered Rwstat, all that was changed is settled. It looks, and settles once.
        ensures settled { AsksSync request → result ≡ reply.Wstat → F.settled files.new }
        ensures settles { AsksSync request → SettlesOnce F.looks F.settles files.old files.new }
    {
        let mut known_users = self.take_users();
        let attempted = self.attempt(files, &mut known_users, exclusive, now, request);
        self.put_users(known_users);
        match attempted {
            Ok(reply) => reply,
            Err(refusal) => refusal.reply(),
        }
    }

    /// Lets the least fid go, as a Tclunk would, and says whether there was one; with no fid the version is forgotten. The reply
    /// is the Rerror by which Tclunk would be refused.
    pub fn drop_one<F: FileOps>(
        &mut self,
        files: &mut F,
        exclusive: &mut Vec<u32>,
        now: u32,
    ) -> (bool, Option<Reply>)
        requires whole { IsTrue (F.whole files.old) }
        ensures drops { Drops (⟦<F as Stated>⟧.state files.old) (⟦<F as Stated>⟧.state files.new) (λ w n. F.touches files.old w n files.new)
            (kept self.old exclusive.old.items) now (nine.least self.old.fids) result.0 result.1 (kept self.new exclusive.new.items) }
    {
        let Some(number) = self.least_number() else {
            self.restart(exclusive, None);
            return (false, None);
        };
        let mut known_users = self.take_users();
        let clunked = self.clunk_fid(files, &mut known_users, exclusive, now, number);
        self.put_users(known_users);
        (true, error_of(clunked))
    }

    /// Takes the known users out, for a call that uses the rest of the session too.
    fn take_users(&mut self) -> KnownUsers
        ensures { self.new ≡ self.old }
    {
        mem::replace(&mut self.known_users, KnownUsers::new(self.alloc))
    }

    /// Puts the known users back.
    fn put_users(&mut self, known_users: KnownUsers)
        ensures { self.new ≡ self.old }
    {
        self.known_users = known_users;
    }

    /// The least number of a fid.
    fn least_number(&self) -> Option<u32>
        ensures { MatchOption result (nine.least self.now.fids ≡ None) (λ n. (f : Fid) × (nine.least self.now.fids ≡ Some f) × (n ≡ f.number)) }
    {
        let fid = least(self.fids.as_slice())?;
        Some(fid.number)
    }
}
