//! Whether a change is granted.
ghost use Rattle.std.specs.Prelude.{◌≡◌, ◌^◌, ◌≤◌, is_some};
ghost use Rattle.fo_world.specs.Tree.{named};
ghost use Rattle.std.specs.Option.{option_copied, ForSome};
ghost use Rattle.std.specs.Bool.{OnFalse};
ghost use Rattle.fo_world.specs.Step as step;

use crate::plain::PlainFiles;
use fo_base::Bytes;
use fo_world::{
    Body, Change, DMDIR, FileError, MOST_ABOVE, MOST_BYTES, MOST_NAMES, MOST_NUMBERS, Names, Node,
    Place, View, follow,
};

impl PlainFiles {
    ghost use Rattle.std.specs.Prelude.{◌≡◌, ◌⊎◌, ◌^◌, ◌<◌, ◌≤◌, ◌+◌, length, true, IfOk, OnOk, MatchResult, Ok, Err, if◌then◌else◌};
    ghost use Rattle.std.specs.Option.{option_copied, ForSome};
    ghost use Rattle.fo_plain.specs.Kept.{kept, changed_world, Grants};
    ghost use Rattle.fo_world.specs.Step as step;
    ghost use Rattle.fo_world.specs.Step.{after_write, after_create, after_remove};

    // Whether a write is granted: true where there is anything to write.
    #[tactic(auto, unfolding(fo_world::specs::Step::write))]
    pub(crate) fn may_write(
        &self,
        at: &Place,
        offset: u64,
        bytes: &[u8],
        who: &Bytes,
        now: u32,
    ) -> Result<bool, FileError>
        ensures answer { Grants (λ go. if go then after_write (kept self.now) at.now offset bytes.now who.now now else kept self.now)
            (step.write true (2 ^ 40) (kept self.now) at.now offset bytes.now who.now now) result }
        ensures fits { IfOk result (λ go. go ≡ true → offset + length bytes.now ≤ 2 ^ 47) }
    {
        let root = self.root_name(at.view)?;
        let reached = self.reach(&root, at)?;
        self.may_write_to(at, offset, bytes, reached.name, reached.node(), who, now)
    }

    // The same, where the file was reached.
    #[tactic(auto, unfolding(fo_world::specs::Step::write))]
    fn may_write_to(
        &self,
        at: &Place,
        offset: u64,
        bytes: &[u8],
        name: &Bytes,
        node: &Node,
        who: &Bytes,
        now: u32,
    ) -> Result<bool, FileError>
        requires { step.reached true (kept self.now) at.now ≡ Ok (name.now, node.now) }
        ensures answer { Grants (λ go. if go then after_write (kept self.now) at.now offset bytes.now who.now now else kept self.now)
            (step.write true (2 ^ 40) (kept self.now) at.now offset bytes.now who.now now) result }
        ensures fits { IfOk result (λ go. go ≡ true → offset + length bytes.now ≤ 2 ^ 47) }
    {
        let _bytes = node.body.as_file()?;
        let View::Active = at.view else {
            return Err(FileError::ReadOnly);
        };
        if bytes.len() == 0 {
            return Ok(false);
        }
        if offset > MOST_BYTES || bytes.len() as u64 > MOST_BYTES - offset {
            return Err(FileError::TooBig);
        }
        if self.world.halted {
            return Err(FileError::Halted);
        }
        Ok(true)
    }

    // Whether a new file is granted.
    #[tactic(auto, unfolding(fo_world::specs::Step::create))]
    pub(crate) fn may_create(
        &self,
        at: &Place,
        name: &[u8],
        mode: u32,
        who: &Bytes,
        uid: &Bytes,
        gid: &Bytes,
        now: u32,
    ) -> Result<(), FileError>
        ensures answer { MatchResult result
            (λ _. step.create true (kept self.now) at.now name.now mode who.now uid.now gid.now now ≡ Ok (after_create (kept self.now) at.now name.now mode who.now uid.now gid.now now))
            (λ e. (step.create true (kept self.now) at.now name.now mode who.now uid.now gid.now now ≡ Err e) ⊎ (e ≡ FileError.Memory)) }
        ensures active { OnOk result (at.now.view ≡ View.Active) }
        ensures number { OnOk result ((kept self.now).next < 2 ^ 30) }
    {
        let root = self.root_name(at.view)?;
        let reached = self.reach(&root, at)?;
        self.may_create_in(
            at,
            name,
            mode,
            reached.name,
            reached.node(),
            who,
            uid,
            gid,
            now,
        )
    }

    // The same, where the directory was reached.
    #[tactic(auto, unfolding(fo_world::specs::Step::create))]
    fn may_create_in(
        &self,
        at: &Place,
        name: &[u8],
        mode: u32,
        dir: &Bytes,
        node: &Node,
        who: &Bytes,
        uid: &Bytes,
        gid: &Bytes,
        now: u32,
    ) -> Result<(), FileError>
        requires { step.reached true (kept self.now) at.now ≡ Ok (dir.now, node.now) }
        ensures answer { MatchResult result
            (λ _. step.create true (kept self.now) at.now name.now mode who.now uid.now gid.now now ≡ Ok (after_create (kept self.now) at.now name.now mode who.now uid.now gid.now now))
            (λ e. (step.create true (kept self.now) at.now name.now mode who.now uid.now gid.now now ≡ Err e) ⊎ (e ≡ FileError.Memory)) }
        ensures active { OnOk result (at.now.view ≡ View.Active) }
        ensures number { OnOk result ((kept self.now).next < 2 ^ 30) }
    {
        let names = node.body.as_dir()?;
        let View::Active = at.view else {
            return Err(FileError::ReadOnly);
        };
        if has_name(names, name) {
            return Err(FileError::Exists);
        }
        if self.world.halted {
            return Err(FileError::Halted);
        }
        if mode >= DMDIR && at.trail.as_slice().len() >= MOST_ABOVE {
            return Err(FileError::TooDeep);
        }
        if names.len() >= MOST_NAMES {
            return Err(FileError::DirFull);
        }
        if self.world.next >= MOST_NUMBERS {
            return Err(FileError::NoNumbers);
        }
        Ok(())
    }

    // Whether a removal is granted: the name of the file.
    #[tactic(auto, unfolding(fo_world::specs::Step::remove))]
    pub(crate) fn may_remove(&self, at: &Place, who: &Bytes, now: u32) -> Result<Bytes, FileError>
        ensures { Grants (λ name. after_remove (kept self.now) at.now name who.now now)
            (step.remove true (kept self.now) at.now who.now now) result }
    {
        let root = self.root_name(at.view)?;
        let reached = self.reach(&root, at)?;
        self.may_remove_at(at, reached.name, reached.node(), who, now)
    }

    // The same, where the file was reached.
    #[tactic(auto, unfolding(fo_world::specs::Step::remove))]
    fn may_remove_at(
        &self,
        at: &Place,
        name: &Bytes,
        node: &Node,
        who: &Bytes,
        now: u32,
    ) -> Result<Bytes, FileError>
        requires { step.reached true (kept self.now) at.now ≡ Ok (name.now, node.now) }
        ensures { Grants (λ old. after_remove (kept self.now) at.now old who.now now)
            (step.remove true (kept self.now) at.now who.now now) result }
    {
        let View::Active = at.view else {
            return Err(FileError::ReadOnly);
        };
        if node.body.has_names() {
            return Err(FileError::NotEmpty);
        }
        if self.world.halted {
            return Err(FileError::Halted);
        }
        Ok(name.copy(self.alloc)?)
    }

    // Whether another file beside this one has a name that is given.
    fn is_taken(&self, at: &Place, name: Option<&Bytes>) -> Result<bool, FileError>
        ensures { MatchResult result (λ b. b ≡ step.is_taken (option_copied name.entry) (step.siblings (kept self.now) at.now)) (λ e. e ≡ FileError.Memory) }
    {
        let Some(name) = name else {
            return Ok(false);
        };
        let slash = Bytes::copy_of(self.alloc, b"/")?;
        let trail = at.trail.as_slice();
        let len = trail.len().saturating_sub(1);
        match follow(&slash, &self.world.active.root, &trail[..len]) {
            None => Ok(false),
            Some((_, node)) => Ok(node.body.has_name(name.as_slice())),
        }
    }

    // Whether a change is granted: the name of the file where there is anything to change.
    #[tactic(auto, unfolding(fo_world::specs::Step::change))]
    pub(crate) fn may_change(
        &self,
        at: &Place,
        what: &Change,
        who: &Bytes,
        now: u32,
    ) -> Result<Option<Bytes>, FileError>
        ensures answer { Grants (λ old. changed_world (kept self.now) at.now what.now old who.now now)
            (step.change true (2 ^ 40) (kept self.now) at.now what.now who.now now) result }
        ensures fits { OnOk result (ForSome what.now.length (λ n. n ≤ 2 ^ 47)) }
    {
        let root = self.root_name(at.view)?;
        let reached = self.reach(&root, at)?;
        self.may_change_at(at, what, reached.name, reached.node(), who, now)
    }

    // The same, where the file was reached.
    #[tactic(auto, unfolding(fo_world::specs::Step::change))]
    fn may_change_at(
        &self,
        at: &Place,
        what: &Change,
        old: &Bytes,
        node: &Node,
        who: &Bytes,
        now: u32,
    ) -> Result<Option<Bytes>, FileError>
        requires { step.reached true (kept self.now) at.now ≡ Ok (old.now, node.now) }
        ensures answer { Grants (λ old. changed_world (kept self.now) at.now what.now old who.now now)
            (step.change true (2 ^ 40) (kept self.now) at.now what.now who.now now) result }
        ensures fits { OnOk result (ForSome what.now.length (λ n. n ≤ 2 ^ 47)) }
    {
        let body = &node.body;
        if gives_length(what.length, body) {
            return Err(FileError::IsDir);
        }
        let View::Active = at.view else {
            return Err(FileError::ReadOnly);
        };
        let name = new_name(&what.name, old.as_slice());
        if self.is_taken(at, name)? {
            return Err(FileError::Exists);
        }
        if exceeds(what.length) {
            return Err(FileError::TooBig);
        }
        if changes_nothing(what, old.as_slice(), body) {
            return Ok(None);
        }
        if self.world.halted {
            return Err(FileError::Halted);
        }
        Ok(Some(old.copy(self.alloc)?))
    }
}

/// The name that is given, where it is another than the present one.
pub(crate) fn new_name<'a>(name: &'a Option<Bytes>, old: &[u8]) -> Option<&'a Bytes>
    ensures { option_copied result ≡ step.new_name name.now old.now }
{
    match name {
        None => None,
        Some(name) => {
            if name.as_slice() == old {
                None
            } else {
                Some(name)
            }
        }
    }
}

// Whether a directory has this name.
fn has_name(names: &Names, name: &[u8]) -> bool
    ensures { result ≡ is_some (named name.now names.now) }
{
    names.named(name).is_some()
}

// Whether a directory is given a length but 0.
fn gives_length(len: Option<u64>, body: &Body) -> bool
    ensures { result ≡ step.gives_length len body.now }
{
    match len {
        None => false,
        Some(len) => body.is_dir() && len > 0,
    }
}

// Whether a length that is given is too large.
fn exceeds(len: Option<u64>) -> bool
    ensures exceeds { result ≡ step.exceeds (2 ^ 40) len }
    ensures fits { OnFalse result (ForSome len (λ n. n ≤ 2 ^ 47)) }
{
    match len {
        None => false,
        Some(len) => len > MOST_BYTES,
    }
}

// Whether a change changes nothing of a file with this name and body.
fn changes_nothing(what: &Change, name: &[u8], body: &Body) -> bool
    ensures { result ≡ step.changes_nothing what.now name.now body.now }
{
    what.mode.is_none()
        && what.mtime.is_none()
        && what.gid.is_none()
        && new_name(&what.name, name).is_none()
        && (what.length.is_none() || body.is_dir())
}
