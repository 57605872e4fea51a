//! Calls that look.
ghost use Rattle.std.specs.Prelude.{◌≡◌, ◌⊎◌, Some, None};
ghost use Rattle.fo_world.specs.Step as step;
ghost use Rattle.fo_world.specs.Names.{no_names};
ghost use Rattle.fo_world.specs.Pairs.{pair_copied};
ghost use Rattle.fo_world.specs.Tree.{named};
ghost use Rattle.fo_plain.specs.Found.{Reaches};

use crate::dated::{
    dated_dir_name, dated_entries, dated_name, dated_node, dated_parent, entry_named, is_dated,
    least_above, taken_at,
};
use crate::plain::PlainFiles;
use crate::reached::{Found, Reached};
use crate::taken::{Taken, all_taken};
use fo_base::Bytes;
use fo_world::{Body, FileError, Info, Names, Node, Place, ShortText, View, follow};
use std::alloc::AllocError;

impl PlainFiles {
    ghost use Rattle.std.specs.Prelude.{◌≡◌, ◌⊎◌, ◌≤◌, length, take, drop, true, false, IfOk, OnOk, MatchResult, Some, None, Ok, Err};
    ghost use Rattle.std.specs.Option.{option_copied, option_map_or};
    ghost use Rattle.fo_world.specs.Dated.{dated_name, taken_at, slash};
    ghost use Rattle.fo_plain.specs.Kept.{kept, Tells};
    ghost use Rattle.fo_plain.specs.Found.{Reaches};
    ghost use Rattle.fo_world.specs.Pairs.{pair_copied};
    ghost use Rattle.fo_world.specs.Step as step;
    ghost use Rattle.fo_world.specs.Step.{HasEpoch, entries_of};

    // The name of the root of a view.
    pub(crate) fn root_name(&self, view: View) -> Result<Bytes, FileError>
        ensures { MatchResult result (λ b. b ≡ step.root_name true (kept self.now) view) (λ e. e ≡ FileError.Memory) }
    {
        match view {
            View::Active => Ok(Bytes::copy_of(self.alloc, b"/")?),
            View::Snap(epoch) => self.taken_name(false, epoch),
            View::Archive(epoch) => self.taken_name(true, epoch),
            View::Dated { year, monthday, .. } => {
                let name = dated_dir_name(year, monthday);
                Ok(Bytes::copy_of(self.alloc, name.as_slice())?)
            }
        }
    }

    // The dated name of a snapshot or an archive.
    fn taken_name(&self, archive: bool, epoch: u32) -> Result<Bytes, FileError>
        ensures { MatchResult result (λ b. b ≡ step.taken_name (kept self.now) archive epoch) (λ e. e ≡ FileError.Memory) }
    {
        let all = all_taken(self.alloc, &self.world, archive)?;
        self.name_among(all.as_slice(), epoch)
    }

    // The dated name of the one of an epoch, among all of its kind.
    fn name_among(&self, all: &[Taken], epoch: u32) -> Result<Bytes, FileError>
        ensures { MatchResult result (λ b. b ≡ option_map_or (dated_name all.now) (taken_at epoch all.now) slash) (λ e. e ≡ FileError.Memory) }
    {
        match taken_at(epoch, all) {
            None => Ok(Bytes::copy_of(self.alloc, b"/")?),
            Some(taken) => {
                let name = dated_name(all, taken);
                Ok(Bytes::copy_of(self.alloc, name.as_slice())?)
            }
        }
    }

    // The root of a dated view, where the trail is that of a root.
    fn dated_root(&self, archive: bool, year: u16, monthday: u16) -> Result<Node, FileError>
        ensures { MatchResult result (λ n. step.dated_root (kept self.now) archive year monthday ≡ Some n) (λ e. ((step.dated_root (kept self.now) archive year monthday ≡ None) × (e ≡ FileError.Gone)) ⊎ (e ≡ FileError.Memory)) }
    {
        let all = all_taken(self.alloc, &self.world, archive)?;
        if !is_dated(all.as_slice(), year, monthday) {
            return Err(FileError::Gone);
        }
        Ok(dated_node(self.alloc, year, monthday)?)
    }

    // The file at a place, where the root of its view has this name.
    pub(crate) fn reach<'a>(&'a self, name: &'a Bytes, at: &Place) -> Result<Reached<'a>, FileError>
        requires { name.now ≡ step.root_name true (kept self.now) at.now.view }
        ensures answer { Reaches (step.reached true (kept self.now) at.now) result }
        ensures epoch { OnOk result (HasEpoch at.now.view) }
    {
        match at.view {
            View::Active => reach_from(name, &self.world.active.root, at),
            View::Snap(epoch) => match self.world.snap(epoch) {
                None => Err(FileError::Gone),
                Some(root) => reach_from(name, root, at),
            },
            View::Archive(epoch) => match self.world.archive(epoch) {
                None => Err(FileError::Gone),
                Some(root) => reach_from(name, root, at),
            },
            View::Dated {
                archive,
                year,
                monthday,
            } => {
                let node = self.dated_root(archive, year, monthday)?;
                reach_made(name, node, at)
            }
        }
    }

    // What is told of the file at a place.
    pub(crate) fn look(&self, at: &Place) -> Result<Info, FileError>
        ensures { Tells (step.info true (kept self.now) at.now) (kept self.now) result }
    {
        let name = self.root_name(at.view)?;
        let reached = self.reach(&name, at)?;
        Ok(Info::of(
            self.alloc,
            at.copy(self.alloc)?,
            reached.name,
            reached.node(),
        )?)
    }

    // What is told of the root of a view, where there is one.
    fn look_at_view(&self, view: Option<View>) -> Result<Info, FileError>
        ensures { Tells (step.view_found true (kept self.now) view) (kept self.now) result }
    {
        match view {
            None => Err(FileError::Absent),
            Some(view) => Ok(self.look(&Place::root(self.alloc, view))?),
        }
    }

    // What is told of a file that was found in a directory.
    fn look_below(&self, at: &Place, found: Option<(&Bytes, &Node)>) -> Result<Info, FileError>
        requires { HasEpoch at.now.view }
        ensures { Tells (step.file_found (kept self.now) at.now (pair_copied found.entry)) (kept self.now) result }
    {
        match found {
            None => Err(FileError::Absent),
            Some((name, node)) => {
                let place = at.below(self.alloc, node.number)?;
                Ok(Info::of(self.alloc, place, name, node)?)
            }
        }
    }

    // What a dated directory lists.
    fn entries(
        &self,
        archive: bool,
        year: u16,
        monthday: u16,
    ) -> Result<Vec<(ShortText, View)>, AllocError>
        ensures { IfOk result (λ v. v.items ≡ entries_of (kept self.now) archive year monthday) }
    {
        let all = all_taken(self.alloc, &self.world, archive)?;
        dated_entries(self.alloc, archive, year, monthday, all.as_slice())
    }

    // The file with a name in a directory.
    #[tactic(auto, unfolding(fo_world::specs::Step::find))]
    pub(crate) fn look_for(&self, at: &Place, name: &[u8]) -> Result<Info, FileError>
        ensures { Tells (step.find true (kept self.now) at.now name.now) (kept self.now) result }
    {
        let root = self.root_name(at.view)?;
        let reached = self.reach(&root, at)?;
        self.look_in(at, name, reached.name, reached.node())
    }

    // The same, where the directory was reached.
    #[tactic(auto, unfolding(fo_world::specs::Step::find))]
    fn look_in(&self, at: &Place, name: &[u8], dir: &Bytes, node: &Node) -> Result<Info, FileError>
        requires reached { step.reached true (kept self.now) at.now ≡ Ok (dir.now, node.now) }
        requires epoch { HasEpoch at.now.view }
        ensures { Tells (step.find true (kept self.now) at.now name.now) (kept self.now) result }
    {
        let names = node.body.as_dir()?;
        match at.view {
            View::Active => self.look_below(at, entry(names, name)),
            View::Snap(_) => self.look_below(at, entry(names, name)),
            View::Archive(_) => self.look_below(at, entry(names, name)),
            View::Dated {
                archive,
                year,
                monthday,
            } => {
                let entries = self.entries(archive, year, monthday)?;
                self.look_at_view(entry_named(name, entries.as_slice()))
            }
        }
    }

    // The file that was found next in a directory, if there is one.
    fn look_next(
        &self,
        at: &Place,
        found: Option<(&Bytes, &Node)>,
    ) -> Result<Option<Info>, FileError>
        requires { HasEpoch at.now.view }
        ensures { Tells (step.next_found (kept self.now) at.now (pair_copied found.entry)) (kept self.now) result }
    {
        match found {
            None => Ok(None),
            Some(_) => Ok(Some(self.look_below(at, found)?)),
        }
    }

    // The root of the view that was found next, if there is one.
    fn look_next_view(&self, view: Option<View>) -> Result<Option<Info>, FileError>
        ensures { Tells (step.next_view_found true (kept self.now) view) (kept self.now) result }
    {
        match view {
            None => Ok(None),
            Some(view) => Ok(Some(self.look(&Place::root(self.alloc, view))?)),
        }
    }

    // The file with the least name above the one given.
    #[tactic(auto, unfolding(fo_world::specs::Step::next_name))]
    pub(crate) fn look_above(
        &self,
        at: &Place,
        after: Option<&Bytes>,
    ) -> Result<Option<Info>, FileError>
        ensures { Tells (step.next_name true (kept self.now) at.now (option_copied after.entry)) (kept self.now) result }
    {
        let name = self.root_name(at.view)?;
        let reached = self.reach(&name, at)?;
        let names = reached.node().body.as_dir()?;
        match at.view {
            View::Active => self.look_next(at, names.next_above(after)),
            View::Snap(_) => self.look_next(at, names.next_above(after)),
            View::Archive(_) => self.look_next(at, names.next_above(after)),
            View::Dated {
                archive,
                year,
                monthday,
            } => {
                let entries = self.entries(archive, year, monthday)?;
                self.look_next_view(least_above(after, entries.as_slice()))
            }
        }
    }

    // The view of the directory above the root of a view.
    fn view_above(&self, view: View) -> Result<View, AllocError>
        ensures { IfOk result (λ v. v ≡ step.view_above true (kept self.now) view) }
    {
        match view {
            View::Active => Ok(View::Active),
            View::Snap(epoch) => {
                let all = all_taken(self.alloc, &self.world, false)?;
                Ok(dated_parent(false, view, taken_at(epoch, all.as_slice())))
            }
            View::Archive(epoch) => {
                let all = all_taken(self.alloc, &self.world, true)?;
                Ok(dated_parent(true, view, taken_at(epoch, all.as_slice())))
            }
            View::Dated {
                archive,
                year,
                monthday,
            } => Ok(View::Dated {
                archive,
                year: if monthday == 0 { 0 } else { year },
                monthday: 0,
            }),
        }
    }

    // The place of the directory above.
    fn above(&self, at: &Place) -> Result<Place, AllocError>
        ensures { IfOk result (λ p. p ≡ step.above true (kept self.now) at.now) }
    {
        if at.trail.as_slice().len() == 0 {
            let view = self.view_above(at.view)?;
            return Ok(Place::root(self.alloc, view));
        }
        Ok(Place {
            view: at.view,
            trail: at.trail.front(self.alloc)?,
        })
    }

    // What is told of the directory above.
    #[tactic(auto, unfolding(fo_world::specs::Step::parent))]
    pub(crate) fn look_up(&self, at: &Place) -> Result<Info, FileError>
        ensures { Tells (step.parent true (kept self.now) at.now) (kept self.now) result }
    {
        let name = self.root_name(at.view)?;
        let _reached = self.reach(&name, at)?;
        let above = self.above(at)?;
        self.look(&above)
    }

    // The bytes of a file.
    #[tactic(auto, unfolding(fo_world::specs::Step::read))]
    pub(crate) fn look_into(
        &self,
        at: &Place,
        offset: u64,
        into: &mut [u8],
    ) -> Result<usize, FileError>
        ensures { let told = step.read true (kept self.now) at.now offset (length into.old) in
            MatchResult result
            (λ n. (told ≡ Ok (take n into.new, kept self.now)) × (n ≤ length into.old) × (drop n into.new ≡ drop n into.old))
            (λ e. ((told ≡ Err e) ⊎ (e ≡ FileError.Memory)) × (into.new ≡ into.old)) }
    {
        let name = self.root_name(at.view)?;
        let reached = self.reach(&name, at)?;
        let bytes = reached.node().body.as_file()?;
        Ok(bytes.read(offset, into))
    }
}

// The entry with a name.
fn entry<'a>(names: &'a Names, name: &[u8]) -> Option<(&'a Bytes, &'a Node)>
    ensures { pair_copied result ≡ named name.now names.now }
{
    names.named(name)
}

// The file that the trail of a place leads to from a root.
fn reach_from<'a>(name: &'a Bytes, root: &'a Node, at: &Place) -> Result<Reached<'a>, FileError>
    ensures { Reaches (step.reached_from name.now (Some root.now) at.now.trail) result }
{
    match follow(name, root, at.trail.as_slice()) {
        None => Err(FileError::Gone),
        Some((name, node)) => Ok(Reached {
            name,
            found: Found::Kept(node),
        }),
    }
}

// The same from a directory that was made, and has no names.
fn reach_made<'a>(name: &'a Bytes, node: Node, at: &Place) -> Result<Reached<'a>, FileError>
    requires { node.body ≡ Body.Dir no_names }
    ensures { Reaches (step.reached_from name.now (Some node) at.now.trail) result }
{
    if at.trail.as_slice().len() > 0 {
        return Err(FileError::Gone);
    }
    Ok(Reached {
        name,
        found: Found::Made(node),
    })
}
