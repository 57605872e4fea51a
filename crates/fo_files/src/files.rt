//! Files over blocks.
use fo_base::Bytes;
use fo_files_create::create_file;
use fo_files_rename::change_file;
use fo_files_request::write_file;
use fo_files_take::files_look::file_error;
use fo_files_take::remove_file;
use fo_files_views as views;
use fo_ports::Blocks;
use fo_world::{Change, FileError, FileOps, Info, Place, View};
use std::alloc::Global;

/// The files that blocks have: those of the active tree, and the dated directories, which are empty. The blocks' device tells nothing. Where
/// the system is halted nothing is changed.
#[derive(Drop)]
pub struct Files<B: Blocks> {
    alloc: Global,
    pub on: B,
    pub halted: bool,
    ghost silent: { (B.state on).tells → ⊥ },
}

impl<B: Blocks> Files<B> {
    ghost use Rattle.std.specs.Prelude.{◌≡◌};

    /// The files of these blocks.
    pub fn new(alloc: Global, on: B, halted: bool) -> Files<B>
        requires silent { (B.state on).tells → ⊥ }
        ensures on { result.on ≡ on }
        ensures halted { result.halted ≡ halted }
    {
        Files { alloc, on, halted }
    }

    /// The blocks, given back.
    pub fn into_blocks(self) -> B
        ensures { result ≡ self.on }
    {
        let Files { on, .. } = self;
        on
    }
}

impl<B: Blocks> FileOps for Files<B> {
    ghost use Rattle.std.specs.Prelude.{◌≡◌, ◌<◌, ◌≤◌, ◌^◌, true, false, refl, length, drop, IfOk, OnOk, IfSome, None};
    ghost use Rattle.std.specs.Option.{option_copied};
    ghost use Rattle.fo_world.specs.Answers.{HadRoom, Refuses};
    ghost use Rattle.fo_world.specs.Fits.{InfoFits};
    ghost use Rattle.fo_world.specs.Limits.{IsBelowRoot, IsName, IsUser};
    ghost use Rattle.fo_world.specs.Step as step;
    ghost use Rattle.fo_world.specs.Step.{below, create_need, depth_of, give, is_active, most_need, write_need};
    ghost use Rattle.fo_world.specs.Tree.{comes_before, last};
    ghost use Rattle.fo_files_take.specs.of_files_along.Along.{HasRoom};
    ghost use Rattle.fo_files_take.specs.of_files_look.Told.{above, faults_of, name_given, IsRead, IsTold};
    ghost use Rattle.fo_files_views.specs.Aside.{Says, SaysOrWants};
    ghost use Rattle.fo_files.specs.Kept.{untold, AllSettled, Keeps, RefusesAs, Takes};
    ghost use Rattle.fo_files.specs.Laws as law;
    ghost use Rattle.fo_ports.specs.State.{Looks};

    ghost world = { λ _. untold };

    ghost faults = { λ f. faults_of (B.state f.on) };

    ghost has_room = { λ f n. HasRoom (B.state f.on) n };

    ghost honest = { λ f. (B.state f.on).tells };

    ghost largest = { λ _. 2 ^ 40 };

    ghost whole = { λ _. true };

    ghost serves = { λ _ _. Unit {0} };

    ghost settled = { λ f. AllSettled (B.state f.on) };

    ghost looks = { λ a b. Looks (B.state a.on) (B.state b.on) };

    ghost settles = { λ a b. B.settles a.on b.on };

    ghost looks_at_once = { λ a. law.looks_at_once (B.state a.on) };

    ghost keeps = { λ a b. Keeps (B.keeps a.on b.on) (B.state a.on) (B.state b.on) a.halted b.halted };

    ghost touches = { λ a w n b. Takes n (B.keeps a.on b.on) (B.state a.on) (B.state b.on) a.halted b.halted };

    ghost keeps_at_once = { λ a. law.keeps_at_once (B.state a.on) a.halted (B.keeps_at_once a.on) };

    ghost keeps_joins = { λ a b c p q. law.keeps_joins (B.state a.on) (B.state b.on) (B.state c.on) a.halted b.halted c.halted (B.keeps_joins a.on b.on c.on) p q };

    ghost keeps_faults = { λ a b p. law.faults_kept (B.state a.on) (B.state b.on) (B.keeps_all a.on b.on p.keeps) };

    ghost keeps_honest = { λ a b p h. (B.keeps_all a.on b.on p.keeps).still_tells.1 h };

    ghost keeps_silent = { λ a b p h. (B.keeps_all a.on b.on p.keeps).still_tells.0 h };

    ghost keeps_largest = { λ a b p. refl };

    ghost keeps_whole = { λ a b p. refl };

    ghost keeps_serves = { λ a b v p h. tt };

    ghost keeps_room = { λ a b n p h. law.keeps_room (B.state a.on) (B.state b.on) a.halted b.halted n p h };

    ghost keeps_touches = { λ a b w p. law.keeps_takes (B.state a.on) (B.state b.on) a.halted b.halted p };

    ghost keeps_then = { λ a b c w n p q. law.keeps_then (B.state a.on) (B.state b.on) (B.state c.on) a.halted b.halted c.halted n (B.keeps_joins a.on b.on c.on) p q };

    ghost touches_more = { λ a b w n m le p. law.takes_more (B.state a.on) (B.state b.on) a.halted b.halted n m le p };

    ghost touches_room = { λ a b w n r q p h k. law.takes_room (B.state a.on) (B.state b.on) a.halted b.halted n r q p h k };

    ghost touches_faults = { λ a b w n p. law.faults_kept (B.state a.on) (B.state b.on) (B.keeps_all a.on b.on p.keeps) };

    ghost touches_honest = { λ a b w n p h. (B.keeps_all a.on b.on p.keeps).still_tells.1 h };

    ghost touches_largest = { λ a b w n p. refl };

    ghost touches_whole = { λ a b w n p. refl };

    ghost touches_serves = { λ a b w n v p h. tt };

    ghost room_settled = { λ a n h. law.room_settled (B.state a.on) n h };

    ghost fits = { λ a h. absurd (a.silent h) };

    ghost whole_serves = { λ a v p. tt };

    fn info(&mut self, at: &Place) -> Result<Info, FileError>
        ensures silent { (B.state self.old.on).tells → ⊥ }
        ensures fits { IfOk result InfoFits }
        ensures active { is_active at.now.view ≡ true → IfOk result (λ i. IsTold (B.state self.new.on) at.now i × (i.place ≡ at.now) × (0 < length at.now.trail → i.path ≡ last at.now.trail)) }
        ensures aside { is_active at.now.view ≡ false → SaysOrWants (λ w. step.info true w at.now) result }
        ensures cause { Refuses (faults_of (B.state self.old.on)) (faults_of (B.state self.new.on)) (B.state self.old.on).tells (HasRoom (B.state self.new.on)) 0 result }
        ensures looks { Looks (B.state self.old.on) (B.state self.new.on) }
        ensures keeps { Keeps (B.keeps self.old.on self.new.on) (B.state self.old.on) (B.state self.new.on) self.old.halted self.new.halted }
    {
        views::info(self.alloc, &mut self.on, at)
    }

    fn find(&mut self, at: &Place, name: &[u8]) -> Result<Info, FileError>
        ensures silent { (B.state self.old.on).tells → ⊥ }
        ensures fits { IfOk result InfoFits }
        ensures active { is_active at.now.view ≡ true → IfOk result (λ i. IsTold (B.state self.new.on) (below at.now i.path) i × (i.name ≡ name.now)) }
        ensures aside { is_active at.now.view ≡ false → Says (λ w. step.find true w at.now name.now) result }
        ensures cause { Refuses (faults_of (B.state self.old.on)) (faults_of (B.state self.new.on)) (B.state self.old.on).tells (HasRoom (B.state self.new.on)) 0 result }
        ensures looks { Looks (B.state self.old.on) (B.state self.new.on) }
        ensures keeps { Keeps (B.keeps self.old.on self.new.on) (B.state self.old.on) (B.state self.new.on) self.old.halted self.new.halted }
    {
        views::find(self.alloc, &mut self.on, at, name)
    }

    fn parent(&mut self, at: &Place) -> Result<Info, FileError>
        ensures silent { (B.state self.old.on).tells → ⊥ }
        ensures fits { IfOk result InfoFits }
        ensures active { is_active at.now.view ≡ true → IfOk result (λ i. IsTold (B.state self.new.on) (above at.now) i × (i.place ≡ above at.now) × (0 < length (above at.now).trail → i.path ≡ last (above at.now).trail)) }
        ensures aside { is_active at.now.view ≡ false → SaysOrWants (λ w. step.parent true w at.now) result }
        ensures cause { Refuses (faults_of (B.state self.old.on)) (faults_of (B.state self.new.on)) (B.state self.old.on).tells (HasRoom (B.state self.new.on)) 0 result }
        ensures looks { Looks (B.state self.old.on) (B.state self.new.on) }
        ensures keeps { Keeps (B.keeps self.old.on self.new.on) (B.state self.old.on) (B.state self.new.on) self.old.halted self.new.halted }
    {
        views::parent(self.alloc, &mut self.on, at)
    }

    fn next_name(&mut self, at: &Place, after: Option<&Bytes>) -> Result<Option<Info>, FileError>
        ensures silent { (B.state self.old.on).tells → ⊥ }
        ensures fits { IfOk result (λ told. IfSome told InfoFits) }
        ensures active { is_active at.now.view ≡ true → IfOk result (λ told. IfSome told (λ i. IsTold (B.state self.new.on) (below at.now i.path) i × (comes_before (name_given (option_copied after.entry)) i.name ≡ true))) }
        ensures aside { is_active at.now.view ≡ false → Says (λ w. step.next_name true w at.now (option_copied after.entry)) result }
        ensures cause { Refuses (faults_of (B.state self.old.on)) (faults_of (B.state self.new.on)) (B.state self.old.on).tells (HasRoom (B.state self.new.on)) 0 result }
        ensures looks { Looks (B.state self.old.on) (B.state self.new.on) }
        ensures keeps { Keeps (B.keeps self.old.on self.new.on) (B.state self.old.on) (B.state self.new.on) self.old.halted self.new.halted }
    {
        views::next_name(self.alloc, &mut self.on, at, after)
    }

    fn read(&mut self, at: &Place, offset: u64, into: &mut [u8]) -> Result<usize, FileError>
        ensures silent { (B.state self.old.on).tells → ⊥ }
        ensures front { IfOk result (λ n. (n ≤ length into.old) × (drop n into.new ≡ drop n into.old)) }
        ensures active { is_active at.now.view ≡ true → IfOk result (IsRead (B.state self.new.on) at.now.trail offset (length into.old)) }
        ensures aside { is_active at.now.view ≡ false → RefusesAs (λ w. step.read true w at.now offset (length into.old)) result }
        ensures cause { Refuses (faults_of (B.state self.old.on)) (faults_of (B.state self.new.on)) (B.state self.old.on).tells (HasRoom (B.state self.new.on)) 0 result }
        ensures looks { Looks (B.state self.old.on) (B.state self.new.on) }
        ensures keeps { Keeps (B.keeps self.old.on self.new.on) (B.state self.old.on) (B.state self.new.on) self.old.halted self.new.halted }
    {
        views::read(self.alloc, &mut self.on, at, offset, into)
    }

    #[tactic(auto, using(crate::proofs::Quiet::once_quiet))]
    fn write(
        &mut self,
        at: &Place,
        offset: u64,
        bytes: &[u8],
        who: &Bytes,
        now: u32,
    ) -> Result<(), FileError>
        requires who { IsUser who.now }
        ensures silent { (B.state self.old.on).tells → ⊥ }
        ensures aside { is_active at.now.view ≡ false → RefusesAs (λ w. step.write true (2 ^ 40) w at.now offset bytes.now who.now now) result }
        ensures room { HadRoom (HasRoom (B.state self.old.on)) (write_need at.now bytes.now) result }
        ensures awake { OnOk result (0 < length bytes.now → self.old.halted ≡ false) }
        ensures cause { Refuses (faults_of (B.state self.old.on)) (faults_of (B.state self.new.on)) (B.state self.old.on).tells (HasRoom (B.state self.new.on)) (write_need at.now bytes.now) result }
        ensures touches { Takes (write_need at.now bytes.now) (B.keeps self.old.on self.new.on) (B.state self.old.on) (B.state self.new.on) self.old.halted self.new.halted }
    {
        match at.view {
            View::Active => {
                let root = self.on.root();
                write_file(
                    self.alloc,
                    &mut self.on,
                    root,
                    at,
                    offset,
                    bytes,
                    who,
                    now,
                    self.halted,
                )
            }
            _ => Err(views::no_write(at)),
        }
    }

    #[tactic(auto, using(crate::proofs::Quiet::once_quiet))]
    fn create(
        &mut self,
        at: &Place,
        name: &Bytes,
        mode: u32,
        who: &Bytes,
        uid: &Bytes,
        gid: &Bytes,
        now: u32,
    ) -> Result<Info, FileError>
        requires name { IsName name.now }
        requires who { IsUser who.now }
        requires uid { IsUser uid.now }
        requires gid { IsUser gid.now }
        ensures silent { (B.state self.old.on).tells → ⊥ }
        ensures fits { IfOk result InfoFits }
        ensures aside { is_active at.now.view ≡ false → RefusesAs (λ w. step.create true w at.now name.now mode who.now uid.now gid.now now) result }
        ensures room { HadRoom (HasRoom (B.state self.old.on)) (create_need at.now) result }
        ensures awake { OnOk result (self.old.halted ≡ false) }
        ensures cause { Refuses (faults_of (B.state self.old.on)) (faults_of (B.state self.new.on)) (B.state self.old.on).tells (HasRoom (B.state self.new.on)) (create_need at.now) result }
        ensures touches { Takes (create_need at.now) (B.keeps self.old.on self.new.on) (B.state self.old.on) (B.state self.new.on) self.old.halted self.new.halted }
    {
        match at.view {
            View::Active => {
                let root = self.on.root();
                create_file(
                    self.alloc,
                    &mut self.on,
                    root,
                    at,
                    name,
                    mode,
                    who,
                    uid,
                    gid,
                    now,
                    self.halted,
                )
            }
            _ => Err(views::no_create(at)),
        }
    }

    #[tactic(auto, using(crate::proofs::Quiet::once_quiet))]
    fn remove(&mut self, at: &Place, who: &Bytes, now: u32) -> Result<(), FileError>
        requires below { IsBelowRoot at.now }
        requires who { IsUser who.now }
        ensures silent { (B.state self.old.on).tells → ⊥ }
        ensures aside { is_active at.now.view ≡ false → RefusesAs (λ w. step.remove true w at.now who.now now) result }
        ensures room { HadRoom (HasRoom (B.state self.old.on)) (give (depth_of at.now)) result }
        ensures awake { OnOk result (self.old.halted ≡ false) }
        ensures cause { Refuses (faults_of (B.state self.old.on)) (faults_of (B.state self.new.on)) (B.state self.old.on).tells (HasRoom (B.state self.new.on)) (give (depth_of at.now)) result }
        ensures touches { Takes (give (depth_of at.now)) (B.keeps self.old.on self.new.on) (B.state self.old.on) (B.state self.new.on) self.old.halted self.new.halted }
    {
        match at.view {
            View::Active => {
                let root = self.on.root();
                remove_file(self.alloc, &mut self.on, root, at, who, now, self.halted)
            }
            _ => Err(views::no_remove(at)),
        }
    }

    #[tactic(auto, using(crate::proofs::Quiet::once_quiet))]
    fn change(&mut self, at: &Place, what: &Change, who: &Bytes, now: u32) -> Result<(), FileError>
        requires name { IfSome what.now.name IsName }
        requires gid { IfSome what.now.gid IsUser }
        requires root { length at.now.trail ≡ 0 → what.now.name ≡ None }
        requires who { IsUser who.now }
        ensures silent { (B.state self.old.on).tells → ⊥ }
        ensures aside { is_active at.now.view ≡ false → RefusesAs (λ w. step.change true (2 ^ 40) w at.now what.now who.now now) result }
        ensures cause { Refuses (faults_of (B.state self.old.on)) (faults_of (B.state self.new.on)) (B.state self.old.on).tells (HasRoom (B.state self.new.on)) (most_need at.now) result }
        ensures touches { Takes (most_need at.now) (B.keeps self.old.on self.new.on) (B.state self.old.on) (B.state self.new.on) self.old.halted self.new.halted }
    {
        match at.view {
            View::Active => {
                let root = self.on.root();
                change_file(
                    self.alloc,
                    &mut self.on,
                    root,
                    at,
                    what,
                    who,
                    now,
                    self.halted,
                )
            }
            _ => Err(views::no_change(at, what.length)),
        }
    }

    fn sync(&mut self) -> Result<(), FileError>
        ensures silent { (B.state self.old.on).tells → ⊥ }
        ensures settled { IfOk result (λ _. AllSettled (B.state self.new.on)) }
        ensures cause { Refuses (faults_of (B.state self.old.on)) (faults_of (B.state self.new.on)) (B.state self.old.on).tells (HasRoom (B.state self.new.on)) 0 result }
        ensures settles { B.settles self.old.on self.new.on }
        ensures keeps { Keeps (B.keeps self.old.on self.new.on) (B.state self.old.on) (B.state self.new.on) self.old.halted self.new.halted }
    {
        match self.on.settle() {
            Ok(()) => Ok(()),
            Err(why) => Err(file_error(why)),
        }
    }
}
