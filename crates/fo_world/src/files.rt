//! The calls on files.
use crate::error::FileError;
use crate::place::{Change, Info, Place};
use fo_base::Bytes;

/// Calls on a world of files, each by the file step. An implementer keeps the whole world, or one tree of it; it may borrow what it stands on.
pub trait FileOps {
    ghost use Rattle.std.specs.Prelude.{◌≡◌, ℕ, ◌≤◌, ◌⊎◌, Bool, IsTrue, Option, length, take, drop, is_ok, MatchResult, IfOk, Ok, Err, IfErr, IfSome, ◌+◌};
    ghost use Rattle.std.specs.Option.{option_copied};
    ghost use Rattle.fo_world.specs.World.{World, Faults};
    ghost use Rattle.fo_world.specs.Step as step;
    ghost use Rattle.fo_world.specs.Limits.{IsName, IsUser, IsBelowRoot, IsChange};
    ghost use Rattle.fo_world.specs.Answers.{Answers, MayFail, Refuses, HadRoom, NotFewer, step_tried};
    ghost use Rattle.fo_world.specs.Fits.{WorldFits, InfoFits};
    ghost use Rattle.fo_world.specs.declared.place.View.{View};

    /// The world that it stands for.
    ghost world: { Self → World };

    /// How many calls of each device have failed so far.
    ghost faults: { Self → Faults };

    /// All is settled, nothing is dirty, no removal is queued, and so many blocks are usable.
    ghost has_room: { Self → ℕ → Type 0 };

    /// The devices tell what they hold, and it is a sound image.
    ghost honest: { Self → Type 0 };

    /// The largest size of a file in bytes.
    ghost largest: { Self → ℕ };

    /// Whether it answers for all views, dated directories among them.
    ghost whole: { Self → Bool };

    /// The views for which it answers.
    ghost serves: { Self → View → Type 0 };

    /// All that was changed is settled: a crash now would leave every file as the world has it.
    ghost settled: { Self → Type 0 };

    /// What a call leaves as it was that only looks: it writes nothing.
    ghost looks: { Self → Self → Type 0 };

    /// How a settling calls the devices: the implementer's own.
    ghost settles: { Self → Self → Type 0 };

    /// What a call keeps that touches nothing: what the implementer stands on, and what a crash on the way would leave. Neither count of faults falls.
    ghost keeps: { Self → Self → Type 0 };

    /// What a call keeps that may touch files: from the first to the second no more was touched than what differs between the world of the first and this one, so
    /// a crash on the way would leave every other file as one after `keeps` does; and no more than so many blocks were taken.
    ghost touches: { Self → World → ℕ → Self → Type 0 };

    /// What is told of the file at a place.
    fn info(&mut self, at: &Place) -> Result<Info, FileError>
        requires { serves self.old at.now.view }
        ensures answer { honest self.old → Answers (step.info (whole self.old) (world self.old) at.now)
            (MayFail (faults self.old) (faults self.new) (honest self.old) (has_room self.new) 0)
            (world self.old) (world self.new) result }
        ensures fits { IfOk result InfoFits }
        ensures cause { Refuses (faults self.old) (faults self.new) (honest self.old) (has_room self.new) 0 result }
        ensures looks { looks self.old self.new }
        ensures keeps { keeps self.old self.new };

    /// What is told of the file with this name in a directory.
    fn find(&mut self, at: &Place, name: &[u8]) -> Result<Info, FileError>
        requires { serves self.old at.now.view }
        ensures answer { honest self.old → Answers (step.find (whole self.old) (world self.old) at.now name.now)
            (MayFail (faults self.old) (faults self.new) (honest self.old) (has_room self.new) 0)
            (world self.old) (world self.new) result }
        ensures fits { IfOk result InfoFits }
        ensures cause { Refuses (faults self.old) (faults self.new) (honest self.old) (has_room self.new) 0 result }
        ensures looks { looks self.old self.new }
        ensures keeps { keeps self.old self.new };

    /// What is told of the directory above a place: of the place itself for the roots that can be attached to.
    fn parent(&mut self, at: &Place) -> Result<Info, FileError>
        requires { serves self.old at.now.view }
        ensures answer { honest self.old → Answers (step.parent (whole self.old) (world self.old) at.now)
            (MayFail (faults self.old) (faults self.new) (honest self.old) (has_room self.new) 0)
            (world self.old) (world self.new) result }
        ensures fits { IfOk result InfoFits }
        ensures cause { Refuses (faults self.old) (faults self.new) (honest self.old) (has_room self.new) 0 result }
        ensures looks { looks self.old self.new }
        ensures keeps { keeps self.old self.new };

    /// What is told of the file with the least name in a directory, above the one given; None where there is none.
    fn next_name(&mut self, at: &Place, after: Option<&Bytes>) -> Result<Option<Info>, FileError>
        requires { serves self.old at.now.view }
        ensures answer { honest self.old → Answers (step.next_name (whole self.old) (world self.old) at.now (option_copied after.entry))
            (MayFail (faults self.old) (faults self.new) (honest self.old) (has_room self.new) 0)
            (world self.old) (world self.new) result }
        ensures fits { IfOk result (λ told. IfSome told InfoFits) }
        ensures cause { Refuses (faults self.old) (faults self.new) (honest self.old) (has_room self.new) 0 result }
        ensures looks { looks self.old self.new }
        ensures keeps { keeps self.old self.new };

    /// Puts the bytes of a file from an offset on into the front of `into`, as many as exist and fit, and says how many. The rest of `into` stays; where it
    /// is refused the front may have been changed.
    fn read(&mut self, at: &Place, offset: u64, into: &mut [u8]) -> Result<usize, FileError>
        requires { serves self.old at.now.view }
        ensures answer { honest self.old → let told = step.read (whole self.old) (world self.old) at.now offset (length into.old) in
            MatchResult result
            (λ n. told ≡ Ok (take n into.new, world self.new))
            (λ e. ((told ≡ Err e) ⊎ MayFail (faults self.old) (faults self.new) (honest self.old) (has_room self.new) 0 (is_ok told) e)
            × (world self.new ≡ world self.old)) }
        ensures front { IfOk result (λ n. (n ≤ length into.old) × (drop n into.new ≡ drop n into.old)) }
        ensures cause { Refuses (faults self.old) (faults self.new) (honest self.old) (has_room self.new) 0 result }
        ensures looks { looks self.old self.new }
        ensures keeps { keeps self.old self.new };

    /// Writes the bytes at an offset of a file, by a user at a moment (seconds since 1970-01-01 UTC).
    fn write(
        &mut self,
        at: &Place,
        offset: u64,
        bytes: &[u8],
        who: &Bytes,
        now: u32,
    ) -> Result<(), FileError>
        requires serves { serves self.old at.now.view }
        requires who { IsUser who.now }
        ensures answer { honest self.old → Answers (step.write (whole self.old) (largest self.old) (world self.old) at.now offset bytes.now who.now now)
            (MayFail (faults self.old) (faults self.new) (honest self.old) (has_room self.new) (step.write_need at.now bytes.now))
            (world self.old) (world self.new) result }
        ensures room { HadRoom (has_room self.old) (step.write_need at.now bytes.now) result }
        ensures cause { Refuses (faults self.old) (faults self.new) (honest self.old) (has_room self.new) (step.write_need at.now bytes.now) result }
        ensures touches { touches self.old (step_tried (step.write (whole self.old) (largest self.old) (world self.old) at.now offset bytes.now who.now now) (world self.old) result) (step.write_need at.now bytes.now) self.new };

    /// Makes a file in a directory, or a directory where the mode has DMDIR. The new file is of `uid` and `gid`; `who` is its muid and the directory's.
    fn create(
        &mut self,
        at: &Place,
        name: &Bytes,
        mode: u32,
        who: &Bytes,
        uid: &Bytes,
        gid: &Bytes,
        now: u32,
    ) -> Result<Info, FileError>
        requires serves { serves self.old at.now.view }
        requires name { IsName name.now }
        requires who { IsUser who.now }
        requires uid { IsUser uid.now }
        requires gid { IsUser gid.now }
        ensures answer { honest self.old → Answers (step.create (whole self.old) (world self.old) at.now name.now mode who.now uid.now gid.now now)
            (MayFail (faults self.old) (faults self.new) (honest self.old) (has_room self.new) (step.create_need at.now))
            (world self.old) (world self.new) result }
        ensures room { HadRoom (has_room self.old) (step.create_need at.now) result }
        ensures fits { IfOk result InfoFits }
        ensures cause { Refuses (faults self.old) (faults self.new) (honest self.old) (has_room self.new) (step.create_need at.now) result }
        ensures touches { touches self.old (step_tried (step.create (whole self.old) (world self.old) at.now name.now mode who.now uid.now gid.now now) (world self.old) result) (step.create_need at.now) self.new };

    /// Takes a file or an empty directory out of its directory.
    fn remove(&mut self, at: &Place, who: &Bytes, now: u32) -> Result<(), FileError>
        requires serves { serves self.old at.now.view }
        requires below { IsBelowRoot at.now }
        requires who { IsUser who.now }
        ensures answer { honest self.old → Answers (step.remove (whole self.old) (world self.old) at.now who.now now)
            (MayFail (faults self.old) (faults self.new) (honest self.old) (has_room self.new) (step.give (step.depth_of at.now)))
            (world self.old) (world self.new) result }
        ensures room { HadRoom (has_room self.old) (step.give (step.depth_of at.now)) result }
        ensures cause { Refuses (faults self.old) (faults self.new) (honest self.old) (has_room self.new) (step.give (step.depth_of at.now)) result }
        ensures touches { touches self.old (step_tried (step.remove (whole self.old) (world self.old) at.now who.now now) (world self.old) result) (step.give (step.depth_of at.now)) self.new };

    /// Changes all that is given of a file, or nothing.
    fn change(&mut self, at: &Place, what: &Change, who: &Bytes, now: u32) -> Result<(), FileError>
        requires serves { serves self.old at.now.view }
        requires change { IsChange (honest self.old) (whole self.old) (world self.old) at.now what.now }
        requires who { IsUser who.now }
        ensures answer { honest self.old → Answers (step.change (whole self.old) (largest self.old) (world self.old) at.now what.now who.now now)
            (MayFail (faults self.old) (faults self.new) (honest self.old) (has_room self.new) (step.change_need (whole self.old) (world self.old) at.now what.now))
            (world self.old) (world self.new) result }
        ensures room { honest self.old → HadRoom (has_room self.old) (step.change_need (whole self.old) (world self.old) at.now what.now) result }
        ensures cause { Refuses (faults self.old) (faults self.new) (honest self.old) (has_room self.new) (step.most_need at.now) result }
        ensures touches { touches self.old (step_tried (step.change (whole self.old) (largest self.old) (world self.old) at.now what.now who.now now) (world self.old) result) (step.most_need at.now) self.new }
        ensures need { honest self.old → touches self.old (step_tried (step.change (whole self.old) (largest self.old) (world self.old) at.now what.now who.now now) (world self.old) result) (step.change_need (whole self.old) (world self.old) at.now what.now) self.new };

    /// Settles all that was changed before.
    fn sync(&mut self) -> Result<(), FileError>
        ensures answer { honest self.old → Answers (step.sync (world self.old))
            (MayFail (faults self.old) (faults self.new) (honest self.old) (has_room self.new) 0)
            (world self.old) (world self.new) result }
        ensures settled { IfOk result (λ _. settled self.new) }
        ensures cause { Refuses (faults self.old) (faults self.new) (honest self.old) (has_room self.new) 0 result }
        ensures settles { settles self.old self.new }
        ensures keeps { keeps self.old self.new };

    ghost looks_at_once: { (a : Self) → looks a a };

    ghost keeps_at_once: { (a : Self) → keeps a a };

    ghost keeps_joins: { (a b c : Self) → keeps a b → keeps b c → keeps a c };

    ghost keeps_faults: { (a b : Self) → keeps a b → NotFewer (faults a) (faults b) };

    ghost keeps_honest: { (a b : Self) → keeps a b → honest a → honest b };

    /// Devices that tell nothing don't begin to tell.
    ghost keeps_silent: { (a b : Self) → keeps a b → honest b → honest a };

    ghost keeps_largest: { (a b : Self) → keeps a b → largest b ≡ largest a };

    ghost keeps_whole: { (a b : Self) → keeps a b → whole b ≡ whole a };

    ghost keeps_serves: { (a b : Self) (v : View) → keeps a b → serves a v → serves b v };

    /// What only looks leaves the room as it was.
    ghost keeps_room: { (a b : Self) (n : ℕ) → keeps a b → has_room a n → has_room b n };

    ghost keeps_touches: { (a b : Self) (w : World) → keeps a b → touches a w 0 b };

    ghost keeps_then: { (a b c : Self) (w : World) (n : ℕ) → keeps a b → touches b w n c → touches a w n c };

    ghost touches_more: { (a b : Self) (w : World) (n m : ℕ) → n ≤ m → touches a w n b → touches a w m b };

    ghost touches_room: { (a b : Self) (w : World) (n r q : ℕ) → touches a w n b → has_room a r → has_room b q → r ≤ q + n };

    ghost touches_faults: { (a b : Self) (w : World) (n : ℕ) → touches a w n b → NotFewer (faults a) (faults b) };

    ghost touches_honest: { (a b : Self) (w : World) (n : ℕ) → touches a w n b → honest a → honest b };

    ghost touches_largest: { (a b : Self) (w : World) (n : ℕ) → touches a w n b → largest b ≡ largest a };

    ghost touches_whole: { (a b : Self) (w : World) (n : ℕ) → touches a w n b → whole b ≡ whole a };

    ghost touches_serves: { (a b : Self) (w : World) (n : ℕ) (v : View) → touches a w n b → serves a v → serves b v };

    /// Room is known only where all is settled.
    ghost room_settled: { (a : Self) (n : ℕ) → has_room a n → settled a };

    /// A world that is served is within its limits.
    ghost fits: { (a : Self) → honest a → WorldFits (world a) };

    ghost whole_serves: { (a : Self) (v : View) → IsTrue (whole a) → serves a v };
}
