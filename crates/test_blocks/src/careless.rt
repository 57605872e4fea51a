//! Files that tell nothing.
ghost use Rattle.std.specs.Prelude.{◌≡◌, ℕ, ◌-◌, ◌^◌, ◌≤◌, ◌<◌, min, IfOk, IfErr};
ghost use Rattle.fo_world.specs.Step as step;
ghost use Rattle.fo_world.specs.Fits.{InfoFits};
ghost use Rattle.fo_world.specs.Dated.{adm};
ghost use Rattle.fo_world.specs.declared.error.FileError.TheVariants.{Full, Memory};
ghost use Rattle.test_blocks.specs.Room.{HasRoom, Takes};

use fo_base::Bytes;
use fo_world::{Change, FileError, FileOps, Info, Place, View};
use std::alloc::{AllocError, Global};

/// Files that answer whatever fits, wherever they are asked, and tell nothing of what they hold: each time that they are asked of a file
/// it is one byte longer. They count blocks and faults as files over a device would: a write takes blocks and is dropped, and every
/// other settling fails.
#[derive(Drop)]
pub struct CarelessFiles {
    alloc: Global,
    pub usable: u32,
    pub clean: bool,
    pub failed: u64,
    flaky: bool,
    asked: u64,
}

/// The blocks that a call needs at this depth, for so many bytes.
fn need(depth: usize, bytes: usize) -> u64
    ensures { result ≡ min (step.need depth bytes) (2 ^ 64 - 1) }
{
    let bytes = bytes as u64;
    (depth as u64)
        .saturating_mul(6)
        .saturating_add(40)
        .saturating_add(bytes / 8192)
        .saturating_add(bytes / 2097152)
}

/// The blocks that a removal needs at this depth.
fn give(depth: usize) -> u64
    ensures { result ≡ min (step.give depth) (2 ^ 64 - 1) }
{
    (depth as u64).saturating_mul(5).saturating_add(36)
}

/// The depth of the directory that holds a file.
fn depth_of(at: &Place) -> usize
    ensures { result ≡ step.depth_of at.now }
{
    at.trail.as_slice().len().saturating_sub(1)
}

/// The name that everybody has.
fn adm(alloc: Global) -> Result<Bytes, AllocError>
    ensures { IfOk result (λ name. name ≡ adm) }
{
    Bytes::copy_of(alloc, b"adm")
}

/// What is told of the root, whatever was asked for, with this length.
#[tactic(auto, using(crate::proofs::Named::named, crate::proofs::Named::user))]
fn root(alloc: Global, length: u64) -> Result<Info, AllocError>
    ensures { IfOk result InfoFits }
{
    Ok(Info {
        place: Place::root(alloc, View::Active),
        name: adm(alloc)?,
        path: 0,
        vers: 0,
        mode: 0,
        atime: 0,
        mtime: 0,
        length,
        uid: adm(alloc)?,
        gid: adm(alloc)?,
        muid: adm(alloc)?,
    })
}

impl CarelessFiles {
    /// Files with so many usable blocks.
    pub fn new(alloc: Global, usable: u32) -> CarelessFiles {
        CarelessFiles {
            alloc,
            usable,
            clean: true,
            failed: 0,
            flaky: false,
            asked: 0,
        }
    }

    /// Takes blocks, where there are so many or it isn't known how many there are.
    fn take(&mut self, blocks: u64) -> Result<(), FileError>
        ensures granted { IfOk result (λ _. (n : ℕ) → HasRoom self.old n → (blocks ≤ n) × (n < 2 ^ 32)) }
        ensures full { IfErr result (λ e. (e ≡ Full) × ((n : ℕ) × HasRoom self.new n × (n < blocks) × (n < 2 ^ 32))) }
        ensures takes { Takes 0 self.old self.new }
    {
        if self.clean && (self.usable as u64) < blocks {
            return Err(FileError::Full);
        }
        self.clean = false;
        Ok(())
    }
}

impl FileOps for CarelessFiles {
    ghost use Rattle.std.specs.Prelude.{◌≡◌, ◌+◌, ◌^◌, true, refl};
    ghost use Rattle.std.proofs.Common.{arith};
    ghost use Rattle.fo_world.specs.Dated.{adm};
    ghost use Rattle.fo_world.specs.Names.{no_names};
    ghost use Rattle.fo_world.specs.declared.tree.Body.TheVariants.{Dir};
    ghost use Rattle.test_blocks.specs.Room.{HasRoom, Keeps, Takes, nowhere, counted, keeps_at_once, keeps_joins, keeps_takes, keeps_then, takes_more, takes_faults, keeps_faults};

    ghost world = { λ _. nowhere };

    ghost faults = { counted };

    ghost has_room = { HasRoom };

    ghost honest = { λ _. ⊥ };

    ghost largest = { λ _. 2 ^ 40 };

    ghost whole = { λ _. true };

    ghost serves = { λ _ _. Unit {0} };

    ghost settled = { λ f. f.clean ≡ true };

    ghost looks = { Keeps };

    ghost settles = { Keeps };

    ghost looks_at_once = { keeps_at_once };

    ghost keeps = { Keeps };

    ghost touches = { λ a w n b. Takes n a b };

    ghost keeps_at_once = { keeps_at_once };

    ghost keeps_joins = { keeps_joins };

    ghost keeps_faults = { keeps_faults };

    ghost keeps_honest = { λ a b p h. h };

    ghost keeps_silent = { λ a b p h. h };

    ghost keeps_largest = { λ a b p. refl };

    ghost keeps_whole = { λ a b p. refl };

    ghost keeps_serves = { λ a b v p q. tt };

    ghost keeps_room = { λ a b n p h. p.room n h };

    ghost keeps_touches = { λ a b w p. keeps_takes a b p };

    ghost keeps_then = { λ a b c w n p q. keeps_then a b c n p q };

    ghost touches_more = { λ a b w n m le p. takes_more a b n m le p };

    ghost touches_room = { λ a b w n r q p h k. p.room r q h k };

    ghost touches_faults = { λ a b w n p. takes_faults a b n p };

    ghost touches_honest = { λ a b w n p h. h };

    ghost touches_largest = { λ a b w n p. refl };

    ghost touches_whole = { λ a b w n p. refl };

    ghost touches_serves = { λ a b w n v p q. tt };

    ghost room_settled = { λ a n h. h.0 };

    ghost fits = { λ a h. absurd h };

    ghost whole_serves = { λ a v p. tt };

    fn info(&mut self, _: &Place) -> Result<Info, FileError> {
        self.asked = self.asked.saturating_add(1);
        Ok(root(self.alloc, self.asked)?)
    }

    fn find(&mut self, _: &Place, _: &[u8]) -> Result<Info, FileError> {
        Ok(root(self.alloc, 0)?)
    }

    fn parent(&mut self, _: &Place) -> Result<Info, FileError> {
        Ok(root(self.alloc, 0)?)
    }

    fn next_name(&mut self, _: &Place, after: Option<&Bytes>) -> Result<Option<Info>, FileError> {
        if after.is_some() {
            return Ok(None);
        }
        Ok(Some(root(self.alloc, 0)?))
    }

    fn read(&mut self, _: &Place, _: u64, into: &mut [u8]) -> Result<usize, FileError> {
        into.fill(b'?');
        Ok(into.len())
    }

    fn write(
        &mut self,
        at: &Place,
        _: u64,
        bytes: &[u8],
        _: &Bytes,
        _: u32,
    ) -> Result<(), FileError> {
        if bytes.is_empty() {
            return Ok(());
        }
        self.take(need(depth_of(at), bytes.len()))?;
        Ok(())
    }

    fn create(
        &mut self,
        at: &Place,
        _: &Bytes,
        _: u32,
        _: &Bytes,
        _: &Bytes,
        _: &Bytes,
        _: u32,
    ) -> Result<Info, FileError> {
        let info = root(self.alloc, 0)?;
        self.take(need(at.trail.as_slice().len(), 0))?;
        Ok(info)
    }

    fn remove(&mut self, at: &Place, _: &Bytes, _: u32) -> Result<(), FileError> {
        self.take(give(depth_of(at)))?;
        Ok(())
    }

    fn change(&mut self, at: &Place, _: &Change, _: &Bytes, _: u32) -> Result<(), FileError> {
        self.take(need(depth_of(at), 0))
    }

    fn sync(&mut self) -> Result<(), FileError> {
        self.flaky = !self.flaky;
        if self.flaky && !self.clean {
            self.failed = self.failed.saturating_add(1);
            return Err(FileError::MainSync);
        }
        self.clean = true;
        Ok(())
    }
}
