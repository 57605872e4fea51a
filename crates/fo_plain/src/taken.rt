//! What dated names stand for.
ghost use Rattle.std.specs.Prelude.{◌≡◌, map, IfOk};
ghost use Rattle.fo_world.specs.Dated.{taken_of, taken_snap, taken_archive};

use fo_world::{Archive, Snap, World};
use std::alloc::{AllocError, Global};
use std::marker::Model;

/// The epoch of a snapshot or an archive, and when it was taken.
#[derive(Drop)]
pub(crate) struct Taken {
    epoch: u32,
    time: u32,
}

impl Model for Taken {
    ghost use Rattle.fo_world.specs.Dated as plain;

    ghost Value = { plain.Taken };

    ghost view = { λ t. record { epoch = t.epoch; time = t.time } };
}

impl Taken {
    ghost use Rattle.std.specs.Prelude.{◌≡◌};

    /// One with this epoch, taken at this moment.
    pub(crate) fn new(epoch: u32, time: u32) -> Taken
        ensures { result ≡ record { epoch = epoch; time = time } }
    {
        Taken { epoch, time }
    }

    pub(crate) fn epoch(&self) -> u32
        ensures { result ≡ self.now.epoch }
    {
        self.epoch
    }

    pub(crate) fn time(&self) -> u32
        ensures { result ≡ self.now.time }
    {
        self.time
    }
}

/// What the dated names of the archives, or of the snapshots, stand for.
pub(crate) fn all_taken(
    alloc: Global,
    world: &World,
    archive: bool,
) -> Result<Vec<Taken>, AllocError>
    ensures { IfOk result (λ v. v.items ≡ taken_of archive world.now) }
{
    if archive {
        taken_archives(alloc, world.archives.as_slice())
    } else {
        taken_snaps(alloc, world.snaps.as_slice())
    }
}

fn taken_snaps(alloc: Global, snaps: &[Snap]) -> Result<Vec<Taken>, AllocError>
    ensures { IfOk result (λ v. v.items ≡ map taken_snap snaps.now) }
{
    let mut all = Vec::new(alloc);
    for snap in snaps {
        all.push(Taken::new(snap.epoch(), snap.time()))?;
    }
    Ok(all)
}

fn taken_archives(alloc: Global, archives: &[Archive]) -> Result<Vec<Taken>, AllocError>
    ensures { IfOk result (λ v. v.items ≡ map taken_archive archives.now) }
{
    let mut all = Vec::new(alloc);
    for archive in archives {
        all.push(Taken::new(archive.epoch(), archive.time()))?;
    }
    Ok(all)
}
