//! Worlds of files.
use crate::tree::{Node, Tree};
use std::marker::Model;

/// A snapshot: its epoch, which is below 2^31, when it was taken (seconds since 1970-01-01 UTC), and its tree.
#[derive(Drop)]
pub struct Snap {
    epoch: u32,
    time: u32,
    tree: Tree,
}

impl Model for Snap {
    ghost use Rattle.std.specs.Prelude.{◌<◌, ◌^◌};
    ghost use Rattle.std.specs.Coded.{codes};
    ghost use Rattle.fo_world.specs.Names.{names_code};
    ghost use Rattle.fo_world.specs.World as plain;

    ghost Value = { plain.Snap };

    ghost coded = { Prim.hlevel (codes, names_code) };

    ghost view = { λ s. record { epoch = s.epoch; time = s.time; tree = s.tree } };

    ghost invariant = { λ s. s.epoch < 2 ^ 31 };
}

impl Snap {
    ghost use Rattle.std.specs.Prelude.{◌≡◌, ◌<◌, ◌^◌};

    /// The snapshot of an epoch.
    pub fn new(epoch: u32, time: u32, tree: Tree) -> Snap
        requires { epoch < 2 ^ 31 }
        ensures { result ≡ record { epoch = epoch; time = time; tree = tree } }
    {
        Snap { epoch, time, tree }
    }

    /// Its epoch.
    pub fn epoch(&self) -> u32
        ensures epoch { result ≡ self.now.epoch }
        ensures small { result < 2 ^ 31 }
    {
        self.epoch
    }

    /// When it was taken, in seconds since 1970-01-01 UTC.
    pub fn time(&self) -> u32
        ensures { result ≡ self.now.time }
    {
        self.time
    }

    /// Its tree.
    pub fn tree(&self) -> &Tree
        ensures { result.now ≡ self.now.tree }
    {
        &self.tree
    }
}

/// An archive: the epoch, which is below 2^31, and the time of the snapshot that it was made of, the score under which the arena has it, and its tree.
#[derive(Drop)]
pub struct Archive {
    epoch: u32,
    time: u32,
    score: [u8; 20],
    tree: Tree,
}

impl Model for Archive {
    ghost use Rattle.std.specs.Prelude.{◌<◌, ◌^◌};
    ghost use Rattle.std.specs.Coded.{codes};
    ghost use Rattle.fo_world.specs.Names.{names_code};
    ghost use Rattle.fo_world.specs.World as plain;

    ghost Value = { plain.Archive };

    ghost coded = { Prim.hlevel (codes, names_code) };

    ghost view = { λ a. record { epoch = a.epoch; time = a.time; score = a.score; tree = a.tree } };

    ghost invariant = { λ a. a.epoch < 2 ^ 31 };
}

impl Archive {
    ghost use Rattle.std.specs.Prelude.{◌≡◌, ◌<◌, ◌^◌};

    /// The archive of the snapshot of an epoch.
    pub fn new(epoch: u32, time: u32, score: [u8; 20], tree: Tree) -> Archive
        requires { epoch < 2 ^ 31 }
        ensures { result ≡ record { epoch = epoch; time = time; score = score; tree = tree } }
    {
        Archive {
            epoch,
            time,
            score,
            tree,
        }
    }

    /// Its epoch.
    pub fn epoch(&self) -> u32
        ensures epoch { result ≡ self.now.epoch }
        ensures small { result < 2 ^ 31 }
    {
        self.epoch
    }

    /// When its snapshot was taken, in seconds since 1970-01-01 UTC.
    pub fn time(&self) -> u32
        ensures { result ≡ self.now.time }
    {
        self.time
    }

    /// The score under which the arena has it.
    pub fn score(&self) -> &[u8; 20]
        ensures { result.now ≡ self.now.score }
    {
        &self.score
    }

    /// Its tree.
    pub fn tree(&self) -> &Tree
        ensures { result.now ≡ self.now.tree }
    {
        &self.tree
    }
}

/// A world of files: the active tree, the low and the high epoch, the kept snapshots in ascending order of their epochs, the archives, oldest first, the epoch of the snapshot that is to be archived (or 0), the number of the next file that is made, whether it is halted, and the numbers of the files that are open for exclusive use.
#[derive(Drop)]
pub struct World {
    pub active: Tree,
    pub low: u32,
    pub high: u32,
    pub snaps: Vec<Snap>,
    pub archives: Vec<Archive>,
    pub pending: u32,
    pub next: u32,
    pub halted: bool,
    pub exclusive: Vec<u32>,
}

impl Model for World {
    ghost use Rattle.std.specs.Coded.{codes};
    ghost use Rattle.fo_world.specs.Names.{names_code};
    ghost use Rattle.fo_world.specs.World as plain;

    ghost Value = { plain.World };

    ghost coded = { Prim.hlevel (codes, names_code) };

    ghost view = { λ w. record { active = w.active; low = w.low; high = w.high; snaps = w.snaps.items; archives = w.archives.items; pending = w.pending; next = w.next; halted = w.halted; exclusive = w.exclusive.items } };
}

impl World {
    ghost use Rattle.std.specs.Prelude.{◌≡◌, ◌<◌, ◌^◌, MatchOption, Some, None};
    ghost use Rattle.fo_world.specs.Step.{snap_at, archive_at};

    /// The root of the snapshot of an epoch.
    pub fn snap(&self, epoch: u32) -> Option<&Node>
        ensures { MatchOption result (snap_at epoch self.now.snaps ≡ None) (λ n. (snap_at epoch self.now.snaps ≡ Some n.now) × (epoch < 2 ^ 31)) }
    {
        for snap in self.snaps.as_slice() {
            let snap: &Snap = snap;
            if snap.epoch == epoch {
                return Some(&snap.tree.root);
            }
        }
        None
    }

    /// The root of the archive of an epoch.
    pub fn archive(&self, epoch: u32) -> Option<&Node>
        ensures { MatchOption result (archive_at epoch self.now.archives ≡ None) (λ n. (archive_at epoch self.now.archives ≡ Some n.now) × (epoch < 2 ^ 31)) }
    {
        for archive in self.archives.as_slice() {
            let archive: &Archive = archive;
            if archive.epoch == epoch {
                return Some(&archive.tree.root);
            }
        }
        None
    }
}
