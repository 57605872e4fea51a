//! New nodes, and the empty world.
ghost use Rattle.std.specs.Prelude.{◌≡◌, IfOk};
ghost use Rattle.fo_world.specs.Step.{new_node};
ghost use Rattle.fo_plain.specs.Kept.{empty_world};

use crate::dated::adm;
use fo_base::Bytes;
use fo_sparse::Plain;
use fo_world::{Body, DMDIR, Names, Node, Tree, World};
use std::alloc::{AllocError, Global};

/// A new node.
pub(crate) fn new_node(
    alloc: Global,
    number: u32,
    mode: u32,
    who: &Bytes,
    uid: &Bytes,
    gid: &Bytes,
    now: u32,
) -> Result<Node, AllocError>
    ensures { IfOk result (λ n. n ≡ new_node number mode who.now uid.now gid.now now) }
{
    let body = if mode >= DMDIR {
        Body::Dir(Names::new(alloc))
    } else {
        Body::File(Plain::new(alloc))
    };
    Ok(Node {
        number,
        vers: 0,
        mode,
        atime: now,
        mtime: now,
        uid: uid.copy(alloc)?,
        gid: gid.copy(alloc)?,
        muid: who.copy(alloc)?,
        body,
    })
}

/// The empty world.
pub(crate) fn empty_world(alloc: Global, now: u32) -> Result<World, AllocError>
    ensures { IfOk result (λ w. w ≡ empty_world now) }
{
    let root = Node {
        number: 0,
        vers: 0,
        mode: 2147484159,
        atime: now,
        mtime: now,
        uid: adm(alloc)?,
        gid: adm(alloc)?,
        muid: adm(alloc)?,
        body: Body::Dir(Names::new(alloc)),
    };
    Ok(World {
        active: Tree { root },
        low: 1,
        high: 1,
        snaps: Vec::new(alloc),
        archives: Vec::new(alloc),
        pending: 0,
        next: 1,
        halted: false,
        exclusive: Vec::new(alloc),
    })
}
