//! The fields of a node.
ghost use Rattle.std.specs.Prelude.{◌≡◌, ◌≤◌, ◌^◌};
ghost use Rattle.std.specs.Option.{ForSome};
ghost use Rattle.fo_world.specs.Tree.{with_length, with_mode, with_gid, with_mtime};

use crate::tree::Node;
use fo_base::Bytes;

/// Gives a file the length, by someone at a moment, where one is given.
pub(crate) fn put_length(len: Option<u64>, who: Bytes, now: u32, node: &mut Node)
    requires { ForSome len (λ n. n ≤ 2 ^ 47) }
    ensures { node.new ≡ with_length len who now node.old }
{
    if let Some(len) = len {
        if !node.body.is_dir() {
            node.body.set_len(len);
            node.touch(who, now);
        }
    }
}

/// Gives a file the mode, where one is given.
pub(crate) fn put_mode(mode: Option<u32>, node: &mut Node)
    ensures { node.new ≡ with_mode mode node.old }
{
    if let Some(mode) = mode {
        node.mode = mode;
    }
}

/// Gives a file to the group, where one is given.
pub(crate) fn put_gid(gid: Option<Bytes>, node: &mut Node)
    ensures { node.new ≡ with_gid gid node.old }
{
    if let Some(gid) = gid {
        node.gid = gid;
    }
}

/// Gives a file the mtime, where one is given.
pub(crate) fn put_mtime(mtime: Option<u32>, node: &mut Node)
    ensures { node.new ≡ with_mtime mtime node.old }
{
    if let Some(mtime) = mtime {
        node.mtime = mtime;
    }
}
