//! Changes of one node of a tree.
ghost use Rattle.std.specs.Prelude.{◌≡◌, ◌+◌, ◌≤◌, ◌^◌, length};
ghost use Rattle.std.specs.Option.{ForSome};

use crate::error::FileError;
use crate::fields::{put_gid, put_length, put_mode, put_mtime};
use crate::place::Change;
use crate::tree::Node;
use fo_base::Bytes;

/// A change of one node, all of it or nothing.
pub trait Alter: Drop {
    ghost use Rattle.std.specs.Prelude.{◌≡◌, is_ok, IfErr, if◌then◌else◌};
    ghost use Rattle.fo_world.specs.declared.tree.Node.{Node};

    ghost after: { Self → Node → Node };

    fn alter(self, node: &mut Node) -> Result<(), FileError>
        ensures after { node.new ≡ (if is_ok result then after self node.old else node.old) }
        ensures memory { IfErr result (λ e. e ≡ FileError.Memory) };
}

/// Bytes for a file, by someone at a moment.
#[derive(Drop)]
pub struct Write {
    pub offset: u64,
    pub bytes: Bytes,
    pub who: Bytes,
    pub now: u32,
    ghost fits: { offset + length bytes ≤ 2 ^ 47 },
}

impl Alter for Write {
    ghost use Rattle.fo_world.specs.Tree.{with_bytes};

    ghost after = { λ p. with_bytes p.offset p.bytes p.who p.now };

    fn alter(self, node: &mut Node) -> Result<(), FileError> {
        let Write {
            offset,
            bytes,
            who,
            now,
        } = self;
        node.body.write(offset, bytes.as_slice())?;
        node.touch(who, now);
        Ok(())
    }
}

/// A new name for a directory, by someone at a moment.
#[derive(Drop)]
pub struct Add {
    pub name: Bytes,
    pub node: Node,
    pub who: Bytes,
    pub now: u32,
}

impl Alter for Add {
    ghost use Rattle.fo_world.specs.Tree.{with_name};

    ghost after = { λ p. with_name p.name p.node p.who p.now };

    fn alter(self, node: &mut Node) -> Result<(), FileError> {
        let Add {
            name,
            node: new,
            who,
            now,
        } = self;
        node.body.insert(name, new)?;
        node.touch(who, now);
        Ok(())
    }
}

/// A name less for a directory, by someone at a moment.
#[derive(Drop)]
pub struct TakeOut {
    pub name: Bytes,
    pub who: Bytes,
    pub now: u32,
}

impl Alter for TakeOut {
    ghost use Rattle.fo_world.specs.Tree.{without_name};

    ghost after = { λ p. without_name p.name p.who p.now };

    fn alter(self, node: &mut Node) -> Result<(), FileError> {
        let TakeOut { name, who, now } = self;
        node.body.take_out(name.as_slice());
        node.touch(who, now);
        Ok(())
    }
}

/// All that is given of a file but its name, by someone at a moment.
#[derive(Drop)]
pub struct Fields {
    pub what: Change,
    pub who: Bytes,
    pub now: u32,
    ghost fits: { ForSome what.length (λ n. n ≤ 2 ^ 47) },
}

impl Fields {
    ghost use Rattle.std.specs.Prelude.{◌≡◌};
    ghost use Rattle.fo_world.specs.Step.{with_fields};

    /// Changes them.
    pub fn put(self, node: &mut Node)
        ensures { node.new ≡ with_fields self.what self.who self.now node.old }
    {
        let Fields { what, who, now } = self;
        put_length(what.length, who, now, node);
        put_mode(what.mode, node);
        put_gid(what.gid, node);
        put_mtime(what.mtime, node);
    }
}

impl Alter for Fields {
    ghost use Rattle.fo_world.specs.Step.{with_fields};

    ghost after = { λ p. with_fields p.what p.who p.now };

    fn alter(self, node: &mut Node) -> Result<(), FileError> {
        self.put(node);
        Ok(())
    }
}

/// Another name for a file of a directory, and all else that is given, by someone at a moment.
#[derive(Drop)]
pub struct Rename {
    pub old: Bytes,
    pub name: Bytes,
    pub fields: Fields,
    pub who: Bytes,
    pub now: u32,
}

impl Alter for Rename {
    ghost use Rattle.fo_world.specs.Tree.{with_renamed};
    ghost use Rattle.fo_world.specs.Step.{with_fields};

    ghost after = { λ p. with_renamed p.old p.name (with_fields p.fields.what p.fields.who p.fields.now) p.who p.now };

    fn alter(self, node: &mut Node) -> Result<(), FileError> {
        let Rename {
            old,
            name,
            fields,
            who,
            now,
        } = self;
        node.body.rename(old.as_slice(), name, fields)?;
        node.touch(who, now);
        Ok(())
    }
}
