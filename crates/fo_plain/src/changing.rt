//! Changes that were granted.
use crate::checking::new_name;
use crate::made::new_node;
use crate::plain::PlainFiles;
use fo_base::Bytes;
use fo_world::{Add, Alter, Change, Fields, FileError, Info, Node, Place, Rename, TakeOut, Write};

impl PlainFiles {
    ghost use Rattle.std.specs.Prelude.{◌≡◌, ◌^◌, ◌<◌, ◌≤◌, ◌+◌, length};
    ghost use Rattle.std.specs.Option.{ForSome};
    ghost use Rattle.fo_plain.specs.Kept.{kept, with_added, Becomes, Makes};
    ghost use Rattle.fo_world.specs.Fits.{WorldFits};
    ghost use Rattle.fo_world.specs.Step.{with_active, after_write, after_create, after_remove, after_change};
    ghost use Rattle.fo_world.specs.Tree.{change_along};
    ghost use Rattle.fo_world.specs.declared.place.View.TheVariants.{Active};

    // Changes the file of the active tree that a trail leads to, all of it or nothing.
    fn alter<C: Alter>(&mut self, trail: &[u32], change: C) -> Result<(), FileError>
        requires { WorldFits (with_active (kept self.old) (change_along trail.now (C.after change) (kept self.old).active.root)) }
        ensures { Becomes (with_active (kept self.old) (change_along trail.now (C.after change) (kept self.old).active.root)) (kept self.old) (kept self.new) result }
    {
        self.world.active.root.change(trail, change)?;
        Ok(())
    }

    /// Writes bytes into a file.
    pub(crate) fn put_bytes(
        &mut self,
        at: &Place,
        offset: u64,
        bytes: &[u8],
        who: &Bytes,
        now: u32,
    ) -> Result<(), FileError>
        requires small { offset + length bytes.now ≤ 2 ^ 47 }
        requires fits { WorldFits (after_write (kept self.old) at.now offset bytes.now who.now now) }
        ensures { Becomes (after_write (kept self.old) at.now offset bytes.now who.now now) (kept self.old) (kept self.new) result }
    {
        let write = Write {
            offset,
            bytes: Bytes::copy_of(self.alloc, bytes)?,
            who: who.copy(self.alloc)?,
            now,
        };
        self.alter(at.trail.as_slice(), write)
    }

    /// Makes a file in a directory.
    pub(crate) fn make(
        &mut self,
        at: &Place,
        name: &Bytes,
        mode: u32,
        who: &Bytes,
        uid: &Bytes,
        gid: &Bytes,
        now: u32,
    ) -> Result<Info, FileError>
        requires active { at.now.view ≡ Active }
        requires number { (kept self.old).next < 2 ^ 30 }
        requires fits { WorldFits (after_create (kept self.old) at.now name.now mode who.now uid.now gid.now now).1 }
        ensures { Makes (after_create (kept self.old) at.now name.now mode who.now uid.now gid.now now) (kept self.old) (kept self.new) result }
    {
        let alloc = self.alloc;
        let number = self.world.next;
        let node = new_node(alloc, number, mode, who, uid, gid, now)?;
        let info = Info::of(alloc, at.below(alloc, number)?, name, &node)?;
        self.add(at, name, node, who, now)?;
        Ok(info)
    }

    // Adds a file to a directory, and counts its number as given.
    fn add(
        &mut self,
        at: &Place,
        name: &Bytes,
        node: Node,
        who: &Bytes,
        now: u32,
    ) -> Result<(), FileError>
        requires number { (kept self.old).next < 2 ^ 30 }
        requires fits { WorldFits (with_added (kept self.old) at.now name.now node who.now now) }
        ensures { Becomes (with_added (kept self.old) at.now name.now node who.now now) (kept self.old) (kept self.new) result }
    {
        let number = self.world.next;
        let add = Add {
            name: name.copy(self.alloc)?,
            node,
            who: who.copy(self.alloc)?,
            now,
        };
        self.alter(at.trail.as_slice(), add)?;
        self.world.next = number + 1;
        Ok(())
    }

    /// Takes the file of this name out of its directory.
    pub(crate) fn take_out(
        &mut self,
        at: &Place,
        name: Bytes,
        who: &Bytes,
        now: u32,
    ) -> Result<(), FileError>
        requires { WorldFits (after_remove (kept self.old) at.now name who.now now) }
        ensures { Becomes (after_remove (kept self.old) at.now name who.now now) (kept self.old) (kept self.new) result }
    {
        let who = who.copy(self.alloc)?;
        let trail = at.trail.as_slice();
        let len = trail.len().saturating_sub(1);
        self.alter(&trail[..len], TakeOut { name, who, now })
    }

    /// Changes all that is given of the file of this name.
    pub(crate) fn put_fields(
        &mut self,
        at: &Place,
        what: &Change,
        old: Bytes,
        who: &Bytes,
        now: u32,
    ) -> Result<(), FileError>
        requires small { ForSome what.now.length (λ n. n ≤ 2 ^ 47) }
        requires fits { WorldFits (after_change (kept self.old) at.now what.now old who.now now) }
        ensures { Becomes (after_change (kept self.old) at.now what.now old who.now now) (kept self.old) (kept self.new) result }
    {
        let alloc = self.alloc;
        let fields = Fields {
            what: what.copy(alloc)?,
            who: who.copy(alloc)?,
            now,
        };
        let trail = at.trail.as_slice();
        let Some(name) = new_name(&what.name, old.as_slice()) else {
            return self.alter(trail, fields);
        };
        let rename = Rename {
            name: name.copy(alloc)?,
            old,
            fields,
            who: who.copy(alloc)?,
            now,
        };
        let len = trail.len().saturating_sub(1);
        self.alter(&trail[..len], rename)
    }
}
