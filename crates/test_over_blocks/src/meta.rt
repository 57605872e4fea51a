ghost use Rattle.fo_meta.specs.Leaf.{IsLeaf};

use fo_image::{Record, Text, is_record};
use fo_meta::{MetaError, empty_leaf, find, insert, remove, replace};
use std::alloc::{AllocError, Global};
use std::test::Fail;

/// A record of a file with this name and this number, whose users are `adm`: 43 bytes and the name.
fn record_of(alloc: Global, name: &[u8], number: u32) -> Result<Record, AllocError> {
    Ok(Record {
        name: Text::copy_of(alloc, name)?,
        number,
        slot: number,
        generation: 1,
        vers: 0,
        mode: 0x1a4,
        atime: 5,
        mtime: 6,
        uid: Text::copy_of(alloc, b"adm")?,
        gid: Text::copy_of(alloc, b"adm")?,
        muid: Text::copy_of(alloc, b"adm")?,
    })
}

/// Whether a record of this name was added.
fn adds(alloc: Global, leaf: &mut [u8], name: &[u8], number: u32) -> Result<bool, AllocError>
    requires { IsLeaf leaf.old }
    ensures { IsLeaf leaf.new }
{
    let record = record_of(alloc, name, number)?;
    Ok(is_record(&record) && insert(leaf, &record) == Ok(()))
}

/// Whether the record of the first name was replaced by one of the second.
fn replaces(alloc: Global, leaf: &mut [u8], name: &[u8], by: &[u8]) -> Result<bool, AllocError>
    requires { IsLeaf leaf.old }
    ensures { IsLeaf leaf.new }
{
    let record = record_of(alloc, by, 10)?;
    Ok(is_record(&record) && replace(leaf, name, &record) == Ok(()))
}

/// The number of the file of this name.
fn number_of(alloc: Global, leaf: &[u8], name: &[u8]) -> Result<Option<u32>, MetaError>
    requires { IsLeaf leaf.now }
{
    Ok(find(alloc, leaf, name)?.map(|record| record.number))
}

/// Three records of 44, 45 and 44 bytes, of which the first goes again.
#[test]
fn ample(rt: HostRuntime) -> Result<(), Fail> {
    let mut leaf = empty_leaf();
    assert!(rt; adds(rt.alloc(), &mut leaf, b"a", 7)?);
    assert!(rt; adds(rt.alloc(), &mut leaf, b"bc", 8)?);
    assert!(rt; adds(rt.alloc(), &mut leaf, b"d", 9)?);
    assert!(rt; &leaf[..8] == [0, 3, 0, 133, 0, 44, 0, 0].as_slice());
    assert!(rt; number_of(rt.alloc(), &leaf, b"bc")? == Some(8));
    assert!(rt; remove(&mut leaf, b"a"));
    assert!(rt; &leaf[..8] == [0, 2, 0, 89, 0, 45, 0, 0].as_slice());
    Ok(())
}

/// A record that is replaced stands at the end.
#[test]
fn replaced(rt: HostRuntime) -> Result<(), Fail> {
    let mut leaf = empty_leaf();
    assert!(rt; adds(rt.alloc(), &mut leaf, b"a", 7)?);
    assert!(rt; adds(rt.alloc(), &mut leaf, b"bc", 8)?);
    assert!(rt; replaces(rt.alloc(), &mut leaf, b"a", b"efg")?);
    assert!(rt; &leaf[..8] == [0, 2, 0, 91, 0, 45, 0, 0].as_slice());
    assert!(rt; number_of(rt.alloc(), &leaf, b"efg")? == Some(10));
    Ok(())
}
