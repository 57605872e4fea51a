ghost use Rattle.std.specs.Prelude.{◌≡◌, length};

use fo_rules::read_leaf;
use std::alloc::{AllocError, Global};
use std::test::Fail;

/// A leaf with one record, of the name `f` and number 1.
fn leaf() -> [u8; 8192]
    ensures { length result ≡ 8192 }
{
    let mut block = [0; 8192];
    block[..48].copy_from_slice(&[
        0, 1, 0, 44, 0, 44, 0, 0, 0, 1, 0, 0, 0, 0, 0, 0, 0, 0, 0, 0, 0, 0, 0, 0, 1, 164, 0, 0, 0,
        7, 0, 0, 0, 7, 1, b'f', 3, b'a', b'd', b'm', 3, b'a', b'd', b'm', 3, b'a', b'd', b'm',
    ]);
    block
}

/// How many records are read from a leaf, if it is one.
fn count(alloc: Global, leaf: &[u8]) -> Result<Option<usize>, AllocError>
    requires { length leaf.now ≡ 8192 }
{
    match read_leaf(alloc, leaf)? {
        Some(records) => Ok(Some(records.len())),
        None => Ok(None),
    }
}

/// One record is read.
#[test]
fn ample(rt: HostRuntime) -> Result<(), Fail> {
    assert!(rt; count(rt.alloc(), &leaf())? == Some(1));
    Ok(())
}

/// A wrong count, and a byte behind the records.
#[test]
fn broken(rt: HostRuntime) -> Result<(), Fail> {
    let mut two = leaf();
    two[1] = 2;
    assert!(rt; count(rt.alloc(), &two)? == None);
    let mut more = leaf();
    more[8191] = 1;
    assert!(rt; count(rt.alloc(), &more)? == None);
    Ok(())
}

/// The leaf with another length in its record.
fn of_length(size: u16) -> [u8; 8192]
    ensures { length result ≡ 8192 }
{
    let mut block = leaf();
    block[4..6].copy_from_slice(&size.to_be_bytes());
    block
}

/// The first of these lengths with which a record is read.
fn first_read(alloc: Global, from: u16, to: u16) -> Result<Option<u16>, AllocError> {
    for size in from..to {
        if count(alloc, &of_length(size))?.is_some() {
            return Ok(Some(size));
        }
    }
    Ok(None)
}

/// Each length of a record but the right one, 44.
#[test]
fn lengths(rt: HostRuntime) -> Result<(), Fail> {
    assert!(rt; first_read(rt.alloc(), 0, 44)? == None);
    assert!(rt; first_read(rt.alloc(), 44, 45)? == Some(44));
    assert!(rt; first_read(rt.alloc(), 45, u16::MAX)? == None);
    assert!(rt; count(rt.alloc(), &of_length(u16::MAX))? == None);
    Ok(())
}
