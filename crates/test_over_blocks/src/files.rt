//! Files that tell nothing.
use fo_world::{FileError, FileOps, Place, View};
use std::alloc::Global;
use std::test::Fail;
use test_blocks::{CarelessFiles, agreed_length};

/// How long the root is by two answers, of files that tell nothing.
fn asked_twice(alloc: Global) -> Result<Option<u64>, FileError> {
    let mut files = CarelessFiles::new(alloc, 100);
    let at = Place::root(alloc, View::Active);
    agreed_length(&mut files, &at)
}

/// A directory as it is told of files with no room left.
fn found(alloc: Global) -> Result<u64, FileError> {
    let mut files = CarelessFiles::new(alloc, 0);
    let at = Place::root(alloc, View::Active);
    let info = files.parent(&at)?;
    Ok(info.length)
}

/// Two answers differ, with ample memory; and what is told of the root is told.
#[test]
fn ample(rt: HostRuntime) -> Result<(), Fail> {
    assert_eq!(rt; asked_twice(rt.alloc())?, None);
    assert_eq!(rt; found(rt.alloc())?, 0);
    Ok(())
}
