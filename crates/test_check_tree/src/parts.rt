//! The calls below the check that may want memory, each once.
use crate::made::made;
use fo_check_labels::{Labels, TreeError};
use fo_check_names::{Named, add_named, add_numbers};
use fo_disk::{BLOCK, Disk, MemDisk};
use fo_rules::read_leaf;
use std::alloc::Global;
use std::test::Fail;

/// The sound image in a device of 64 blocks.
fn device(alloc: Global) -> Result<MemDisk, Fail> {
    let mut main = MemDisk::new(alloc, 64, Vec::new(alloc))?;
    let mut arena = MemDisk::new(alloc, 16, Vec::new(alloc))?;
    made(alloc, &mut main, &mut arena)?;
    Ok(main)
}

/// How many blocks of the image are not free, where those from 3 to 12 are among them.
fn known(alloc: Global) -> Result<Result<usize, TreeError>, Fail> {
    let mut main = device(alloc)?;
    if main.blocks()? != 64 {
        return Ok(Err(TreeError::Read));
    }
    match Labels::read(alloc, &mut main, 64) {
        Ok(labels) => Ok(Ok(labels.known.len())),
        Err(e) => Ok(Err(e)),
    }
}

/// How many names and numbers the records of the root directory give.
fn counted(alloc: Global) -> Result<Option<(usize, usize)>, Fail> {
    let mut main = device(alloc)?;
    if main.blocks()? != 64 {
        return Ok(None);
    }
    let mut block = [0; BLOCK];
    main.read(5, &mut block)?;
    let Some(records) = read_leaf(alloc, &block)? else {
        return Ok(None);
    };
    let mut named: Vec<Named> = Vec::new(alloc);
    add_named(&mut named, records, 5)?;
    let mut numbers = Vec::new(alloc);
    add_numbers(named.as_slice(), &mut numbers)?;
    Ok(Some((named.len(), numbers.len())))
}

/// The label table of the image.
#[test]
fn ample(rt: HostRuntime) -> Result<(), Fail> {
    assert!(rt; known(rt.alloc())? == Ok(10));
    Ok(())
}

/// The two records of the root directory.
#[test]
fn ample_names(rt: HostRuntime) -> Result<(), Fail> {
    assert!(rt; counted(rt.alloc())? == Some((2, 2)));
    Ok(())
}
