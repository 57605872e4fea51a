//! Lengths of records, each wrong one.
use crate::made::{put, sound};
use fo_check::CheckError;
use fo_check_image::check;
use fo_disk::MemDisk;
use std::alloc::Global;
use std::test::Fail;

/// Whether rule 5 is broken at the root's leaf of records once its first record has this length.
fn is_bad(
    alloc: Global,
    main: &mut MemDisk,
    arena: &mut MemDisk,
    length: u16,
) -> Result<bool, Fail> {
    put(main, 5, 4, &length.to_be_bytes())?;
    let wanted = CheckError::Unsound { rule: 5, block: 5 };
    Ok(check(alloc, main, arena) == Err(wanted))
}

/// The first of these lengths that is taken.
fn first_taken(
    alloc: Global,
    main: &mut MemDisk,
    arena: &mut MemDisk,
    from: u16,
    to: u16,
    step: u16,
) -> Result<Option<u16>, Fail> {
    let mut length = from;
    for _ in 0..300 {
        if to <= length {
            return Ok(None);
        }
        if !is_bad(alloc, main, arena, length)? {
            return Ok(Some(length));
        }
        length = length.saturating_add(step);
    }
    Ok(None)
}

/// Each length up to 256 but the right one, 44, and some above.
#[test]
fn lengths(rt: HostRuntime) -> Result<(), Fail> {
    let alloc = rt.alloc();
    let (mut main, mut arena) = sound(alloc)?;
    assert_eq!(rt; first_taken(alloc, &mut main, &mut arena, 0, 44, 1)?, None);
    assert_eq!(rt;
        first_taken(alloc, &mut main, &mut arena, 45, 257, 1)?,
        None
    );
    assert_eq!(rt;
        first_taken(alloc, &mut main, &mut arena, 300, 65535, 256)?,
        None
    );
    assert_eq!(rt;
        first_taken(alloc, &mut main, &mut arena, 44, 45, 1)?,
        Some(44)
    );
    Ok(())
}
