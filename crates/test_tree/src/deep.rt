//! A source that grows past each border.
use crate::steps::{Step, has, run, source};
use fo_image::Pointer;
use fo_ports::{BlockError, Blocks};
use fo_ports_plain::PlainBlocks;
use std::alloc::Global;
use std::test::Fail;

/// The source grows by the last leaf before each border and the first one behind it, up to four levels, and its last byte is put each time.
pub(crate) const STEPS: [Step; 16] = [
    Step::Grow(0),
    Step::Put(1),
    Step::Grow(1),
    Step::Put(2),
    Step::Grow(408),
    Step::Put(3),
    Step::Grow(409),
    Step::Put(4),
    Step::Grow(167280),
    Step::Put(5),
    Step::Grow(167281),
    Step::Put(6),
    Step::Grow(68417928),
    Step::Put(7),
    Step::Grow(68417929),
    Step::Put(8),
];

/// Bytes on both sides of each border: 8192 times 1, 409, 409^2 and 409^3.
pub(crate) const PLACES: [u64; 14] = [
    8190,
    8191,
    8192,
    16383,
    16384,
    3350527,
    3350528,
    3358719,
    1370365951,
    1370365952,
    1370374143,
    560479674367,
    560479674368,
    560479682559,
];

/// A source without bytes is put through these steps: whether it has these bytes then.
fn shows(alloc: Global, steps: &[Step], rows: &[(u64, u8)]) -> Result<bool, BlockError> {
    if 16 < steps.len() {
        return Ok(false);
    }
    let mut on = PlainBlocks::new(alloc, 240)?;
    on.reserve(240, 100, 0)?;
    let mut ways = source(alloc, 0, 0, Pointer::Nil);
    run(&mut ways, &mut on, steps);
    has(&ways, &mut on, rows)
}

/// The byte at a place after these steps: that which was put when it was the last one, else 0.
pub(crate) fn wanted(steps: &[Step], place: u64) -> u8 {
    let mut last = 0;
    let mut value = 0;
    for step in steps {
        match *step {
            Step::Grow(i) => last = 8192 * u64::from(i) + 8191,
            Step::Put(byte) => {
                if place == last {
                    value = byte;
                }
            }
        }
    }
    value
}

/// The bytes at all places after these steps.
fn rows(steps: &[Step]) -> [(u64, u8); 14] {
    let mut rows = [(0, 0); 14];
    for i in 0..14 {
        rows[i] = (PLACES[i], wanted(steps, PLACES[i]));
    }
    rows
}

/// Whether the source has the bytes that it should have after the first so many steps.
fn shows_after(alloc: Global, count: usize) -> Result<bool, BlockError> {
    match STEPS.get(0..count) {
        Some(steps) => shows(alloc, steps, &rows(steps)),
        None => Ok(false),
    }
}

/// Whether it has them after each step.
fn shows_each(alloc: Global) -> Result<bool, BlockError> {
    for count in 1..17 {
        if !shows_after(alloc, count)? {
            return Ok(false);
        }
    }
    Ok(true)
}

/// One leaf: its last byte was put, and the others are zeros.
#[test]
fn ample(rt: HostRuntime) -> Result<(), Fail> {
    assert!(rt;
        shows(
            rt.alloc(),
            &[Step::Grow(0), Step::Put(7)],
            &[(0, 0), (8191, 7)]
        )?
    );
    Ok(())
}

/// From no level to one, two, three and four: after each step the bytes that were put stand on both sides of each border, and all between
/// them are holes.
#[test]
fn borders(rt: HostRuntime) -> Result<(), Fail> {
    assert!(rt; shows_each(rt.alloc())?);
    Ok(())
}

/// A hole of a terabyte: zeros stand wherever it is read, and the byte behind it.
#[test]
fn hole(rt: HostRuntime) -> Result<(), Fail> {
    let steps = [Step::Grow(134217726), Step::Put(5)];
    let rows = [
        (0, 0),
        (8191, 0),
        (8192, 0),
        (499999999999, 0),
        (999999999999, 0),
        (1099511619582, 0),
        (1099511619583, 5),
    ];
    assert!(rt; shows(rt.alloc(), &steps, &rows)?);
    Ok(())
}
