//! Dated names.
use fo_names::{DatedName, dated};
use std::process::Abort;
use std::test::Fail;

// Epochs and moments.
const MOMENTS: [(u32, u32); 18] = [
    (1, 0),
    (2, 0),
    (3, 59),
    (4, 60),
    (5, 86_399),
    (6, 86_400),
    (7, 68_169_599),
    (8, 68_169_600),
    (9, 951_782_399),
    (10, 951_782_400),
    (11, 951_868_800),
    (12, 1_709_164_800),
    (13, 1_798_761_599),
    (14, 1_798_761_600),
    (15, 4_107_542_399),
    (16, 4_107_542_400),
    (17, u32::MAX),
    (18, 4_294_967_280),
];

// Year, month with day, and name of each.
const WANTED: [(u16, u16, &str); 18] = [
    (1970, 101, "0000"),
    (1970, 101, "0000.2"),
    (1970, 101, "0000.3"),
    (1970, 101, "0001"),
    (1970, 101, "2359"),
    (1970, 102, "0000"),
    (1972, 228, "2359"),
    (1972, 229, "0000"),
    (2000, 228, "2359"),
    (2000, 229, "0000"),
    (2000, 301, "0000"),
    (2024, 229, "0000"),
    (2026, 1231, "2359"),
    (2027, 101, "0000"),
    (2100, 228, "2359"),
    (2100, 301, "0000"),
    (2106, 207, "0628"),
    (2106, 207, "0628.18"),
];

// The epoch has this dated name.
fn is_named(rt: &impl Abort, named: &(u32, DatedName), epoch: u32, wanted: (u16, u16, &str)) {
    let (year, monthday, text) = wanted;
    assert_eq!(rt; named.0, epoch);
    assert_eq!(rt; named.1.year, year, "year of {epoch}");
    assert_eq!(rt; named.1.monthday, monthday, "month and day of {epoch}");
    assert_eq!(rt; named.1.name.as_slice(), text.as_bytes(), "name of {epoch}");
}

// Each epoch has its dated name.
fn are_named(rt: &impl Abort, names: &[(u32, DatedName)]) {
    assert_eq!(rt; names.len(), WANTED.len());
    for (named, (place, wanted)) in names.iter().zip(MOMENTS.iter().zip(WANTED)) {
        is_named(rt, named, place.0, wanted);
    }
}

#[test]
fn ample(rt: HostRuntime) -> Result<(), Fail> {
    let names = dated(rt.alloc(), &MOMENTS)?;
    are_named(&rt, &names);
    Ok(())
}
