//! Archived entries.
use fo_image::Score;
use fo_vacput::{BadVac, VacEntry, is_vac_entry, read_vac_entry, write_vac_entry};

/// A file of 10000 bytes, whose two blocks are below one pointer block.
const FILE: VacEntry = VacEntry {
    generation: 7,
    active: true,
    dir: false,
    depth: 1,
    size: 10000,
    score: Score([0x11; 20]),
};

const FILE_BYTES: [u8; 40] = [
    0, 0, 0, 7, 0x1f, 0xf4, 0x20, 0, 5, 0, 0, 0, 0, 0, 0, 0, 0, 0, 0x27, 0x10, //
    0x11, 0x11, 0x11, 0x11, 0x11, 0x11, 0x11, 0x11, 0x11, 0x11, //
    0x11, 0x11, 0x11, 0x11, 0x11, 0x11, 0x11, 0x11, 0x11, 0x11,
];

/// A directory of 2^40 bytes, which takes four levels of pointer blocks.
const DIR: VacEntry = VacEntry {
    generation: 0x01020304,
    active: true,
    dir: true,
    depth: 4,
    size: 1 << 40,
    score: Score([0x22; 20]),
};

const DIR_BYTES: [u8; 40] = [
    1, 2, 3, 4, 0x1f, 0xf4, 0x20, 0, 0x13, 0, 0, 0, 0, 0, 1, 0, 0, 0, 0, 0, //
    0x22, 0x22, 0x22, 0x22, 0x22, 0x22, 0x22, 0x22, 0x22, 0x22, //
    0x22, 0x22, 0x22, 0x22, 0x22, 0x22, 0x22, 0x22, 0x22, 0x22,
];

/// An entry that is not in use, and was nine times.
const NONE: VacEntry = VacEntry {
    generation: 9,
    active: false,
    dir: false,
    depth: 0,
    size: 0,
    score: Score([0; 20]),
};

fn bytes_of(entry: &VacEntry) -> Option<[u8; 40]> {
    if !is_vac_entry(entry) {
        return None;
    }
    let mut bytes = [0xff; 40];
    write_vac_entry(entry, &mut bytes);
    Some(bytes)
}

/// The bytes of the file with one of them changed.
fn changed(at: usize, byte: u8) -> [u8; 40] {
    let mut bytes = FILE_BYTES;
    if at < 40 {
        bytes[at] = byte;
    }
    bytes
}

fn none_bytes() -> [u8; 40] {
    let mut bytes = [0; 40];
    bytes[3] = 9;
    bytes
}

#[test]
fn entries_have_their_bytes(rt: HostRuntime) {
    assert!(rt; bytes_of(&FILE) == Some(FILE_BYTES));
    assert!(rt; bytes_of(&DIR) == Some(DIR_BYTES));
    assert!(rt; bytes_of(&NONE) == Some(none_bytes()));
}

#[test]
fn bytes_give_their_entries(rt: HostRuntime) {
    assert!(rt; read_vac_entry(&FILE_BYTES) == Ok(FILE));
    assert!(rt; read_vac_entry(&DIR_BYTES) == Ok(DIR));
    assert!(rt; read_vac_entry(&none_bytes()) == Ok(NONE));
}

#[test]
fn other_bytes_are_refused(rt: HostRuntime) {
    assert!(rt; read_vac_entry(&FILE_BYTES[..39]) == Err(BadVac));
    assert!(rt;
        read_vac_entry(&changed(5, 0xf3)) == Err(BadVac),
        "8179 bytes of pointers"
    );
    assert!(rt;
        read_vac_entry(&changed(6, 0x10)) == Err(BadVac),
        "blocks of 4096 bytes"
    );
    assert!(rt;
        read_vac_entry(&changed(8, 9)) == Err(BadVac),
        "a depth of 2"
    );
    assert!(rt;
        read_vac_entry(&changed(8, 4)) == Err(BadVac),
        "an entry that is not in use, with a size"
    );
    assert!(rt; read_vac_entry(&changed(13, 1)) == Err(BadVac), "no zero");
}

#[test]
fn a_score_begins_with_no_sixteen_zeros(rt: HostRuntime) {
    let mut bytes = FILE_BYTES;
    bytes[20..36].fill(0);
    assert!(rt; read_vac_entry(&bytes) == Err(BadVac));
    bytes[35] = 1;
    assert!(rt; read_vac_entry(&bytes) != Err(BadVac));
}
