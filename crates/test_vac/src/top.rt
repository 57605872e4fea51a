//! Top blocks of archives.
ghost use Rattle.std.specs.Prelude.{◌≡◌, length};

use fo_image::{Record, Score, Text};
use fo_vacput::{VacEntry, VacTop, VacTopError, is_vac_top, read_vac_top, write_vac_top};
use std::alloc::Global;
use std::test::Fail;

/// The root directory's entries: one block.
const ENTRIES: VacEntry = VacEntry {
    generation: 0,
    active: true,
    dir: true,
    depth: 0,
    size: 8192,
    score: Score([0x11; 20]),
};

/// The root directory's records: one block.
const META: VacEntry = VacEntry {
    generation: 0,
    active: true,
    dir: false,
    depth: 0,
    size: 8192,
    score: Score([0x22; 20]),
};

/// Both entries, and the record of `/`, a directory of mode 0777 of `adm`, made at the moment 3.
const FRONT: [u8; 124] = [
    0, 0, 0, 0, 0x1f, 0xf4, 0x20, 0, 3, 0, 0, 0, 0, 0, 0, 0, 0, 0, 0x20, 0, //
    0x11, 0x11, 0x11, 0x11, 0x11, 0x11, 0x11, 0x11, 0x11, 0x11, //
    0x11, 0x11, 0x11, 0x11, 0x11, 0x11, 0x11, 0x11, 0x11, 0x11, //
    0, 0, 0, 0, 0x1f, 0xf4, 0x20, 0, 1, 0, 0, 0, 0, 0, 0, 0, 0, 0, 0x20, 0, //
    0x22, 0x22, 0x22, 0x22, 0x22, 0x22, 0x22, 0x22, 0x22, 0x22, //
    0x22, 0x22, 0x22, 0x22, 0x22, 0x22, 0x22, 0x22, 0x22, 0x22, //
    0, 44, 0, 0, 0, 0, 0, 0, 0, 0, 0, 0, 0, 0, 0, 0, 0, 0, 0x80, 0, 1, 0xff, //
    0, 0, 0, 3, 0, 0, 0, 3, 1, b'/', 3, b'a', b'd', b'm', 3, b'a', b'd', b'm', 3, b'a', b'd', b'm',
];

/// The record of the root directory.
fn own(alloc: Global) -> Result<Record, Fail> {
    Ok(Record {
        name: Text::copy_of(alloc, b"/")?,
        number: 0,
        slot: 0,
        generation: 0,
        vers: 0,
        mode: 0x8000_01ff,
        atime: 3,
        mtime: 3,
        uid: Text::copy_of(alloc, b"adm")?,
        gid: Text::copy_of(alloc, b"adm")?,
        muid: Text::copy_of(alloc, b"adm")?,
    })
}

/// The block with one byte changed.
fn block(at: usize, byte: u8) -> [u8; 8192]
    ensures { length result ≡ 8192 }
{
    let mut block = [0; 8192];
    block[..124].copy_from_slice(&FRONT);
    if at < 8192 {
        block[at] = byte;
    }
    block
}

/// Whether the top block has a spelling, which is this block.
fn spells(top: &VacTop, block: &[u8; 8192]) -> bool {
    if !is_vac_top(top) {
        return false;
    }
    let mut again = [0xff; 8192];
    write_vac_top(top, &mut again);
    again == *block
}

/// Whether a block with this byte changed spells no top block.
fn is_refused(alloc: Global, at: usize, byte: u8) -> bool {
    matches!(read_vac_top(alloc, &block(at, byte)), Err(VacTopError::Bad))
}

/// What is read is what is written, with ample memory.
#[test]
fn ample(rt: HostRuntime) -> Result<(), Fail> {
    let top = read_vac_top(rt.alloc(), &block(0, 0))?;
    assert!(rt; (top.entries, top.meta) == (ENTRIES, META));
    assert!(rt; (top.own.mode, top.own.mtime) == (0x8000_01ff, 3));
    assert!(rt; spells(&top, &block(0, 0)));
    Ok(())
}

#[test]
fn a_top_block_has_its_bytes(rt: HostRuntime) -> Result<(), Fail> {
    let top = VacTop {
        entries: ENTRIES,
        meta: META,
        own: own(rt.alloc())?,
    };
    assert!(rt; spells(&top, &block(0, 0)));
    Ok(())
}

#[test]
fn other_blocks_are_refused(rt: HostRuntime) {
    let alloc = rt.alloc();
    assert!(rt; is_refused(alloc, 8, 1), "entries of no directory");
    assert!(rt; is_refused(alloc, 48, 3), "records of a directory");
    assert!(rt; is_refused(alloc, 81, 45), "a longer record");
    assert!(rt; is_refused(alloc, 85, 1), "a number");
    assert!(rt; is_refused(alloc, 111, b'.'), "another name");
    assert!(rt; is_refused(alloc, 8191, 1), "no zero");
}
