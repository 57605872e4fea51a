//! The roots of archives.
use fo_image::Score;
use fo_vacput::{BadVac, VacRoot, is_vac_root, read_vac_root, write_vac_root};

const FIRST: VacRoot = VacRoot {
    epoch: 12,
    time: 3456,
    top: Score([0x22; 20]),
    prev: None,
};

const LAST: VacRoot = VacRoot {
    epoch: 2147483647,
    time: 0,
    top: Score([0x22; 20]),
    prev: Some(Score([0x33; 20])),
};

/// The bytes of a root with this name, whose top block has the score of FIRST and LAST.
fn bytes_of(name: &[u8], prev: u8) -> [u8; 300] {
    let mut bytes = [0; 300];
    bytes[1] = 2;
    if name.len() <= 128 {
        bytes[2..2 + name.len()].copy_from_slice(name);
    }
    bytes[130..136].copy_from_slice(b"fossil");
    bytes[258..278].fill(0x22);
    bytes[278] = 0x20;
    bytes[280..].fill(prev);
    bytes
}

fn written(root: &VacRoot) -> Option<[u8; 300]> {
    if !is_vac_root(root) {
        return None;
    }
    let mut bytes = [0xff; 300];
    write_vac_root(root, &mut bytes);
    Some(bytes)
}

fn read(name: &[u8]) -> Result<VacRoot, BadVac> {
    read_vac_root(&bytes_of(name, 0))
}

/// What is read of FIRST with one of its bytes changed.
fn read_changed(at: usize, byte: u8) -> Result<VacRoot, BadVac> {
    let mut bytes = bytes_of(b"epoch 12 time 3456", 0);
    if at < 300 {
        bytes[at] = byte;
    }
    read_vac_root(&bytes)
}

/// What is read of FIRST without its last byte.
fn read_short() -> Result<VacRoot, BadVac> {
    match bytes_of(b"epoch 12 time 3456", 0).split_last() {
        Some((_, short)) => read_vac_root(short),
        None => Ok(FIRST),
    }
}

#[test]
fn roots_have_their_bytes(rt: HostRuntime) {
    assert!(rt; written(&FIRST) == Some(bytes_of(b"epoch 12 time 3456", 0)));
    assert!(rt; written(&LAST) == Some(bytes_of(b"epoch 2147483647 time 0", 0x33)));
}

#[test]
fn bytes_give_their_roots(rt: HostRuntime) {
    assert!(rt; read(b"epoch 12 time 3456") == Ok(FIRST));
    assert!(rt; read_vac_root(&bytes_of(b"epoch 2147483647 time 0", 0x33)) == Ok(LAST));
}

#[test]
fn other_names_are_refused(rt: HostRuntime) {
    assert!(rt; read(b"epoch 012 time 3456") == Err(BadVac));
    assert!(rt; read(b"epoch +12 time 3456") == Err(BadVac));
    assert!(rt; read(b"epoch 0 time 3456") == Err(BadVac));
    assert!(rt; read(b"epoch 2147483648 time 0") == Err(BadVac));
    assert!(rt; read(b"epoch 4294967296 time 0") == Err(BadVac));
    assert!(rt; read(b"epoch 12 time 3456 ") == Err(BadVac));
    assert!(rt; read(b"epoch  time 3456") == Err(BadVac));
    assert!(rt; read(b"vac") == Err(BadVac));
}

#[test]
fn other_bytes_are_refused(rt: HostRuntime) {
    assert!(rt; read_changed(1, 1) == Err(BadVac), "version 1");
    assert!(rt; read_changed(130, b'F') == Err(BadVac), "another type");
    assert!(rt; read_changed(257, 1) == Err(BadVac), "no zero");
    assert!(rt;
        read_changed(278, 0x10) == Err(BadVac),
        "blocks of 4096 bytes"
    );
    assert!(rt;
        read_changed(299, 1) == Err(BadVac),
        "a score that begins with sixteen zeros"
    );
    assert!(rt; read_short() == Err(BadVac));
}
