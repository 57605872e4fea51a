//! Buffers of blocks.
ghost use Rattle.std.specs.Prelude.{◌≡◌, length};

/// A buffer of a block, with what is known of its writes.
#[derive(Drop)]
pub struct Buffer {
    pub bytes: Vec<u8>,
    pub newborn: bool,
    pub complete: bool,
    pub dirty: bool,
    ghost block: { length bytes.items ≡ 8192 },
}

/// The buffers of all blocks of a device, by their addresses.
#[derive(Drop)]
pub struct Buffers {
    pub all: Vec<Buffer>,
}
