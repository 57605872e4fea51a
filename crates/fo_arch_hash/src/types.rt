//! Batches of archived blocks.
ghost use Rattle.std.specs.Prelude.{◌≡◌, true, nat_le, length};
ghost use Rattle.fo_image.specs.Format.{is_arena_kind};

/// How many blocks are hashed together at most.
pub const MOST: u32 = 64;

/// A block of an archive as the arena stores it: the address on the main device at which it was read, its kind in the arena, and its
/// archived form without the tail.
#[derive(Drop)]
pub struct Piece {
    pub at: u32,
    pub kind: u8,
    pub bytes: Vec<u8>,
    ghost kind_is: { is_arena_kind kind ≡ true },
    ghost short: { nat_le (length bytes.items) 8192 ≡ true },
}

/// Blocks of an archive that were read together: the epoch of its snapshot, how many of its blocks were stored by then, and the
/// blocks, none of which leads to another.
#[derive(Drop)]
pub struct Batch {
    pub epoch: u32,
    pub stored: u64,
    pub pieces: Vec<Piece>,
}
