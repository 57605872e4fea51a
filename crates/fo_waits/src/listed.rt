//! What waits.

/// What is put into block `at` waits for this pair of entries of block `on`.
#[derive(Clone, Copy, Drop)]
pub struct Wait {
    pub at: u32,
    pub on: u32,
    pub pair: u32,
}

/// A slot of block `at` is cleared when block `after` is settled.
#[derive(Clone, Copy, Drop)]
pub struct Clearing {
    pub at: u32,
    pub slot: u32,
    pub after: u32,
}
