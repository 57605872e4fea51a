//! Moments that passed.
use crate::block::PlainBlock;

/// What the device had as a moment passed.
#[derive(Drop)]
pub struct Moment {
    pub(crate) blocks: Vec<PlainBlock>,
}
