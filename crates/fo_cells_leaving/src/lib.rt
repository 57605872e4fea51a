//! Who may still lead to what a put queues: only what was queued before, and the block put into.
//!
//! A put that replaces blocks queues its removals in order. Each has a shape (`IsShaped`): a block that has a copy; a set of blocks that hang
//! together from a slot that is no slot 0 of a block of pointers; or a level that a source loses, which hung from the slot that was put, or in slot
//! 0 of a level that was queued before.
//!
//! Proved, over the invariant of `fo_cells_steps` (`HoldsMade`): removals of these shapes, each below what was queued before or the block put
//! into, are ones that leave (`AllLeaving`), where a made block comes in the place of another, and where levels are lost. That is what `fo_cells_puts`
//! asks of them, so whoever queues them needs to name slots of the tree alone. Not here: a slot that is cleared (`fo_cells_steps` asks no
//! more than the shape).
#![tactic(auto)]

mod laws;

pub use laws::put_removals_leave;
