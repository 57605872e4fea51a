//! Files and blocks that tell nothing of what they hold, for tests.
//!
//! Files that tell nothing answer whatever fits (`CarelessFiles`): so the contract of files can be
//! kept by a silent disk, and promises no more there; `agreed_length` asks any files twice how long a file is, which honest ones answer
//! alike. Blocks that tell nothing (`CarelessBlocks`) keep each clause and law of the contract of blocks: what was given out is in memory
//! for good, nothing is ever closed, so what is queued stays so, no slot waits to be cleared, and every other fetch finds nothing, as an
//! arena in a file may read differently each time. So they show nothing of blocks that are read from a device, of buffers that run out, or
//! of slots that wait. `put_byte` changes a byte of a block over any blocks, also those of a device that tells nothing, and each of its
//! refusals has its cause. `fetch_twice` says that what was fetched is fetched again, the same, where the device tells; over
//! `CarelessBlocks` it isn't. Their tests stand in `test_over_blocks`.
#![tactic(auto)]

mod asked;
mod careless;
mod change;
mod fetched;
mod silent;
mod silent_calls;

pub use asked::agreed_length;
pub use careless::CarelessFiles;
pub use change::put_byte;
pub use fetched::fetch_twice;
pub use silent::CarelessBlocks;
