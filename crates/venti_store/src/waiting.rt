//! Blocks that were put and wait in memory until they are settled on the device.
ghost use Rattle.std.specs.Prelude.{◌≡◌, ◌≤◌, length, IfOk};

use fo_base::Memory;
use std::alloc::Global;

/// The bytes of a block that was put and is not settled yet.
#[derive(Drop)]
pub(crate) struct Waiting {
    pub(crate) bytes: Vec<u8>,
    ghost fits: { length bytes.items ≤ 8192 },
}

impl Waiting {
    /// A copy of these bytes.
    pub(crate) fn copy_of(alloc: Global, bytes: &[u8]) -> Result<Waiting, Memory>
        requires { length bytes.now ≤ 8192 }
        ensures { IfOk result (λ w. w.bytes.items ≡ bytes.now) }
    {
        Ok(Waiting {
            bytes: Vec::from_slice(alloc, bytes)?,
        })
    }
}
