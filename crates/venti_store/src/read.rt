//! Reads of held blocks.
ghost use Rattle.std.specs.Prelude.{◌≡◌, ◌≢◌, ◌<◌, ◌≤◌, ◌+◌, ◌^◌, ℕ, length, take, IfOk, IfErr, MatchResult, OnOk};
ghost use Rattle.std.specs.List.{Contains};
ghost use Rattle.fo_disk.specs.Disk.{Block, versions_of};
ghost use Rattle.fo_image.specs.Place.{stored_block};
ghost use Rattle.venti_store.specs.Arena.{IsReadOrMemory, IsMemory, IsCollision, HasCauses};

use crate::ArenaError;
use fo_disk::{BLOCK, Disk};
use fo_image::stored_block;
use std::alloc::Global;

/// A copy of these bytes.
pub(crate) fn copy_of(alloc: Global, bytes: &[u8]) -> Result<Vec<u8>, ArenaError>
    ensures copied { IfOk result (λ v. v.items ≡ bytes.now) }
    ensures memory { IfErr result IsMemory }
{
    match Vec::from_slice(alloc, bytes) {
        Ok(copy) => Ok(copy),
        Err(_) => Err(ArenaError::Memory),
    }
}

/// The bytes of a place, as the device has them.
pub(crate) fn read_stored<A: Disk>(
    alloc: Global,
    device: &mut A,
    place: u32,
    len: u16,
) -> Result<Vec<u8>, ArenaError>
    requires place { place < 2 ^ 31 }
    requires block { stored_block place < A.size device.old }
    requires len { len ≤ 8192 }
    ensures read { IfOk result (λ v. stored_block place < length (A.state device.old).holds → (block : Block) × Contains (versions_of (A.state device.old).holds (stored_block place)) block × (v.items ≡ take len block)) }
    ensures short { IfOk result (λ v. length v.items ≤ 8192) }
    ensures calls { A.calls device.new ≤ A.calls device.old + 1 }
    ensures kept { A.state device.new ≡ A.state device.old }
    ensures size { A.size device.new ≡ A.size device.old }
    ensures cause { HasCauses (A.faults device.old) (A.faults device.new) result }
    ensures fault { IfErr result IsReadOrMemory }
{
    let mut block = [0; BLOCK];
    let Ok(()) = device.read(stored_block(place), &mut block) else {
        return Err(ArenaError::ArenaRead);
    };
    match Vec::from_slice(alloc, &block[..len as usize]) {
        Ok(bytes) => Ok(bytes),
        Err(_) => Err(ArenaError::Memory),
    }
}

/// The held block, where these are its bytes. Other ones are refused, with both.
pub(crate) fn compare(alloc: Global, held: Vec<u8>, bytes: &[u8]) -> Result<Vec<u8>, ArenaError>
    ensures { MatchResult result (λ v. (v.items ≡ held.items) × (held.items ≡ bytes.now)) (IsCollision held.items bytes.now) }
{
    if held.as_slice() == bytes {
        return Ok(held);
    }
    let other = copy_of(alloc, bytes)?;
    Err(ArenaError::Collision(held, other))
}
