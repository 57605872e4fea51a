//! A cache over its device, with an arena beside it.
use fo_disk::Disk;
use fo_settling::Cache;
use venti_store::Arena;

/// A cache over its device, and an arena on another one.
#[derive(Drop)]
pub struct Devices<D: Disk, A: Disk> {
    pub cache: Cache<D>,
    pub arena: Arena<A>,
}

impl<D: Disk, A: Disk> Devices<D, A> {
    ghost use Rattle.std.specs.Prelude.{◌≡◌};

    /// The blocks of a cache and an arena that are open.
    pub fn new(cache: Cache<D>, arena: Arena<A>) -> Devices<D, A>
        ensures cache { result.cache ≡ cache }
        ensures arena { result.arena ≡ arena }
    {
        Devices { cache, arena }
    }

    /// Both devices, with what they hold. What isn't settled may be lost.
    pub fn close(self) -> (D, A)
        ensures main { result.0 ≡ self.cache.main }
        ensures arena { result.1 ≡ self.arena.device }
    {
        let Devices { cache, arena } = self;
        (cache.close(), arena.close())
    }
}
