//! What is asked of a cache between requests.
ghost use Rattle.std.specs.Prelude.{◌≡◌, []};
ghost use Rattle.fo_labels.specs.Region.{usable_count};
ghost use Rattle.fo_mind.specs.MindParts.{parts};

use fo_cache::Cache;
use fo_disk::Disk;
use fo_image::Super;

/// How many blocks are usable by the labels of memory.
pub fn usable<D: Disk>(cache: &Cache<D>) -> u32
    ensures { result ≡ usable_count (parts cache.now.mind [] 0).one.low (parts cache.now.mind [] 0).region }
{
    cache.mind.labels.usable(cache.mind.one.low)
}

/// The super block of memory.
pub fn super_block<D: Disk>(cache: &Cache<D>) -> Super
    ensures { result ≡ (parts cache.now.mind [] 0).one }
{
    cache.mind.one
}
