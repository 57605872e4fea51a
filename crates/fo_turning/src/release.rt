//! What was settled is given up.
ghost use Rattle.std.specs.Prelude.{◌≡◌, [], false, IfOk, IfErr};
ghost use Rattle.fo_ports.specs.declared.error.BlockError.TheVariants.{Memory as Wanting};
ghost use Rattle.fo_mind.specs.MindParts.{parts};
ghost use Rattle.fo_mind.specs.Turning.{may_release};
ghost use Rattle.fo_cache.specs.Easing.{Eases};
ghost use Rattle.fo_turning.specs.Flushes.{LetsGo, Releases};

use fo_cache::Cache;
use fo_disk::Disk;
use fo_order::Mark;
use fo_ports::BlockError;

/// What was written since the last sync. It alone may want memory.
pub fn marks_of<D: Disk>(cache: &Cache<D>) -> Result<Vec<Mark>, BlockError>
    ensures marks { IfOk result (λ v. v.items ≡ (parts cache.now.mind [] 0).turns.written) }
    ensures cause { IfErr result (λ e. e ≡ Wanting) }
{
    match Vec::from_slice(cache.mind.alloc, cache.mind.order.written()) {
        Ok(marks) => Ok(marks),
        Err(_) => Err(BlockError::Memory),
    }
}

// Gives a block up where it may be.
fn release_one<D: Disk>(cache: &mut Cache<D>, at: u32)
    ensures lets { LetsGo (λ b. b ≡ at) (D.state cache.old.main).holds (parts cache.old.mind [] 0) (parts cache.new.mind [] 0) }
    ensures gone { may_release (parts cache.new.mind [] 0) at ≡ false }
    ensures eases { Eases (parts cache.old.mind (D.state cache.old.main).holds (D.faults cache.old.main)) (parts cache.new.mind (D.state cache.new.main).holds (D.faults cache.new.main)) }
    ensures device { cache.new.main ≡ cache.old.main }
{
    if !cache.mind.is_block(at) {
        return;
    }
    cache.release(at);
}

/// Gives each of these blocks up that may be.
pub fn release_written<D: Disk>(cache: &mut Cache<D>, marks: Vec<Mark>)
    ensures releases { Releases marks.items (D.state cache.old.main).holds (parts cache.old.mind [] 0) (parts cache.new.mind [] 0) }
    ensures eases { Eases (parts cache.old.mind (D.state cache.old.main).holds (D.faults cache.old.main)) (parts cache.new.mind (D.state cache.new.main).holds (D.faults cache.new.main)) }
    ensures device { cache.new.main ≡ cache.old.main }
{
    let mut left = marks;
    while let Some(mark) = left.pop() {
        release_one(cache, mark.at);
    }
}
