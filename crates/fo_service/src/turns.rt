//! The turns between two messages.
ghost use Rattle.std.specs.Prelude.{◌≡◌, true, false};
ghost use Rattle.fo_world.specs.Answers.{NotFewer};
ghost use Rattle.fo_service.specs.Service.{FlushesOnce, FlushesSome, RestsThrough};

use fo_events::{Flushed, Turner};

/// Takes one flushing turn, and says whether another may do more.
fn flush_once<T: Turner>(turner: &mut T) -> bool
    ensures flushes { FlushesOnce T.goes turner.old result turner.new }
    ensures later { NotFewer (T.faults turner.old) (T.faults turner.new) }
{
    match turner.flush() {
        Ok(Flushed::Idle) | Err(_) => false,
        Ok(_) => true,
    }
}

/// Takes at most four flushing turns, fewer where one is idle or fails.
fn flush_some<T: Turner>(turner: &mut T)
    ensures flushes { FlushesSome T.goes turner.old turner.new }
    ensures later { NotFewer (T.faults turner.old) (T.faults turner.new) }
{
    'flushes: for _ in 0..4_u8 {
        if !flush_once(turner) {
            return;
        }
    }
}

/// Takes the turns between two messages: some flushing turns, and one unlinking turn.
pub fn rest_through<T: Turner>(turner: &mut T)
    ensures rests { RestsThrough T.goes turner.old turner.new }
    ensures later { NotFewer (T.faults turner.old) (T.faults turner.new) }
{
    flush_some(turner);
    let _ = turner.unlink();
}
