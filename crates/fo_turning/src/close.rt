//! Turns of closing, where all is at rest.
ghost use Rattle.std.specs.Prelude.{◌≡◌, ◌<◌, ◌≤◌, ℕ, List, [], true, false, length, nat_eq, None, is_some, MatchOption, OnErr, IfOk, IfErr};
ghost use Rattle.std.specs.List.{Contains};
ghost use Rattle.std.specs.Map.{lookup};
ghost use Rattle.fo_base.specs.Cause.{Rose};
ghost use Rattle.fo_buffers.specs.Held.{held_at};
ghost use Rattle.fo_ports.specs.Causes.{Caused};
ghost use Rattle.fo_unlink.specs.Work.{work};
ghost use Rattle.fo_closing.specs.declared.turn.Closing.TheVariants.{Closed as ClosedIs};
ghost use Rattle.fo_mind.specs.MindParts.{parts};
ghost use Rattle.fo_closing.specs.Rest.{AtRest};
ghost use Rattle.fo_turning.specs.Freed.{Yields};
ghost use Rattle.fo_turning.specs.Unlinks.{Closes, Forgets, Forgotten, Reading, Steps, ended};

use crate::unlink::Unlinked;
use fo_buffers::Buffers;
use fo_cache::Cache;
use fo_closing::{Closing, close_next};
use fo_disk::Disk;
use fo_mind::Mind;
use fo_ports::BlockError;

// What a step of closing answers for a turn; None where the content of a block is wanted next.
fn ended(answer: Closing) -> Option<Unlinked>
    ensures { result ≡ ended answer }
{
    match answer {
        Closing::Closed(at) => Some(Unlinked::Closed(at)),
        Closing::Stays(at) => Some(Unlinked::Passed(at)),
        Closing::Reads(_) => None,
        Closing::GivenUp => Some(Unlinked::GivenUp),
        Closing::Empty => Some(Unlinked::Empty),
    }
}

// Whether a block is clean.
fn is_clean(buffers: &Buffers, at: u32) -> bool
    ensures { result ≡ is_some (lookup (nat_eq at) buffers.now.clean) }
{
    buffers.clean_bytes(at).is_some()
}

// Forgets what is clean of a block that isn't held, and answers whether that was nothing.
fn forget_more(buffers: &mut Buffers, at: u32) -> bool
    requires { held_at buffers.old at ≡ None }
    ensures gone { result ≡ true → (bytes : List ℕ) → Contains buffers.new.clean (at, bytes) → ⊥ }
    ensures less { result ≡ false → length buffers.new.clean < length buffers.old.clean }
    ensures held { (b : ℕ) → held_at buffers.new b ≡ held_at buffers.old b }
    ensures clean { (b : ℕ) (bytes : List ℕ) → Contains buffers.new.clean (b, bytes) → Contains buffers.old.clean (b, bytes) }
    ensures room { buffers.new.room ≡ buffers.old.room }
{
    if !is_clean(buffers, at) {
        return true;
    }
    buffers.forget(at);
    false
}

// Forgets all that is clean of a block that isn't held.
fn forget_all(buffers: &mut Buffers, at: u32)
    requires { held_at buffers.old at ≡ None }
    ensures held { (b : ℕ) → held_at buffers.new b ≡ held_at buffers.old b }
    ensures clean { (b : ℕ) (bytes : List ℕ) → Contains buffers.new.clean (b, bytes) → Contains buffers.old.clean (b, bytes) }
    ensures gone { (bytes : List ℕ) → Contains buffers.new.clean (at, bytes) → ⊥ }
    ensures room { buffers.new.room ≡ buffers.old.room }
{
    while !forget_more(buffers, at) {}
}

// Forgets what is clean of a block that isn't held.
fn forget_clean(mind: &mut Mind, at: u32)
    requires { held_at mind.old.buffers at ≡ None }
    ensures forgets { Forgets at (parts mind.old [] 0) (parts mind.new [] 0) }
    ensures queue { mind.new.queue ≡ mind.old.queue }
{
    forget_all(&mut mind.buffers, at);
}

// Forgets what is clean of a block that was closed.
fn forget_closed(mind: &mut Mind, answer: Closing)
    requires { (at : ℕ) → answer ≡ ClosedIs at → held_at mind.old.buffers at ≡ None }
    ensures forgotten { Forgotten answer (parts mind.old [] 0) (parts mind.new [] 0) }
    ensures queue { mind.new.queue ≡ mind.old.queue }
{
    match answer {
        Closing::Closed(at) => forget_clean(mind, at),
        Closing::Stays(_) => (),
        Closing::Reads(_) => (),
        Closing::GivenUp => (),
        Closing::Empty => (),
    }
}

// Takes one step of closing.
fn close_step<D: Disk>(cache: &mut Cache<D>) -> Result<Closing, BlockError>
    requires rest { AtRest (parts cache.old.mind [] 0) }
    ensures steps { IfOk result (λ answer. Steps (D.state cache.old.main).holds answer (parts cache.old.mind (D.state cache.old.main).holds (D.faults cache.old.main)) (parts cache.new.mind (D.state cache.new.main).holds (D.faults cache.new.main)) cache.old.mind.queue cache.new.mind.queue) }
    ensures refused { OnErr result (Reading (D.state cache.old.main).holds (parts cache.old.mind (D.state cache.old.main).holds (D.faults cache.old.main)) (parts cache.new.mind (D.state cache.new.main).holds (D.faults cache.new.main)) cache.old.mind.queue cache.new.mind.queue) }
    ensures yields { Yields (parts cache.old.mind (D.state cache.old.main).holds (D.faults cache.old.main)) (parts cache.new.mind (D.state cache.new.main).holds (D.faults cache.new.main)) }
    ensures rest { AtRest (parts cache.new.mind [] 0) }
    ensures size { D.size cache.new.main ≡ D.size cache.old.main }
    ensures state { D.state cache.new.main ≡ D.state cache.old.main }
    ensures cause { IfErr result (Caused ⊥ (λ b. ⊥) (Rose (D.faults cache.old.main) (D.faults cache.new.main)) ⊥) }
    ensures later { D.faults cache.old.main ≤ D.faults cache.new.main }
{
    let answer = close_next(&mut cache.main, &mut cache.mind)?;
    forget_closed(&mut cache.mind, answer);
    Ok(answer)
}

// Takes one step of closing, and answers what the turn did, where it ends with it.
fn close_more<D: Disk>(cache: &mut Cache<D>) -> Result<Option<Unlinked>, BlockError>
    requires rest { AtRest (parts cache.old.mind [] 0) }
    ensures closes { IfOk result (λ o. MatchOption o (Reading (D.state cache.old.main).holds (parts cache.old.mind (D.state cache.old.main).holds (D.faults cache.old.main)) (parts cache.new.mind (D.state cache.new.main).holds (D.faults cache.new.main)) cache.old.mind.queue cache.new.mind.queue × (work cache.new.mind.queue < work cache.old.mind.queue)) (λ answer. Closes (D.state cache.old.main).holds answer (parts cache.old.mind (D.state cache.old.main).holds (D.faults cache.old.main)) (parts cache.new.mind (D.state cache.new.main).holds (D.faults cache.new.main)) cache.old.mind.queue cache.new.mind.queue)) }
    ensures refused { OnErr result (Reading (D.state cache.old.main).holds (parts cache.old.mind (D.state cache.old.main).holds (D.faults cache.old.main)) (parts cache.new.mind (D.state cache.new.main).holds (D.faults cache.new.main)) cache.old.mind.queue cache.new.mind.queue) }
    ensures yields { Yields (parts cache.old.mind (D.state cache.old.main).holds (D.faults cache.old.main)) (parts cache.new.mind (D.state cache.new.main).holds (D.faults cache.new.main)) }
    ensures rest { AtRest (parts cache.new.mind [] 0) }
    ensures size { D.size cache.new.main ≡ D.size cache.old.main }
    ensures state { D.state cache.new.main ≡ D.state cache.old.main }
    ensures cause { IfErr result (Caused ⊥ (λ b. ⊥) (Rose (D.faults cache.old.main) (D.faults cache.new.main)) ⊥) }
    ensures later { D.faults cache.old.main ≤ D.faults cache.new.main }
{
    let answer = close_step(cache)?;
    Ok(ended(answer))
}

/// Closes one block, passes one over, or gives a removal up, where all is at rest (`AtRest`); so it is then, and another such turn may
/// follow. Blocks of pointers are read for it, and nothing is written. Where it fails nothing is closed, and the next turn goes on.
pub fn close_turn<D: Disk>(cache: &mut Cache<D>) -> Result<Unlinked, BlockError>
    requires rest { AtRest (parts cache.old.mind [] 0) }
    ensures closes { IfOk result (λ answer. Closes (D.state cache.old.main).holds answer (parts cache.old.mind (D.state cache.old.main).holds (D.faults cache.old.main)) (parts cache.new.mind (D.state cache.new.main).holds (D.faults cache.new.main)) cache.old.mind.queue cache.new.mind.queue) }
    ensures refused { OnErr result (Reading (D.state cache.old.main).holds (parts cache.old.mind (D.state cache.old.main).holds (D.faults cache.old.main)) (parts cache.new.mind (D.state cache.new.main).holds (D.faults cache.new.main)) cache.old.mind.queue cache.new.mind.queue) }
    ensures yields { Yields (parts cache.old.mind (D.state cache.old.main).holds (D.faults cache.old.main)) (parts cache.new.mind (D.state cache.new.main).holds (D.faults cache.new.main)) }
    ensures rest { AtRest (parts cache.new.mind [] 0) }
    ensures size { D.size cache.new.main ≡ D.size cache.old.main }
    ensures state { D.state cache.new.main ≡ D.state cache.old.main }
    ensures cause { IfErr result (Caused ⊥ (λ b. ⊥) (Rose (D.faults cache.old.main) (D.faults cache.new.main)) ⊥) }
    ensures later { D.faults cache.old.main ≤ D.faults cache.new.main }
{
    loop {
        if let Some(answer) = close_more(cache)? {
            return Ok(answer);
        }
    }
}
