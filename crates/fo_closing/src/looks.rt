//! The content of a pointer block is looked at.
ghost use Rattle.std.specs.Prelude.{◌≡◌, ◌<◌, ◌≤◌, ℕ, true, false, None, length, nat_eq, is_some, MatchOption, OnOk, OnErr, IfOk, IfErr};
ghost use Rattle.std.specs.Map.{lookup};
ghost use Rattle.fo_base.specs.Cause.{Rose};
ghost use Rattle.fo_buffers.specs.Held.{held_at};
ghost use Rattle.fo_ports.specs.Blocks.{AreZeros};
ghost use Rattle.fo_ports.specs.Causes.{Caused};
ghost use Rattle.fo_bring.specs.Blocks.{Good};
ghost use Rattle.fo_bring.specs.Holds.{Seen, StaysClean};
ghost use Rattle.fo_mind.specs.MindParts.{parts};
ghost use Rattle.fo_closing.specs.Known.{CopiesGood, IsBad, IsFault, IsKnown, IsSeen, IsShown, IsUnseen, IsWanted, Looked, seen_in};

use crate::belongs::{at_level, is_part};
use fo_base::BLOCK;
use fo_bring::is_good;
use fo_buffers::{Buffers, Unread};
use fo_disk::{Disk, DiskFault};
use fo_image::Kind;
use fo_mind::Mind;
use fo_ports::BlockError;
use fo_unlink::Removal;
use std::alloc::Global;

// Whether a block is held or clean.
fn is_seen(buffers: &Buffers, at: u32) -> bool
    ensures { result ≡ is_some (seen_in (held_at buffers.now at) (lookup (nat_eq at) buffers.now.clean)) }
{
    buffers.is_held(at) || buffers.clean_bytes(at).is_some()
}

// Makes a block clean that is neither held nor clean.
fn see<D: Disk>(
    alloc: Global,
    main: &mut D,
    buffers: &mut Buffers,
    at: u32,
) -> Result<(), BlockError>
    requires block { at < D.size main.old }
    requires none { held_at buffers.old at ≡ None }
    requires unclean { is_some (lookup (nat_eq at) buffers.old.clean) ≡ false }
    ensures ok { OnOk result (Seen (D.state main.old).holds at buffers.old buffers.new) }
    ensures held { (q : ℕ) → held_at buffers.new q ≡ held_at buffers.old q }
    ensures room { buffers.new.room ≡ buffers.old.room }
    ensures clean { StaysClean (D.state main.old).holds buffers.old buffers.new }
    ensures err { OnErr result (buffers.new ≡ buffers.old) }
    ensures size { D.size main.new ≡ D.size main.old }
    ensures state { D.state main.new ≡ D.state main.old }
    ensures cause { IfErr result (Caused ⊥ (λ b. ⊥) (Rose (D.faults main.old) (D.faults main.new)) ⊥) }
    ensures later { D.faults main.old ≤ D.faults main.new }
{
    match buffers.look(alloc, main, at) {
        Ok(()) => Ok(()),
        Err(Unread::Failed) => Err(BlockError::Fault(DiskFault::Read)),
        Err(Unread::Memory) => Err(BlockError::Memory),
    }
}

// A block is held or clean from now on. Nothing is held for it.
fn see_in<D: Disk>(main: &mut D, mind: &mut Mind, at: u32) -> Result<(), BlockError>
    requires block { at < D.size main.old }
    ensures seen { OnOk result (IsSeen (D.state main.old).holds at mind.old.buffers mind.new.buffers) }
    ensures unseen { OnErr result (IsUnseen mind.old.buffers at) }
    ensures same { OnErr result (mind.new.buffers ≡ mind.old.buffers) }
    ensures looked { Looked (D.state main.old).holds (parts mind.old (D.state main.old).holds (D.faults main.old)) (parts mind.new (D.state main.new).holds (D.faults main.new)) }
    ensures queue { mind.new.queue ≡ mind.old.queue }
    ensures size { D.size main.new ≡ D.size main.old }
    ensures state { D.state main.new ≡ D.state main.old }
    ensures cause { IfErr result (Caused ⊥ (λ b. ⊥) (Rose (D.faults main.old) (D.faults main.new)) ⊥) }
{
    if is_seen(&mind.buffers, at) {
        return Ok(());
    }
    see(mind.alloc, main, &mut mind.buffers, at)
}

// Copies bytes where they are good for this kind.
fn copy_good(bytes: &[u8], first: u32, count: u32, kind: Kind, into: &mut [u8]) -> bool
    requires length { length into.old ≡ 8192 }
    requires long { length bytes.now ≡ 8192 }
    ensures good { CopiesGood first count kind bytes.now result into.new }
    ensures same { result ≡ false → into.new ≡ into.old }
    ensures len { length into.new ≡ 8192 }
{
    if !is_good(first, count, kind, bytes) {
        return false;
    }
    into.copy_from_slice(bytes);
    true
}

// Copies what is held of a block, else what is clean of it, where it is good for this kind.
fn copy_seen(
    buffers: &Buffers,
    first: u32,
    count: u32,
    kind: Kind,
    at: u32,
    into: &mut [u8],
) -> bool
    requires length { length into.old ≡ 8192 }
    ensures seen { MatchOption (seen_in (held_at buffers.now at) (lookup (nat_eq at) buffers.now.clean)) (result ≡ false) (λ bytes. CopiesGood first count kind bytes result into.new) }
    ensures same { result ≡ false → into.new ≡ into.old }
    ensures len { length into.new ≡ 8192 }
{
    if let Some(bytes) = buffers.bytes(at) {
        return copy_good(bytes, first, count, kind, into);
    }
    match buffers.clean_bytes(at) {
        Some(bytes) => copy_good(bytes, first, count, kind, into),
        None => false,
    }
}

// Copies the content of a block out that is neither held nor clean, where it is good for this kind. Nothing is held of it, and no memory
// is wanted.
fn show_read<D: Disk>(
    main: &mut D,
    mind: &Mind,
    kind: Kind,
    at: u32,
    into: &mut [u8],
) -> Result<bool, BlockError>
    requires block { at < D.size main.old }
    requires length { length into.old ≡ 8192 }
    requires unseen { IsUnseen mind.now.buffers at }
    ensures good { IfOk result (λ b. b ≡ true → IsShown (D.state main.old).holds mind.now.first mind.now.count mind.now.buffers kind at into.new) }
    ensures bad { IfOk result (λ b. b ≡ false → IsBad (D.state main.old).holds mind.now.first mind.now.count mind.now.buffers kind at × (into.new ≡ into.old)) }
    ensures len { length into.new ≡ 8192 }
    ensures size { D.size main.new ≡ D.size main.old }
    ensures state { D.state main.new ≡ D.state main.old }
    ensures failed { IfErr result IsFault }
    ensures cause { IfErr result (Caused ⊥ (λ b. ⊥) (Rose (D.faults main.old) (D.faults main.new)) ⊥) }
    ensures later { D.faults main.old ≤ D.faults main.new }
{
    let mut bytes = [0; BLOCK];
    let Ok(()) = main.read(at, &mut bytes) else {
        return Err(BlockError::Fault(DiskFault::Read));
    };
    Ok(copy_good(&bytes, mind.first, mind.count, kind, into))
}

// Copies the content of a block out, where it is good for this kind.
fn show<D: Disk>(
    main: &mut D,
    mind: &mut Mind,
    kind: Kind,
    at: u32,
    into: &mut [u8],
) -> Result<bool, BlockError>
    requires block { at < D.size main.old }
    requires length { length into.old ≡ 8192 }
    ensures good { IfOk result (λ b. b ≡ true → IsShown (D.state main.old).holds mind.old.first mind.old.count mind.old.buffers kind at into.new) }
    ensures bad { IfOk result (λ b. b ≡ false → IsBad (D.state main.old).holds mind.old.first mind.old.count mind.old.buffers kind at × (into.new ≡ into.old)) }
    ensures len { length into.new ≡ 8192 }
    ensures looked { Looked (D.state main.old).holds (parts mind.old (D.state main.old).holds (D.faults main.old)) (parts mind.new (D.state main.new).holds (D.faults main.new)) }
    ensures queue { mind.new.queue ≡ mind.old.queue }
    ensures size { D.size main.new ≡ D.size main.old }
    ensures state { D.state main.new ≡ D.state main.old }
    ensures failed { IfErr result IsFault }
    ensures cause { IfErr result (Caused ⊥ (λ b. ⊥) (Rose (D.faults main.old) (D.faults main.new)) ⊥) }
{
    match see_in(main, mind, at) {
        Ok(()) => {}
        Err(BlockError::Memory) => return show_read(main, mind, kind, at, into),
        Err(e) => return Err(e),
    }
    let shown = copy_seen(&mind.buffers, mind.first, mind.count, kind, at, into);
    Ok(shown)
}

// Copies the content of a block of a removal out. A block of zeros stays so where the label says that it is none of this removal, or its
// bytes are damaged.
fn show_part<D: Disk>(
    main: &mut D,
    mind: &mut Mind,
    r: &Removal,
    kind: Kind,
    at: u32,
    into: &mut [u8],
) -> Result<(), BlockError>
    requires within { mind.old.count ≤ D.size main.old }
    requires length { length into.old ≡ 8192 }
    requires zeros { AreZeros into.old }
    ensures known { OnOk result (IsKnown (D.state main.old).holds mind.old.labels mind.old.buffers r.now kind at into.new) }
    ensures len { length into.new ≡ 8192 }
    ensures looked { Looked (D.state main.old).holds (parts mind.old (D.state main.old).holds (D.faults main.old)) (parts mind.new (D.state main.new).holds (D.faults main.new)) }
    ensures queue { mind.new.queue ≡ mind.old.queue }
    ensures size { D.size main.new ≡ D.size main.old }
    ensures state { D.state main.new ≡ D.state main.old }
    ensures failed { IfErr result IsFault }
    ensures cause { IfErr result (Caused ⊥ (λ b. ⊥) (Rose (D.faults main.old) (D.faults main.new)) ⊥) }
{
    if !is_part(mind, r, kind, at) {
        return Ok(());
    }
    if let Err(e) = show(main, mind, kind, at, into) {
        return Err(e);
    }
    Ok(())
}

/// Copies the content of the block out that is wanted for the first removal, if any is.
pub fn show_wanted<D: Disk>(
    main: &mut D,
    mind: &mut Mind,
    r: &Removal,
    into: &mut [u8],
) -> Result<(), BlockError>
    requires within { mind.old.count ≤ D.size main.old }
    requires length { length into.old ≡ 8192 }
    requires zeros { AreZeros into.old }
    ensures known { OnOk result (IsWanted (D.state main.old).holds mind.old.labels mind.old.buffers mind.old.queue r.now into.new) }
    ensures len { length into.new ≡ 8192 }
    ensures looked { Looked (D.state main.old).holds (parts mind.old (D.state main.old).holds (D.faults main.old)) (parts mind.new (D.state main.new).holds (D.faults main.new)) }
    ensures queue { mind.new.queue ≡ mind.old.queue }
    ensures size { D.size main.new ≡ D.size main.old }
    ensures state { D.state main.new ≡ D.state main.old }
    ensures failed { IfErr result IsFault }
    ensures cause { IfErr result (Caused ⊥ (λ b. ⊥) (Rose (D.faults main.old) (D.faults main.new)) ⊥) }
{
    let Some(at) = mind.queue.wanted() else {
        return Ok(());
    };
    let Some(level) = mind.queue.level() else {
        return Ok(());
    };
    show_part(main, mind, r, at_level(r.kind, level), at, into)
}
