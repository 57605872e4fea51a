//! Blocks are brought into memory.
ghost use Rattle.std.specs.Prelude.{◌≡◌, ◌≢◌, ◌↔◌, ◌+◌, ◌<◌, ◌≤◌, ℕ, true, false, None, length, nat_eq, is_some, OnOk, OnErr, IfErr, IsTrue};
ghost use Rattle.std.specs.Bool.{OnTrue, OnFalse};
ghost use Rattle.std.specs.Map.{lookup};
ghost use Rattle.fo_base.specs.Cause.{Rose};
ghost use Rattle.fo_buffers.specs.Held.{held_at, cut, unlisted};
ghost use Rattle.fo_buffers.specs.of_ports.Causes.{Caused};
ghost use Rattle.fo_bring.specs.Holds.{Others, GoodIn, Loaded, Brought, Seen, Glanced, StaysClean};

use crate::copies::copy_clean;
use crate::good::is_good;
use fo_buffers::{BlockError, Buffers, Unread};
use fo_disk::{Disk, DiskFault};
use fo_image::Kind;
use std::alloc::Global;

// Whether a block is held with good bytes.
fn is_good_in(buffers: &Buffers, first: u32, count: u32, kind: Kind, at: u32) -> bool
    ensures { IsTrue result ↔ GoodIn first count kind (held_at buffers.now at) }
{
    match buffers.bytes(at) {
        Some(bytes) => is_good(first, count, kind, bytes),
        None => false,
    }
}

// Keeps a block where its bytes are good, and forgets it where they are not.
fn keep_good(buffers: &mut Buffers, first: u32, count: u32, kind: Kind, at: u32) -> bool
    ensures kept { OnTrue result ((buffers.new ≡ buffers.old) × GoodIn first count kind (held_at buffers.old at)) }
    ensures gone { OnFalse result (buffers.new ≡ cut (unlisted buffers.old at) at) }
{
    if is_good_in(buffers, first, count, kind, at) {
        return true;
    }
    buffers.forget(at);
    false
}

// Holds a block: a clean one, else one that is read from the device.
fn load_in<D: Disk>(main: &mut D, buffers: &mut Buffers, at: u32) -> Result<(), BlockError>
    requires room { 0 < buffers.old.room }
    requires block { at < D.size main.old }
    requires none { held_at buffers.old at ≡ None }
    ensures ok { OnOk result (Loaded (D.state main.old).holds at buffers.old buffers.new) }
    ensures err { OnErr result (buffers.new ≡ buffers.old) }
    ensures size { D.size main.new ≡ D.size main.old }
    ensures state { D.state main.new ≡ D.state main.old }
    ensures cause { IfErr result (Caused ⊥ (λ b. ⊥) (Rose (D.faults main.old) (D.faults main.new)) ⊥) }
    ensures later { D.faults main.old ≤ D.faults main.new }
{
    if buffers.recall(at) {
        return Ok(());
    }
    let Ok(()) = buffers.load(main, at) else {
        return Err(BlockError::Fault(DiskFault::Read));
    };
    Ok(())
}

/// Brings a block into memory that is not held, into reserved room: a clean one, else one that is read from the device. It is pinned
/// then. One whose bytes are not good is damaged.
pub fn bring<D: Disk>(
    main: &mut D,
    buffers: &mut Buffers,
    first: u32,
    count: u32,
    kind: Kind,
    at: u32,
) -> Result<(), BlockError>
    requires room { 0 < buffers.old.room }
    requires block { at < D.size main.old }
    requires none { held_at buffers.old at ≡ None }
    ensures ok { OnOk result (Brought first count kind (D.state main.old).holds at buffers.old buffers.new) }
    ensures err { OnErr result (held_at buffers.new at ≡ None) }
    ensures others { Others at buffers.old buffers.new }
    ensures clean { StaysClean (D.state main.old).holds buffers.old buffers.new }
    ensures size { D.size main.new ≡ D.size main.old }
    ensures state { D.state main.new ≡ D.state main.old }
    ensures cause { IfErr result (Caused ⊥ (λ b. b ≡ at) (Rose (D.faults main.old) (D.faults main.new)) ⊥) }
    ensures later { D.faults main.old ≤ D.faults main.new }
{
    if let Err(e) = load_in(main, buffers, at) {
        return Err(e);
    }
    if !keep_good(buffers, first, count, kind, at) {
        return Err(BlockError::Damaged(at));
    }
    Ok(())
}

// Whether a block is clean.
fn is_clean(buffers: &Buffers, at: u32) -> bool
    ensures { result ≡ is_some (lookup (nat_eq at) buffers.now.clean) }
{
    buffers.clean_bytes(at).is_some()
}

// Makes a block clean that isn't held, where it is not.
fn see<D: Disk>(
    alloc: Global,
    main: &mut D,
    buffers: &mut Buffers,
    at: u32,
) -> Result<(), BlockError>
    requires block { at < D.size main.old }
    requires none { held_at buffers.old at ≡ None }
    ensures ok { OnOk result (Seen (D.state main.old).holds at buffers.old buffers.new) }
    ensures clean { StaysClean (D.state main.old).holds buffers.old buffers.new }
    ensures err { OnErr result (buffers.new ≡ buffers.old) }
    ensures size { D.size main.new ≡ D.size main.old }
    ensures state { D.state main.new ≡ D.state main.old }
    ensures cause { IfErr result (Caused ⊥ (λ b. ⊥) (Rose (D.faults main.old) (D.faults main.new)) ⊥) }
    ensures later { D.faults main.old ≤ D.faults main.new }
{
    if is_clean(buffers, at) {
        return Ok(());
    }
    match buffers.look(alloc, main, at) {
        Ok(()) => Ok(()),
        Err(Unread::Failed) => Err(BlockError::Fault(DiskFault::Read)),
        Err(Unread::Memory) => Err(BlockError::Memory),
    }
}

/// Copies out a block of this kind and rank that isn't held: a clean one, else one that is read from the device and is clean then. No
/// room is needed, and nothing is pinned. One whose bytes are not good or not of the format is damaged.
pub fn glance<D: Disk>(
    alloc: Global,
    main: &mut D,
    buffers: &mut Buffers,
    first: u32,
    count: u32,
    kind: Kind,
    rank: u32,
    at: u32,
    into: &mut [u8],
) -> Result<(), BlockError>
    requires length { length into.old ≡ 8192 }
    requires block { at < D.size main.old }
    requires none { held_at buffers.old at ≡ None }
    ensures ok { OnOk result (Glanced first count kind rank (D.state main.old).holds at buffers.old buffers.new into.new) }
    ensures nothing { OnErr result (into.new ≡ into.old) }
    ensures held { (q : ℕ) → held_at buffers.new q ≡ held_at buffers.old q }
    ensures clean { StaysClean (D.state main.old).holds buffers.old buffers.new }
    ensures room { buffers.new.room ≡ buffers.old.room }
    ensures size { D.size main.new ≡ D.size main.old }
    ensures state { D.state main.new ≡ D.state main.old }
    ensures cause { IfErr result (Caused ⊥ (λ b. b ≡ at) (Rose (D.faults main.old) (D.faults main.new)) ⊥) }
    ensures later { D.faults main.old ≤ D.faults main.new }
{
    if let Err(e) = see(alloc, main, buffers, at) {
        return Err(e);
    }
    if !copy_clean(buffers, first, count, kind, rank, at, into) {
        buffers.forget(at);
        return Err(BlockError::Damaged(at));
    }
    Ok(())
}
