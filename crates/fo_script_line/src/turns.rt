//! The turns of one line.
ghost use Rattle.std.specs.Prelude.{◌≡◌, IfSome};
ghost use Rattle.fo_world.specs.Answers.{NotFewer};
ghost use Rattle.fo_script_line.specs.Says.{MaySay};
ghost use Rattle.fo_script_line.specs.Turns.{after_flush, after_unlink, after_flushing, after_unlinking, IsPlain, TakesTurn, TakesTurns};

use crate::answer::Answer;
use crate::number::fault_number;
use fo_events::{Flushed, Turner, Unlinked};
use fo_lines::{Flushed as FlushWord, Unlinked as UnlinkWord};
use fo_world::FileError;

/// The most turns that a line takes.
const MOST_TURNS: u64 = 4611686018427387904;

/// Which turn a line takes next.
#[derive(Clone, Copy, Debug, PartialEq, Eq)]
pub enum Stage {
    /// The flushing turn of `f`.
    Flush,
    /// The unlinking turn of `u`.
    Unlink,
    /// A flushing turn of `F`.
    Flushing,
    /// An unlinking turn of `F`.
    Unlinking,
}

/// What comes after a turn.
#[derive(Drop)]
pub enum Next {
    Turn(Stage),
    Says(Answer),
}

fn after_flush(turn: Result<Flushed, FileError>) -> Next
    ensures is { result ≡ after_flush turn }
    ensures plain { IsPlain result }
{
    match turn {
        Ok(Flushed::Wrote(_)) => Next::Says(Answer::Flushed(FlushWord::Wrote)),
        Ok(Flushed::Synced) => Next::Says(Answer::Flushed(FlushWord::Synced)),
        Ok(Flushed::Cleared) => Next::Turn(Stage::Flush),
        Ok(Flushed::Idle) => Next::Says(Answer::Flushed(FlushWord::Idle)),
        Err(e) => Next::Says(Answer::Flushed(FlushWord::Fault(fault_number(&e)))),
    }
}

fn after_unlink(turn: Result<Unlinked, FileError>) -> Next
    ensures is { result ≡ after_unlink turn }
    ensures plain { IsPlain result }
{
    match turn {
        Ok(Unlinked::Closed(_)) => Next::Says(Answer::Unlinked(UnlinkWord::Closed)),
        Ok(Unlinked::Passed(_)) => Next::Turn(Stage::Unlink),
        Ok(Unlinked::GivenUp) => Next::Turn(Stage::Unlink),
        Ok(Unlinked::Waits) => Next::Says(Answer::Unlinked(UnlinkWord::Waits)),
        Ok(Unlinked::Empty) => Next::Says(Answer::Unlinked(UnlinkWord::Empty)),
        Err(e) => Next::Says(Answer::Unlinked(UnlinkWord::Fault(fault_number(&e)))),
    }
}

fn after_flushing(turn: Result<Flushed, FileError>) -> Next
    ensures is { result ≡ after_flushing turn }
    ensures plain { IsPlain result }
{
    match turn {
        Ok(Flushed::Idle) => Next::Turn(Stage::Unlinking),
        Ok(_) => Next::Turn(Stage::Flushing),
        Err(e) => Next::Says(Answer::FlushedAll(Some(fault_number(&e)))),
    }
}

fn after_unlinking(turn: Result<Unlinked, FileError>) -> Next
    ensures is { result ≡ after_unlinking turn }
    ensures plain { IsPlain result }
{
    match turn {
        Ok(Unlinked::Waits) => Next::Turn(Stage::Flushing),
        Ok(Unlinked::Empty) => Next::Says(Answer::FlushedAll(None)),
        Ok(_) => Next::Turn(Stage::Unlinking),
        Err(e) => Next::Says(Answer::FlushedAll(Some(fault_number(&e)))),
    }
}

/// Takes one turn.
fn take_turn<T: Turner>(stage: Stage, on: &mut T) -> Next
    ensures takes { TakesTurn T.goes stage on.old on.new result }
    ensures plain { IsPlain result }
    ensures later { NotFewer (T.faults on.old) (T.faults on.new) }
{
    match stage {
        Stage::Flush => after_flush(on.flush()),
        Stage::Unlink => after_unlink(on.unlink()),
        Stage::Flushing => after_flushing(on.flush()),
        Stage::Unlinking => after_unlinking(on.unlink()),
    }
}

/// Takes turns until one leads to an answer; none where there were as many turns as a line may take.
pub fn take_turns<T: Turner>(first: Stage, on: &mut T) -> Option<Answer>
    ensures takes { TakesTurns T.goes first on.old on.new result }
    ensures fits { IfSome result MaySay }
    ensures later { NotFewer (T.faults on.old) (T.faults on.new) }
{
    let mut stage = first;
    'turns: for _ in 0..MOST_TURNS {
        match take_turn(stage, on) {
            Next::Turn(next) => stage = next,
            Next::Says(answer) => return Some(answer),
        }
    }
    None
}
