//! The traits of sources, sinks and clocks.
ghost use Rattle.std.specs.Prelude.{◌≡◌, ℕ, ◌^◌, ◌<◌, List, length, IfSome};
ghost use Rattle.std.specs.declared.option.Option.{Option};
ghost use Rattle.fo_base.specs.Cause.{HasCause};
ghost use Rattle.fo_links.specs.Clocks.{Readings, IsRead};
ghost use Rattle.fo_links.specs.Links.{Taken, Put};

use thiserror::Error;

/// A call of a source or a sink failed.
#[derive(Clone, Copy, Debug, PartialEq, Eq, Error)]
#[error("the call failed")]
pub struct Failed;

/// Where bytes come from.
pub trait Source {
    /// The bytes that are left, where the source tells them.
    ghost left: { Self → Option (List ℕ) };

    /// The bytes given so far, where the source tells them.
    ghost given: { Self → Option (List ℕ) };

    /// How many bytes it can still give.
    ghost room: { Self → ℕ };

    /// How often it failed.
    ghost faults: { Self → ℕ };

    /// Moves the next bytes to the front of the piece, and says how many: none only at the end, or
    /// where the piece is empty. What lies behind them stays. A call that fails takes none, and
    /// leaves the piece as it was.
    fn take(&mut self, into: &mut [u8]) -> Result<usize, Failed>
        ensures taken { Taken (left self.old) (left self.new) (given self.old) (given self.new)
            (room self.old) (room self.new) into.old into.new result }
        ensures cause { HasCause (faults self.old) (faults self.new) result };

    /// It can give fewer than 2^63 bytes.
    ghost room_is_small: { (source : Self) → room source < 2 ^ 63 };

    /// A source that tells what is left can give just that.
    ghost room_is_left: { (source : Self) → IfSome (left source) (λ rest. room source ≡ length rest) };
}

/// Where bytes go.
pub trait Sink {
    /// The bytes that it holds, where the sink tells them.
    ghost held: { Self → Option (List ℕ) };

    /// How often it failed.
    ghost faults: { Self → ℕ };

    /// Puts the bytes at the end, or where it fails some of them from the front.
    fn put(&mut self, bytes: &[u8]) -> Result<(), Failed>
        ensures put { Put (held self.old) (held self.new) bytes.now result }
        ensures cause { HasCause (faults self.old) (faults self.new) result };
}

/// Tells the time.
pub trait Clock {
    /// What its readings will say, one after another, where the clock tells that.
    ghost coming: { Self → Readings };

    /// The next reading: the time, in seconds since 1970-01-01 UTC.
    fn now(&mut self) -> u32
        ensures { IsRead (coming self.old) (coming self.new) result };
}
