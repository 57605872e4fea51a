//! The laws. Each function does nothing: its contract is the law, so that the law is proved with the crate.
ghost use Rattle.fo_cells_fresh.specs.Formatted.{FormattedIsWhole};
ghost use Rattle.fo_cells_fresh.specs.Fresh.{AloneOpens, AloneIsWhole, SomeIsWhole};
ghost use Rattle.fo_cells_fresh.specs.Several.{KeptIsWhole, MadeIsWhole, SomeIsRooted};

/// A cache opens over a quiet device that has a root with nothing below it, and keeps the whole.
pub fn alone_is_whole()
    ensures opens { AloneOpens }
    ensures whole { AloneIsWhole }
{}

/// So it does over the device that was just formatted.
pub fn formatted_is_whole()
    ensures { FormattedIsWhole }
{}

/// Some cache keeps the whole, over a device that tells what it holds: what the invariant says is not true of nothing alone.
pub fn some_is_whole()
    ensures { SomeIsWhole }
{}

/// So does one with several tops: block 1 and the root of a kept snapshot, and then a block that was given out beside them. And these three are
/// a list of tops as `Rooted` has it.
pub fn several_are_whole()
    ensures kept { KeptIsWhole }
    ensures made { MadeIsWhole }
    ensures rooted { SomeIsRooted }
{}
