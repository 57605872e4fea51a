//! The lowest rule that is broken.
ghost use Rattle.std.specs.Prelude.{◌≡◌};
ghost use Rattle.fo_check_tree.specs.Lower.{lower};

/// A rule that is broken, and a block at which it is broken.
#[derive(Clone, Copy, Debug, PartialEq, Eq)]
pub struct Broken {
    pub rule: u8,
    pub block: u32,
}

/// The lower of what was noted and a rule that is broken at this block: of one rule the block that was noted first.
pub(crate) fn lower(noted: Option<Broken>, rule: u8, block: u32) -> Option<Broken>
    ensures { result ≡ lower noted rule block }
{
    match noted {
        Some(old) if old.rule <= rule => noted,
        _ => Some(Broken { rule, block }),
    }
}
