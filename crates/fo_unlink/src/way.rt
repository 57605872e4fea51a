//! The way down in a removal.
ghost use Rattle.std.specs.Prelude.{◌≡◌, ◌<◌, [], ◌∷◌, length, drop, slice_get};

use std::marker::Model;

/// A pointer block on the way: its address, its level, and how many of its slots are done.
#[derive(Clone, Copy, Debug)]
pub struct Frame {
    pub at: u32,
    pub level: u8,
    pub done: u16,
}

const UNUSED: Frame = Frame {
    at: 0,
    level: 0,
    done: 0,
};

/// The pointer blocks on the way, the innermost first: a stack that grows from the last place to the first.
#[derive(Drop)]
pub struct Way {
    stack: [Frame; 5],
    top: usize,
}

impl Model for Way {
    ghost use Rattle.std.specs.Prelude.{List, drop, ◌≤◌};
    ghost use Rattle.fo_unlink.specs.declared.way.Frame.{Frame};

    ghost Value = { List Frame };

    ghost view = { λ a. drop a.top a.stack };

    ghost invariant = { λ a. a.top ≤ 5 };
}

impl Way {
    pub fn new() -> Way
        ensures { result ≡ [] }
    {
        Way {
            stack: [UNUSED; 5],
            top: 5,
        }
    }

    pub fn innermost(&self) -> Option<Frame>
        ensures { result ≡ slice_get self.now 0 }
    {
        self.stack.get(self.top).copied()
    }

    pub fn push(&mut self, f: Frame)
        requires { length self.old < 5 }
        ensures { self.new ≡ f ∷ self.old }
    {
        self.top -= 1;
        self.stack[self.top] = f;
    }

    pub fn pop(&mut self)
        requires { 0 < length self.old }
        ensures { self.new ≡ drop 1 self.old }
    {
        self.top += 1;
    }
}
