//! Trails of file numbers.
ghost use Rattle.std.specs.Prelude.{◌≡◌, ℕ, List, [], ◌∷◌, ◌++◌, IfOk};

use std::alloc::{AllocError, Global};
use std::marker::Model;

/// A list of file numbers: that of a file below the root of a view, that of a file below that one, and so on. The root has the empty trail.
#[derive(Debug, Drop)]
pub struct Trail {
    numbers: Vec<u32>,
}

impl Model for Trail {
    ghost Value = { List ℕ };

    ghost view = { λ t. t.numbers.items };
}

impl Trail {
    ghost use Rattle.std.specs.Prelude.{◌≡◌, ◌∷◌, ◌++◌, [], IfOk};
    ghost use Rattle.fo_world.specs.Tree.{front};

    /// The trail with these numbers.
    pub fn new(numbers: Vec<u32>) -> Trail
        ensures { result ≡ numbers.items }
    {
        Trail { numbers }
    }

    /// The trail of a root.
    pub fn root(alloc: Global) -> Trail
        ensures { result ≡ [] }
    {
        Trail {
            numbers: Vec::new(alloc),
        }
    }

    /// The numbers.
    pub fn as_slice(&self) -> &[u32]
        ensures { result.now ≡ self.now }
    {
        self.numbers.as_slice()
    }

    /// A copy of this trail.
    pub fn copy(&self, alloc: Global) -> Result<Trail, AllocError>
        ensures { IfOk result (λ t. t ≡ self.now) }
    {
        Ok(Trail {
            numbers: Vec::from_slice(alloc, self.numbers.as_slice())?,
        })
    }

    /// The trail of a file directly below.
    pub fn below(&self, alloc: Global, number: u32) -> Result<Trail, AllocError>
        ensures { IfOk result (λ t. t ≡ self.now ++ number ∷ []) }
    {
        let mut numbers = Vec::from_slice(alloc, self.numbers.as_slice())?;
        numbers.push(number)?;
        Ok(Trail { numbers })
    }

    /// The trail without its last number.
    pub fn front(&self, alloc: Global) -> Result<Trail, AllocError>
        ensures { IfOk result (λ t. t ≡ front self.now) }
    {
        let numbers = self.numbers.as_slice();
        let len = numbers.len().saturating_sub(1);
        Ok(Trail {
            numbers: Vec::from_slice(alloc, &numbers[..len])?,
        })
    }
}
