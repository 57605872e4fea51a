//! One page of bytes.
ghost use Rattle.std.specs.Prelude.{◌≡◌, ℕ, ◌+◌, ◌≤◌, ◌<◌, List, ◌++◌, length, take, drop, slice_index, vec_len, IfOk};

use std::alloc::{AllocError, Global};
use std::marker::Model;

/// How many bytes a page has.
pub(crate) const PAGE: usize = 4096;

/// A page of `PAGE` bytes.
#[derive(Debug, Drop)]
pub(crate) struct Page {
    bytes: Vec<u8>,
}

impl Model for Page {
    ghost Value = { List ℕ };

    ghost view = { λ p. p.bytes.items };

    ghost invariant = { λ p. vec_len p.bytes ≡ 4096 };
}

impl Clone for Page {
    ghost is_clone = { λ page copy. copy ≡ page };

    fn clone(&self) -> Result<Page, AllocError> {
        Ok(Page {
            bytes: self.bytes.clone()?,
        })
    }
}

impl Page {
    /// A page of zero bytes.
    pub(crate) fn zeroed(alloc: Global) -> Result<Page, AllocError>
        ensures { IfOk result (λ page. (i : ℕ) → slice_index page i ≡ 0) }
    {
        Ok(Page {
            bytes: zeros(alloc, PAGE)?,
        })
    }

    /// The bytes.
    pub(crate) fn as_slice(&self) -> &[u8]
        ensures value { result.now ≡ self.now }
        ensures len { length result.now ≡ 4096 }
    {
        self.bytes.as_slice()
    }

    /// Puts these bytes in the place of those from `at` on.
    pub(crate) fn write(&mut self, at: usize, bytes: &[u8])
        requires { at + length bytes.now ≤ 4096 }
        ensures len { length self.old ≡ 4096 }
        ensures after { self.new ≡ take at self.old ++ bytes.now ++ drop (at + length bytes.now) self.old }
    {
        self.bytes[at..at + bytes.len()].copy_from_slice(bytes);
    }

    /// Puts zero bytes in the place of those from `at` on.
    pub(crate) fn clear_from(&mut self, at: usize)
        requires { at ≤ 4096 }
        ensures below { (i : ℕ) → i < at → slice_index self.new i ≡ slice_index self.old i }
        ensures past { (i : ℕ) → at ≤ i → slice_index self.new i ≡ 0 }
    {
        clear(&mut self.bytes, at);
    }
}

/// Puts zero bytes in the place of those from `at` on.
fn clear(bytes: &mut [u8], at: usize)
    requires { at ≤ length bytes.old }
    ensures below { (i : ℕ) → i < at → slice_index bytes.new i ≡ slice_index bytes.old i }
    ensures past { (i : ℕ) → at ≤ i → slice_index bytes.new i ≡ 0 }
{
    bytes[at..].fill(0);
}

/// So many zero bytes.
fn zeros(alloc: Global, len: usize) -> Result<Vec<u8>, AllocError>
    ensures len { IfOk result (λ v. vec_len v ≡ len) }
    ensures zero { IfOk result (λ v. (i : ℕ) → slice_index v.items i ≡ 0) }
{
    vec![in alloc; 0; len]
}
