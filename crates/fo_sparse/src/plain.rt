//! A list of bytes, kept sparsely.
ghost use Rattle.std.specs.Prelude.{◌≡◌, ℕ, ◌+◌, ◌-◌, ◌^◌, ◌≤◌, List, [], length, take, drop, min, IfOk, MatchResult};

use crate::page::PAGE;
use crate::pages::{Pages, copy_out, copy_pages, cut, keep_pages, put};
use std::alloc::{AllocError, Global};
use std::marker::Model;

/// A list of up to 2^47 bytes. It takes memory for the parts of it that were written, by pages of 4096
/// bytes, and none for the zero bytes between them.
#[derive(Debug, Drop)]
pub struct Plain {
    pages: Pages,
    len: u64,
    alloc: Global,
}

impl Model for Plain {
    ghost use Rattle.std.specs.Prelude.{ℕ, List};

    ghost Value = { List ℕ };

    ghost use Rattle.fo_sparse.specs.Pages.{bytes_of, IsSparse};

    ghost view = { λ plain. bytes_of plain.pages plain.len };

    ghost invariant = { λ plain. IsSparse plain.pages plain.len };
}

impl Plain {
    ghost use Rattle.fo_sparse.specs.Written.{written, resized};

    /// The empty list.
    pub fn new(alloc: Global) -> Plain
        ensures { result ≡ [] }
    {
        Plain {
            pages: Pages::new(alloc),
            len: 0,
            alloc,
        }
    }

    /// A copy of this list.
    pub fn copy(&self) -> Result<Plain, AllocError>
        ensures { IfOk result (λ copy. copy ≡ self.now) }
    {
        Ok(Plain {
            pages: copy_pages(&self.pages)?,
            len: self.len,
            alloc: self.alloc,
        })
    }

    /// The length.
    pub fn len(&self) -> u64
        ensures len { result ≡ length self.now }
        ensures small { result ≤ 2 ^ 47 }
    {
        self.len
    }

    /// Copies the bytes from the offset on to the front of the piece, as many as there are and fit, and
    /// says how many.
    pub fn read(&self, offset: u64, into: &mut [u8]) -> usize
        ensures within { result ≤ length into.old }
        ensures given { take result into.new ≡ take (length into.old) (drop offset self.now) }
        ensures behind { drop result into.new ≡ drop result into.old }
        ensures count { result ≡ min (length into.old) (length self.now - offset) }
    {
        let left = self.len.saturating_sub(offset);
        let count = (left as usize).min(into.len());
        copy_out(&self.pages, offset, &mut into[..count]);
        count
    }

    /// Puts the bytes in the place of those from the offset on. Where there is no memory nothing changes.
    pub fn write(&mut self, offset: u64, bytes: &[u8]) -> Result<(), AllocError>
        requires { offset + length bytes.now ≤ 2 ^ 47 }
        ensures { MatchResult result (λ _. self.new ≡ written self.old offset bytes.now) (λ _. self.new ≡ self.old) }
    {
        if bytes.is_empty() {
            return Ok(());
        }
        let end = offset + bytes.len() as u64;
        let page = PAGE as u64;
        match keep_pages(
            &mut self.pages,
            self.alloc,
            offset / page,
            end.div_ceil(page),
        ) {
            Ok(()) => {
                put(&mut self.pages, offset, bytes);
                self.len = self.len.max(end);
                Ok(())
            }
            Err(e) => {
                cut(&mut self.pages, self.len);
                Err(e)
            }
        }
    }

    /// Cuts the list to this length, or fills it with zero bytes up to it.
    pub fn set_len(&mut self, len: u64)
        requires { len ≤ 2 ^ 47 }
        ensures { self.new ≡ resized self.old len }
    {
        cut(&mut self.pages, len);
        self.len = len;
    }
}
