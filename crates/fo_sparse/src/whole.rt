//! The same by lists of which every byte is kept, each change in a new list: a plain program to compare
//! with.
ghost use Rattle.std.specs.Prelude.{◌≡◌, ◌+◌, ◌^◌, ◌<◌, length, IfOk};
ghost use Rattle.fo_sparse.specs.Written.{written, resized};

use std::alloc::{AllocError, Global};

/// The list with these bytes in the place of those from the offset on.
pub fn write_whole(
    alloc: Global,
    list: &[u8],
    offset: usize,
    bytes: &[u8],
) -> Result<Vec<u8>, AllocError>
    requires { offset + length bytes.now < 2 ^ 64 }
    ensures { IfOk result (λ new. new.items ≡ written list.now offset bytes.now) }
{
    if bytes.is_empty() {
        return Vec::from_slice(alloc, list);
    }
    let end = offset + bytes.len();
    let mut new = resize_whole(alloc, list, offset)?;
    new.extend_from_slice(bytes)?;
    new.extend_from_slice(&list[end.min(list.len())..])?;
    Ok(new)
}

/// The list, cut to this length or filled with zero bytes up to it.
pub fn resize_whole(alloc: Global, list: &[u8], len: usize) -> Result<Vec<u8>, AllocError>
    ensures { IfOk result (λ new. new.items ≡ resized list.now len) }
{
    let mut new = Vec::from_slice(alloc, &list[..len.min(list.len())])?;
    new.resize(len, 0)?;
    Ok(new)
}
