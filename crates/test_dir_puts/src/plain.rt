//! A plain directory beside those over blocks.
use crate::records::record;
use fo_base::Bytes;
use fo_dir_plain::{PlainDirectory, Refusal};
use fo_image::Record;
use std::alloc::Global;
use std::test::Fail;

/// Whether the record `b` gets pair 0, and then the name `c`, so that pair 1 is the next and `b` is gone.
fn is_renamed(alloc: Global, named: Record, other: Bytes) -> bool {
    let mut dir = PlainDirectory::new(alloc);
    dir.add(named) == Ok(0)
        && dir.change(b"b", other) == Ok(())
        && dir.lookup(b"c").is_some()
        && dir.free_pair() == Some(1)
        && dir.remove(b"b") == Err(Refusal::Absent)
}

/// With ample memory a record is added, and gets another name.
#[test]
fn ample(rt: HostRuntime) -> Result<(), Fail> {
    let named = record(rt.alloc())?;
    let other = Bytes::copy_of(rt.alloc(), b"c")?;
    assert!(rt; is_renamed(rt.alloc(), named, other));
    Ok(())
}
