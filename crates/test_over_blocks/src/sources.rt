//! Sources of bytes over blocks in memory.
ghost use Rattle.std.specs.Prelude.{IfOk};
ghost use Rattle.fo_image.specs.declared.types.Kind.TheVariants.{Data};
ghost use Rattle.fo_ports_source.specs.Source.{IsEmpty};

use fo_base::Memory;
use fo_image::{Kind, Pointer};
use fo_ports::{Blocks, Bytes};
use fo_ports_plain::PlainBlocks;
use fo_ports_source::PlainSource;
use std::alloc::Global;
use std::test::Fail;

/// An empty source of data of up to four leaves.
fn source(alloc: Global) -> Result<PlainSource, Memory>
    ensures { IfOk result (λ s. IsEmpty s.kind s.tag s.rank s.size s.leaves.items (Data 0) 40 2080 4) }
{
    PlainSource::new(alloc, Kind::Data(0), 40, 2080, 4)
}

/// A source takes memory once, and a write past the end fills with zeros.
#[test]
fn ample(rt: HostRuntime) -> Result<(), Fail> {
    let mut source = source(rt.alloc())?;
    let mut on = PlainBlocks::new(rt.alloc(), 20)?;
    on.reserve(15, 15, 0)?;
    source.prepare(&mut on, 8190, 5)?;
    source.write(&mut on, 8190, b"abcde");
    let mut into = [1; 8];
    assert_eq!(rt; source.read(&mut on, 8188, &mut into)?, 7);
    assert_eq!(rt; into, *b"\0\0abcde\x01");
    Ok(())
}

/// A missing leaf that is owned is a leaf of zeros, and the source ends with it.
#[test]
fn owned(rt: HostRuntime) -> Result<(), Fail> {
    let mut source = source(rt.alloc())?;
    let mut on = PlainBlocks::new(rt.alloc(), 40)?;
    on.reserve(40, 40, 0)?;
    assert_eq!(rt; source.leaf(&mut on, 1)?, None);
    source.prepare(&mut on, 8192, 8192)?;
    let at = source.own_leaf(&mut on, 1);
    assert_eq!(rt; source.leaf(&mut on, 1)?, Some(at));
    let entry = Bytes::<PlainBlocks>::entry(&source);
    assert_eq!(rt; (entry.size, entry.tag, entry.dir), (16384, 40, false));
    assert_eq!(rt; (entry.depth, entry.top), (1, Pointer::Nil));
    assert!(rt; source.trimmed(&on));
    Ok(())
}

/// A source that ends within a leaf and grows by a whole one has zeros behind its old end.
#[test]
fn grown(rt: HostRuntime) -> Result<(), Fail> {
    let mut source = source(rt.alloc())?;
    let mut on = PlainBlocks::new(rt.alloc(), 40)?;
    on.reserve(40, 40, 0)?;
    source.prepare(&mut on, 8187, 3)?;
    source.write(&mut on, 8187, b"abc");
    source.prepare(&mut on, 8192, 8192)?;
    source.own_leaf(&mut on, 1);
    let mut into = [1; 8];
    source.read(&mut on, 8187, &mut into)?;
    assert_eq!(rt; into, *b"abc\0\0\0\0\0");
    assert_eq!(rt; Bytes::<PlainBlocks>::len(&source), 16384);
    Ok(())
}
