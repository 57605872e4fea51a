//! Calls that look, on the files and then on the plain files.
use crate::call::Call;
use crate::text::name;
use crate::verdict::{Pairs, Spot, Verdict, apart, differs, judge};
use fo_base::{Bytes, Memory};
use fo_world::FileOps;
use std::alloc::Global;

/// What is told of a file.
fn info<F: FileOps, G: FileOps>(
    alloc: Global,
    files: &mut F,
    plain: &mut G,
    spot: &Spot,
    pairs: &Pairs,
) -> Result<Verdict, Memory>
    requires files { F.serves files.old spot.now.files.view }
    requires plain { G.serves plain.old spot.now.plain.view }
{
    let told = files.info(&spot.files);
    if let Some(verdict) = apart(&told) {
        return Ok(verdict);
    }
    judge(alloc, &told, &plain.info(&spot.plain), pairs)
}

/// What is told of the file with a name.
fn find<F: FileOps, G: FileOps>(
    alloc: Global,
    files: &mut F,
    plain: &mut G,
    spot: &Spot,
    pairs: &Pairs,
    name: &Bytes,
) -> Result<Verdict, Memory>
    requires files { F.serves files.old spot.now.files.view }
    requires plain { G.serves plain.old spot.now.plain.view }
{
    let told = files.find(&spot.files, name.as_slice());
    if let Some(verdict) = apart(&told) {
        return Ok(verdict);
    }
    judge(
        alloc,
        &told,
        &plain.find(&spot.plain, name.as_slice()),
        pairs,
    )
}

/// What is told of the directory above.
fn parent<F: FileOps, G: FileOps>(
    alloc: Global,
    files: &mut F,
    plain: &mut G,
    spot: &Spot,
    pairs: &Pairs,
) -> Result<Verdict, Memory>
    requires files { F.serves files.old spot.now.files.view }
    requires plain { G.serves plain.old spot.now.plain.view }
{
    let told = files.parent(&spot.files);
    if let Some(verdict) = apart(&told) {
        return Ok(verdict);
    }
    judge(alloc, &told, &plain.parent(&spot.plain), pairs)
}

/// What is told of the next name.
fn next<F: FileOps, G: FileOps>(
    alloc: Global,
    files: &mut F,
    plain: &mut G,
    spot: &Spot,
    pairs: &Pairs,
    after: Option<&Bytes>,
) -> Result<Verdict, Memory>
    requires files { F.serves files.old spot.now.files.view }
    requires plain { G.serves plain.old spot.now.plain.view }
{
    let told = files.next_name(&spot.files, after);
    if let Some(verdict) = apart(&told) {
        return Ok(verdict);
    }
    judge(alloc, &told, &plain.next_name(&spot.plain, after), pairs)
}

/// The bytes of a file.
fn read<F: FileOps, G: FileOps>(
    alloc: Global,
    files: &mut F,
    plain: &mut G,
    spot: &Spot,
    offset: u64,
    count: u16,
) -> Result<Verdict, Memory>
    requires files { F.serves files.old spot.now.files.view }
    requires plain { G.serves plain.old spot.now.plain.view }
{
    let mut into = vec![in alloc; 0; usize::from(count)]?;
    let told = files.read(&spot.files, offset, &mut into);
    if let Some(verdict) = apart(&told) {
        return Ok(verdict);
    }
    let mut other = vec![in alloc; 0; usize::from(count)]?;
    let plain = plain.read(&spot.plain, offset, &mut other);
    if told.is_ok() && plain.is_ok() && into.as_slice() != other.as_slice() {
        return differs(alloc, &first(&into, &other), &first(&other, &into));
    }
    judge(alloc, &told, &plain, &Vec::new(alloc))
}

/// The first place at which bytes differ from others, and the byte there.
fn first(bytes: &[u8], other: &[u8]) -> (usize, u8) {
    for at in 0..bytes.len().min(other.len()) {
        if bytes[at] != other[at] {
            return (at, bytes[at]);
        }
    }
    (bytes.len(), 0)
}

/// A call that looks.
pub fn look<F: FileOps, G: FileOps>(
    alloc: Global,
    files: &mut F,
    plain: &mut G,
    spot: &Spot,
    pairs: &Pairs,
    call: Call,
) -> Result<Verdict, Memory>
    requires files { F.serves files.old spot.now.files.view }
    requires plain { G.serves plain.old spot.now.plain.view }
{
    match call {
        Call::Find(number) => find(alloc, files, plain, spot, pairs, &name(alloc, number)?),
        Call::Parent => parent(alloc, files, plain, spot, pairs),
        Call::Next(None) => next(alloc, files, plain, spot, pairs, None),
        Call::Next(Some(number)) => {
            let after = name(alloc, number)?;
            next(alloc, files, plain, spot, pairs, Some(&after))
        }
        Call::Read { offset, count } => read(alloc, files, plain, spot, offset, count),
        _ => info(alloc, files, plain, spot, pairs),
    }
}
