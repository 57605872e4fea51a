//! What the entries of a pair name.
ghost use Rattle.std.specs.Prelude.{◌≡◌, cond, not, ◌&&◌, None};
ghost use Rattle.fo_check_names.specs.Pairs.{is_folder, is_source, records_of};

use fo_image::Entry;

/// Whether the second entry of a pair names a source that no directory has.
pub fn is_alone(first: &Entry, second: &Entry) -> bool
    ensures { result ≡ is_source second.now && not (is_folder first.now) }
{
    is_source(second) && !is_folder(first)
}

/// Whether names lead to a leaf of entries, and to a pair in it.
pub fn is_both(named: bool, found: bool) -> bool
    ensures { result ≡ named && found }
{
    named && found
}

/// Whether an entry names a source of entries.
pub fn is_folder(entry: &Entry) -> bool
    ensures { result ≡ is_folder entry.now }
{
    entry.active && entry.dir
}

/// Whether an entry names a source of bytes or records.
pub fn is_source(entry: &Entry) -> bool
    ensures { result ≡ is_source entry.now }
{
    entry.active && !entry.dir
}

/// The second entry of a pair, where the pair is a directory.
pub fn records_of(first: &Entry, second: &Entry) -> Option<Entry>
    ensures { result ≡ records_of first.now second.now }
{
    if is_folder(first) && is_source(second) {
        Some(*second)
    } else {
        None
    }
}

/// A leaf, unless nothing is to be noted of it.
pub fn leaf_unless(skip: bool, leaf: Option<u32>) -> Option<u32>
    ensures { result ≡ cond skip None leaf }
{
    if skip {
        return None;
    }
    leaf
}
