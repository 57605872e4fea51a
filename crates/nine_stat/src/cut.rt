//! Records cut to what a reply may hold.
ghost use Rattle.std.specs.Prelude.{◌≡◌, ◌++◌, ◌<◌, length, IfOk, OnOk, OnErr};
ghost use Rattle.std.specs.List.{flat_map, AllByRecursion};
ghost use Rattle.nine_stat.specs.Stat.{spelling, IsSpellable};
ghost use Rattle.nine_stat.specs.Cut.{records, IsLongest};
ghost use Rattle.nine_fields.specs.Front.{IsFront};

use crate::error::CutError;
use crate::stat::Stat;
use crate::write::{stat_len, write_stat};
use fo_base::Memory;

/// How many whole records stand within so many bytes.
fn fitting(list: &[Stat], count: u32) -> usize
    requires { AllByRecursion IsSpellable list.now }
    ensures { IsLongest list.now count result }
{
    let mut left = count as usize;
    for (taken, stat) in list.iter().enumerate() {
        let size = stat_len(stat);
        if left < size {
            return taken;
        }
        left -= size;
    }
    list.len()
}

/// Adds records, one after the other; where memory runs out, some of them.
fn put_records(list: &[Stat], out: &mut Vec<u8>) -> Result<(), Memory>
    requires { AllByRecursion IsSpellable list.now }
    ensures ok { OnOk result (out.new.items ≡ out.old.items ++ flat_map spelling list.now) }
    ensures err { OnErr result (IsFront out.old.items out.new.items) }
{
    for stat in list {
        write_stat(stat, out)?;
    }
    Ok(())
}

/// Adds as many whole records of the list, from its first on, as stand within `count` bytes, and gives their
/// number. An `Err` adds none.
pub fn cut_dir(list: &[Stat], count: u32, out: &mut Vec<u8>) -> Result<usize, CutError>
    requires { AllByRecursion IsSpellable list.now }
    // The longest part that stands within the count is added.
    ensures taken { IfOk result (λ n. IsLongest list.now count n) }
    ensures written { IfOk result (λ n. out.new.items ≡ out.old.items ++ records list.now n) }
    // A list with records gives one at least, or the first does not stand within the count.
    ensures some { IfOk result (λ n. 0 < length list.now → 0 < n) }
    ensures small { result ≡ Err CutError.TooSmall → (0 < length list.now) × (count < length (records list.now 1)) }
    ensures err { OnErr result (out.new.items ≡ out.old.items) }
{
    let taken = fitting(list, count);
    if taken == 0 && !list.is_empty() {
        return Err(CutError::TooSmall);
    }
    let start = out.len();
    match put_records(&list[..taken], out) {
        Ok(()) => Ok(taken),
        Err(_) => {
            out.truncate(start);
            Err(CutError::Memory)
        }
    }
}
