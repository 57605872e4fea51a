//! A cache is opened.
ghost use Rattle.std.specs.Prelude.{◌≡◌, ◌⊎◌, ◌↔◌, ◌<◌, ◌≤◌, ◌^◌, ℕ, [], true, false, length, IsTrue, IfOk, IfErr, MatchResult};
ghost use Rattle.fo_disk.specs.Disk.{IsSettled};
ghost use Rattle.fo_image.specs.Usable.{is_usable};
ghost use Rattle.fo_labels.specs.Region.{IsDataBlock};
ghost use Rattle.fo_image.specs.Format.{SpellsSuper};
ghost use Rattle.fo_mind.specs.MindParts.{parts};
ghost use Rattle.fo_mind.specs.Opened.{opened};
ghost use Rattle.fo_sound.specs.Sizes.{IsMainSize};
ghost use Rattle.fo_opening.specs.declared.error.Why.TheVariants.{Memory as NoMemory, Root as NoRoot};
ghost use Rattle.fo_mind.specs.Parts.{label_at};
ghost use Rattle.fo_opening.specs.Opens.{HasHeader, HasSuper, IsTable, Opens, Stands};
ghost use Rattle.fo_opening.specs.Refuses.{Blames, Refuses};

use crate::error::{Refused, Why};
use crate::labels::read_labels;
use crate::reads::{First, count, look_at_header, read_first};
use fo_cache::Cache;
use fo_disk::Disk;
use fo_image::is_usable;
use fo_labels::Labels;
use fo_mind::Mind;
use std::alloc::Global;

// Whether a data block may be given out.
fn may_be_given(labels: &Labels, low: u32, at: u32) -> bool
    requires { IsDataBlock labels.now at }
    ensures { IsTrue result ↔ (is_usable low (label_at labels.now at) ≡ true) }
{
    is_usable(&labels.label(at), low)
}

// Makes a cache's memory over labels and a super block that were read.
fn make(alloc: Global, count: u32, first: First, labels: Labels) -> Result<Mind, Why>
    requires table { IsTable count labels }
    requires few { (64 ≤ count) × (count ≤ 2 ^ 20) }
    requires spelled { SpellsSuper first.one first.block }
    requires stands { Stands count first.one }
    ensures made { IfOk result (λ m. (parts m [] 0 ≡ opened labels first.one first.block) × (is_usable first.one.low (label_at labels first.one.active) ≡ false)) }
    ensures refuses { IfErr result (λ e. (e ≡ NoMemory) ⊎ ((e ≡ NoRoot) × (is_usable first.one.low (label_at labels first.one.active) ≡ true))) }
{
    if may_be_given(&labels, first.one.low, first.one.active) {
        return Err(Why::Root);
    }
    let First { one, block } = first;
    let mut labels = labels;
    labels.follow(one.low);
    match Mind::new(alloc, labels, one, block) {
        Ok(mind) => Ok(mind),
        Err(_) => Err(Why::Memory),
    }
}

// Reads the label table, after the super block.
fn begin<D: Disk>(alloc: Global, main: &mut D, count: u32, first: First) -> Result<Mind, Why>
    requires size { D.size main.old ≡ count }
    requires few { IsMainSize count }
    requires header { HasHeader (D.state main.old).holds count }
    requires one { HasSuper (D.state main.old).holds count first.one first.block }
    ensures opens { IfOk result (λ m. Opens count (D.state main.old).holds (parts m [] 0)) }
    ensures refuses { IfErr result (Refuses count (D.state main.old).holds) }
    ensures size { D.size main.new ≡ D.size main.old }
    ensures state { D.state main.new ≡ D.state main.old }
    ensures blames { IfErr result (Blames (D.faults main.old) (D.faults main.new)) }
    ensures later { D.faults main.old ≤ D.faults main.new }
{
    match read_labels(alloc, main, count) {
        Ok(labels) => make(alloc, count, first, labels),
        Err(e) => Err(e),
    }
}

// Reads what a cache begins with.
fn learn<D: Disk>(alloc: Global, main: &mut D) -> Result<Mind, Why>
    ensures opens { IfOk result (λ m. Opens (D.size main.new) (D.state main.old).holds (parts m [] 0)) }
    ensures refuses { IfErr result (Refuses (D.size main.new) (D.state main.old).holds) }
    ensures fixed { 0 < D.size main.old → D.size main.new ≡ D.size main.old }
    ensures state { D.state main.new ≡ D.state main.old }
    ensures blames { IfErr result (Blames (D.faults main.old) (D.faults main.new)) }
    ensures later { D.faults main.old ≤ D.faults main.new }
{
    let count = match count(main) {
        Ok(count) => count,
        Err(e) => return Err(e),
    };
    if let Err(e) = look_at_header(main, count) {
        return Err(e);
    }
    let first = match read_first(alloc, main, count) {
        Ok(first) => first,
        Err(e) => return Err(e),
    };
    begin(alloc, main, count, first)
}

/// Opens a cache over a device of which each block has one version, as far as it tells. The device is given back where that is refused.
/// Nothing is written.
pub fn open<D: Disk>(alloc: Global, main: D) -> Result<Cache<D>, Refused<D>>
    requires { (b : ℕ) → b < length (D.state main).holds → IsSettled (D.state main).holds b }
    ensures opens { IfOk result (λ c. Opens (D.size c.main) (D.state main).holds (parts c.mind [] 0)) }
    ensures refuses { IfErr result (λ r. Refuses (D.size r.main) (D.state main).holds r.why) }
    ensures fixed { 0 < D.size main → MatchResult result (λ c. D.size c.main ≡ D.size main) (λ r. D.size r.main ≡ D.size main) }
    ensures state { MatchResult result (λ c. D.state c.main ≡ D.state main) (λ r. D.state r.main ≡ D.state main) }
    ensures blames { IfErr result (λ r. Blames (D.faults main) (D.faults r.main) r.why) }
    ensures later { MatchResult result (λ c. D.faults main ≤ D.faults c.main) (λ r. D.faults main ≤ D.faults r.main) }
{
    let mut main = main;
    match learn(alloc, &mut main) {
        Ok(mind) => Ok(Cache::open(main, mind)),
        Err(why) => Err(Refused { main, why }),
    }
}
