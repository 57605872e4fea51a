//! Calls at random on a directory over blocks and on a plain one.
ghost use Rattle.std.specs.Prelude.{◌≡◌, ℕ};
ghost use Rattle.test_names.specs.Root.{IsInMemory, NoneComes};

use crate::calls::{Answer, call_both, look_after, look_up};
use crate::draw::{Call, Drawn, Kind, NAMES, Random};
use fo_base::Memory;
use fo_dir_plain::PlainDirectory;
use fo_ports::{BlockError, Blocks};
use std::alloc::Global;
use test_names::{begin_root, device};

/// How many names were added, removed and renamed, how many calls were refused, how many only looked, and how many looks and answers
/// differed.
#[derive(Clone, Copy, Debug)]
pub struct Tally {
    pub added: u32,
    pub removed: u32,
    pub renamed: u32,
    pub refused: u32,
    pub looks: u32,
    pub differ: u32,
}

impl Tally {
    /// Nothing was called.
    fn none() -> Tally {
        Tally {
            added: 0,
            removed: 0,
            renamed: 0,
            refused: 0,
            looks: 0,
            differ: 0,
        }
    }

    /// A call was granted.
    fn grant(&mut self, kind: Kind) {
        match kind {
            Kind::Add => self.added = self.added.saturating_add(1),
            Kind::Remove => self.removed = self.removed.saturating_add(1),
            _ => self.renamed = self.renamed.saturating_add(1),
        }
    }

    /// Both answered this.
    fn count(&mut self, kind: Kind, answer: Answer) {
        match answer {
            Answer::Granted => self.grant(kind),
            Answer::Seen => self.looks = self.looks.saturating_add(1),
            _ => self.refused = self.refused.saturating_add(1),
        }
    }

    /// They differ, or the blocks gave no answer.
    fn differs(&mut self) {
        self.differ = self.differ.saturating_add(1);
    }
}

/// A call on both, after which both names of the call are looked up. What both answer, or None where they differ.
fn checked<B: Blocks>(
    alloc: Global,
    on: &mut B,
    plain: &mut PlainDirectory,
    call: Call,
    number: u32,
) -> Result<Option<Answer>, BlockError>
    requires memory { (b : B) → IsInMemory (B.state b) }
    requires none { NoneComes (B.state on.old) }
    ensures none { NoneComes (B.state on.new) }
    ensures keeps { B.keeps on.old on.new }
{
    let answer = call_both(alloc, on, plain, call, number)?;
    if !look_up(alloc, on, plain, call.name)? {
        return Ok(None);
    }
    if !look_up(alloc, on, plain, call.other)? {
        return Ok(None);
    }
    Ok(answer)
}

/// A call on both, which is counted.
fn step<B: Blocks>(
    alloc: Global,
    on: &mut B,
    plain: &mut PlainDirectory,
    call: Call,
    number: u32,
    tally: &mut Tally,
)
    requires memory { (b : B) → IsInMemory (B.state b) }
    requires none { NoneComes (B.state on.old) }
    ensures none { NoneComes (B.state on.new) }
    ensures keeps { B.keeps on.old on.new }
{
    match checked(alloc, on, plain, call, number) {
        Ok(Some(answer)) => tally.count(call.kind, answer),
        _ => tally.differs(),
    }
}

/// So many calls; a file that is made has the call's place as its number.
fn calls<B: Blocks>(
    alloc: Global,
    on: &mut B,
    plain: &mut PlainDirectory,
    random: &mut Random,
    many: u32,
    tally: &mut Tally,
)
    requires memory { (b : B) → IsInMemory (B.state b) }
    requires none { NoneComes (B.state on.old) }
    ensures none { NoneComes (B.state on.new) }
    ensures keeps { B.keeps on.old on.new }
{
    'calls: for number in 0..many {
        step(alloc, on, plain, random.call(), number, tally);
    }
}

/// Whether a name has the same record in both, and the same one comes after it.
fn is_listed<B: Blocks>(
    alloc: Global,
    on: &mut B,
    plain: &PlainDirectory,
    drawn: Drawn,
) -> Result<bool, BlockError>
    requires memory { (b : B) → IsInMemory (B.state b) }
    requires none { NoneComes (B.state on.old) }
    ensures none { NoneComes (B.state on.new) }
    ensures keeps { B.keeps on.old on.new }
{
    if !look_up(alloc, on, plain, drawn)? {
        return Ok(false);
    }
    look_after(alloc, on, plain, drawn)
}

/// All names are looked up in both, and the ones after them.
fn all<B: Blocks>(alloc: Global, on: &mut B, plain: &PlainDirectory, tally: &mut Tally)
    requires memory { (b : B) → IsInMemory (B.state b) }
    requires none { NoneComes (B.state on.old) }
    ensures none { NoneComes (B.state on.new) }
    ensures keeps { B.keeps on.old on.new }
{
    'names: for place in 0..NAMES {
        match is_listed(alloc, on, plain, Drawn::at(place)) {
            Ok(true) => {}
            _ => tally.differs(),
        }
    }
}

/// An empty root directory begins.
fn begins<B: Blocks>(on: &mut B, tally: &mut Tally)
    requires memory { (b : B) → IsInMemory (B.state b) }
    requires none { NoneComes (B.state on.old) }
    ensures none { NoneComes (B.state on.new) }
    ensures keeps { B.keeps on.old on.new }
{
    match begin_root(on) {
        Ok(true) => {}
        _ => tally.differs(),
    }
}

/// So many calls on both, empty at first, at the end of which all names are compared.
fn game<B: Blocks>(alloc: Global, on: &mut B, random: &mut Random, many: u32) -> Tally
    requires memory { (b : B) → IsInMemory (B.state b) }
    requires none { NoneComes (B.state on.old) }
{
    let mut tally = Tally::none();
    let mut plain = PlainDirectory::new(alloc);
    begins(on, &mut tally);
    calls(alloc, on, &mut plain, random, many, &mut tally);
    all(alloc, on, &plain, &mut tally);
    tally
}

/// So many calls, drawn from a seed, on a directory over a new device and on a plain one.
pub fn compare(alloc: Global, seed: u64, many: u32) -> Result<Tally, Memory> {
    let mut on = device(alloc)?;
    let mut random = Random::new(seed);
    Ok(game(alloc, &mut on, &mut random, many))
}
