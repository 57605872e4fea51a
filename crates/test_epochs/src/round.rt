//! Names that are made, removed and renamed in one epoch, in an order at random.
ghost use Rattle.std.specs.Prelude.{◌≡◌, ◌≤◌, ℕ};
ghost use Rattle.test_names.specs.Root.{IsInMemory, NoneComes};

use crate::expected::{Model, Order, Standing};
use crate::looks::look;
use fo_ports::{BlockError, Blocks};
use std::alloc::Global;
use std::fmt;
use test_names::{make, name, remove, rename};

/// What was done, how many names were listed last, how many looks or steps were wrong, and how many steps were refused for want of memory.
#[derive(Clone, Copy, Debug)]
pub struct Counts {
    pub made: u32,
    pub removed: u32,
    pub renamed: u32,
    pub listed: u32,
    pub wrong: u32,
    pub refused: u32,
}

/// What is done in a row: each name that is not there is made, one of each three is removed, each one that is there gets a longer name.
#[derive(Clone, Copy, Debug)]
pub enum Phase {
    Make(u16),
    Remove(u32),
    Rename(u16),
}

/// When the whole directory is looked at in a phase: at its end alone, or after each hundredth step, too.
#[derive(Clone, Copy, Debug, PartialEq, Eq)]
pub enum Looks {
    AtEnds,
    AtHundredths,
}

impl Looks {
    /// Whether a look is due after so many steps.
    fn are_due(self, steps: u64) -> bool {
        match self {
            Looks::AtEnds => false,
            Looks::AtHundredths => steps % 100 == 0,
        }
    }
}

impl fmt::Display for Counts {
    fn fmt<W: fmt::Write>(&self, f: &mut fmt::Formatter<W>) -> fmt::Result {
        write!(
            f,
            "made {} removed {} renamed {} listed {} wrong {}",
            self.made, self.removed, self.renamed, self.listed, self.wrong
        )
    }
}

impl Counts {
    /// Nothing was done.
    pub fn none() -> Counts {
        Counts {
            made: 0,
            removed: 0,
            renamed: 0,
            listed: 0,
            wrong: 0,
            refused: 0,
        }
    }

    /// Something was wrong.
    pub fn is_wrong(&mut self) {
        self.wrong = self.wrong.saturating_add(1);
    }

    /// A step was refused for want of memory.
    fn is_refused(&mut self) {
        self.refused = self.refused.saturating_add(1);
    }

    /// A step was granted.
    fn count(&mut self, phase: Phase) {
        match phase {
            Phase::Make(_) => self.made = self.made.saturating_add(1),
            Phase::Remove(_) => self.removed = self.removed.saturating_add(1),
            Phase::Rename(_) => self.renamed = self.renamed.saturating_add(1),
        }
    }

    /// How many steps were granted.
    fn steps(&self) -> u64 {
        u64::from(self.made) + u64::from(self.removed) + u64::from(self.renamed)
    }
}

impl Phase {
    /// How the name of a number comes to stand that stands so. None where it stays.
    fn outcome(self, number: u32, standing: Standing) -> Option<Standing> {
        match (self, standing) {
            (Phase::Make(letters), Standing::Absent(_)) => Some(Standing::Present(letters)),
            (Phase::Remove(third), Standing::Present(letters)) if number % 3 == third => {
                Some(Standing::Absent(letters))
            }
            (Phase::Rename(letters), Standing::Present(_)) => Some(Standing::Present(letters)),
            _ => None,
        }
    }
}

/// The name of a number that stands so comes to stand otherwise. Whether the step was granted.
fn turn<B: Blocks>(
    alloc: Global,
    on: &mut B,
    number: u32,
    standing: Standing,
    outcome: Standing,
) -> Result<bool, BlockError>
    requires memory { (b : B) → IsInMemory (B.state b) }
    requires none { NoneComes (B.state on.old) }
    ensures none { NoneComes (B.state on.new) }
    ensures keeps { B.keeps on.old on.new }
{
    let (old, was) = standing.parts();
    let (new, is) = outcome.parts();
    let before = name(alloc, number, old)?;
    if !is {
        return remove(alloc, on, &before);
    }
    let after = name(alloc, number, new)?;
    if was {
        rename(alloc, on, &before, after)
    } else {
        make(alloc, on, after, number)
    }
}

/// How many names the directory has, where they are as they should be. A look that wants memory is made once more.
fn seen<B: Blocks>(alloc: Global, on: &mut B, model: &Model) -> Option<u32>
    requires memory { (b : B) → IsInMemory (B.state b) }
    requires none { NoneComes (B.state on.old) }
    ensures none { NoneComes (B.state on.new) }
    ensures keeps { B.keeps on.old on.new }
{
    match look(alloc, on, model) {
        Ok(names) => return names,
        Err(BlockError::Memory) => {}
        Err(_) => return None,
    }
    match look(alloc, on, model) {
        Ok(names) => names,
        Err(_) => None,
    }
}

/// A look at all of the directory as it is now.
pub fn look_at<B: Blocks>(alloc: Global, on: &mut B, model: &Model, counts: &mut Counts)
    requires memory { (b : B) → IsInMemory (B.state b) }
    requires none { NoneComes (B.state on.old) }
    ensures none { NoneComes (B.state on.new) }
    ensures keeps { B.keeps on.old on.new }
{
    match seen(alloc, on, model) {
        Some(names) => counts.listed = names,
        None => counts.is_wrong(),
    }
}

/// A step that wanted memory is made once more, where the directory is as before it. Whether it is granted then, or was made already, as the
/// directory shows.
fn again<B: Blocks>(
    alloc: Global,
    on: &mut B,
    model: &mut Model,
    number: u32,
    standing: Standing,
    outcome: Standing,
) -> bool
    requires memory { (b : B) → IsInMemory (B.state b) }
    requires none { NoneComes (B.state on.old) }
    ensures none { NoneComes (B.state on.new) }
    ensures keeps { B.keeps on.old on.new }
{
    if seen(alloc, on, model).is_none() {
        model.set(number, outcome);
        return seen(alloc, on, model).is_some();
    }
    matches!(turn(alloc, on, number, standing, outcome), Ok(true))
}

/// Makes a step, once more where it wanted memory. Whether it is granted.
fn granted<B: Blocks>(
    alloc: Global,
    on: &mut B,
    model: &mut Model,
    number: u32,
    outcome: Standing,
    counts: &mut Counts,
) -> bool
    requires memory { (b : B) → IsInMemory (B.state b) }
    requires none { NoneComes (B.state on.old) }
    ensures none { NoneComes (B.state on.new) }
    ensures keeps { B.keeps on.old on.new }
{
    let standing = model.of(number);
    match turn(alloc, on, number, standing, outcome) {
        Ok(made) => return made,
        Err(BlockError::Memory) => counts.is_refused(),
        Err(_) => return false,
    }
    again(alloc, on, model, number, standing, outcome)
}

/// A step for one name, and a look at the whole directory where one is due.
fn step<B: Blocks>(
    alloc: Global,
    on: &mut B,
    model: &mut Model,
    phase: Phase,
    looks: Looks,
    number: u32,
    counts: &mut Counts,
)
    requires memory { (b : B) → IsInMemory (B.state b) }
    requires none { NoneComes (B.state on.old) }
    ensures none { NoneComes (B.state on.new) }
    ensures keeps { B.keeps on.old on.new }
{
    let Some(outcome) = phase.outcome(number, model.of(number)) else {
        return;
    };
    if granted(alloc, on, model, number, outcome, counts) {
        model.set(number, outcome);
        counts.count(phase);
    } else {
        counts.is_wrong();
    }
    if looks.are_due(counts.steps()) {
        look_at(alloc, on, model, counts);
    }
}

/// A phase, for all names in an order at random.
fn in_phase<B: Blocks>(
    alloc: Global,
    on: &mut B,
    model: &mut Model,
    phase: Phase,
    looks: Looks,
    seed: u32,
    counts: &mut Counts,
)
    requires memory { (b : B) → IsInMemory (B.state b) }
    requires none { NoneComes (B.state on.old) }
    ensures none { NoneComes (B.state on.new) }
    ensures keeps { B.keeps on.old on.new }
{
    let mut order = Order::new(seed);
    'numbers: for _ in 0..4096 {
        let number = order.next();
        if number < model.many() {
            step(alloc, on, model, phase, looks, number, counts);
        }
    }
}

/// All names are made, every third is removed, and the others get longer names. At the end of each of these there is a look at the whole
/// directory.
pub fn round<B: Blocks>(
    alloc: Global,
    on: &mut B,
    model: &mut Model,
    phases: [Phase; 3],
    looks: Looks,
    counts: &mut Counts,
)
    requires memory { (b : B) → IsInMemory (B.state b) }
    requires none { NoneComes (B.state on.old) }
    ensures none { NoneComes (B.state on.new) }
    ensures keeps { B.keeps on.old on.new }
{
    in_phase(alloc, on, model, phases[0], looks, 17, counts);
    look_at(alloc, on, model, counts);
    in_phase(alloc, on, model, phases[1], looks, 1234, counts);
    look_at(alloc, on, model, counts);
    in_phase(alloc, on, model, phases[2], looks, 99, counts);
    look_at(alloc, on, model, counts);
}
