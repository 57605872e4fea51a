//! What leaves the tree of memory with a put is queued.
ghost use Rattle.std.specs.Prelude.{◌≡◌, ◌≢◌, ◌+◌, ◌<◌, ◌≤◌, ℕ, [], ◌++◌, length, Some, MatchOption};
ghost use Rattle.fo_image.specs.Format.{KindHolds};
ghost use Rattle.fo_buffers.specs.Held.{Held as Holding};
ghost use Rattle.fo_labels.specs.Region.{Region};
ghost use Rattle.fo_buffers.specs.of_crash.Images.{Image, target};
ghost use Rattle.fo_buffers.specs.of_ports.Blocks.{SlotFits, ends};
ghost use Rattle.fo_takeout.specs.Meeting.{change};
ghost use Rattle.fo_takeout.specs.declared.pair.Change.TheVariants.{Apart, Copied, Gained, Lost};
ghost use Rattle.fo_takeout.specs.Walking.{IsQueued, first_pair, removals_of};
ghost use Rattle.fo_taking.specs.Shown.{AreGood, IsHeldAs, IsMissing, Shows};
ghost use Rattle.fo_taking.specs.Taken.{Ends, Pushed, StepsIf, TakesOut};

use fo_buffers::Buffers;
use fo_image::Kind;
use fo_labels::Labels;
use fo_takeout::{Answer, Below, Change, Pair, Put, Walk};
use fo_unlink::Queue;

// The bytes of a block, where its label is of the kind that is wanted.
fn if_kind<'a>(is: Kind, wanted: Kind, bytes: &'a [u8]) -> Option<&'a [u8]>
    ensures { MatchOption result (is ≢ wanted) (λ b. (b.now ≡ bytes.now) × (is ≡ wanted)) }
{
    if is == wanted { Some(bytes) } else { None }
}

// The bytes of a block that is held, and whose label is of this kind.
fn held_as<'a>(buffers: &'a Buffers, labels: &Labels, x: &Below) -> Option<&'a [u8]>
    requires good { AreGood labels.now buffers.now }
    ensures { MatchOption result (IsMissing labels.now buffers.now x.now) (λ bytes. IsHeldAs labels.now buffers.now x.now bytes.now) }
{
    match buffers.bytes(x.at) {
        Some(bytes) => if_kind(labels.label(x.at).kind, x.kind, bytes),
        None => None,
    }
}

// One block came as a copy of the other.
fn step_copied(walk: &mut Walk, buffers: &Buffers, labels: &Labels, pair: &Pair) -> Option<Answer>
    requires first { first_pair walk.old ≡ Some pair.now }
    requires change { change pair.now ≡ Copied }
    requires good { AreGood labels.now buffers.now }
    ensures { StepsIf labels.now buffers.now walk.old walk.new result }
{
    match held_as(buffers, labels, &pair.old) {
        Some(old) => step_beside(walk, buffers, labels, pair, old),
        None => None,
    }
}

// The bytes of the block are at hand that has a copy.
fn step_beside(
    walk: &mut Walk,
    buffers: &Buffers,
    labels: &Labels,
    pair: &Pair,
    old: &[u8],
) -> Option<Answer>
    requires first { first_pair walk.old ≡ Some pair.now }
    requires change { change pair.now ≡ Copied }
    requires good { AreGood labels.now buffers.now }
    requires held { IsHeldAs labels.now buffers.now pair.now.old old.now }
    ensures { StepsIf labels.now buffers.now walk.old walk.new result }
{
    match held_as(buffers, labels, &pair.new) {
        Some(new) => Some(walk.step(old, new)),
        None => None,
    }
}

// The source lost a level.
fn step_lost(walk: &mut Walk, buffers: &Buffers, labels: &Labels, pair: &Pair) -> Option<Answer>
    requires first { first_pair walk.old ≡ Some pair.now }
    requires change { change pair.now ≡ Lost }
    requires good { AreGood labels.now buffers.now }
    ensures { StepsIf labels.now buffers.now walk.old walk.new result }
{
    match held_as(buffers, labels, &pair.old) {
        Some(old) => Some(walk.step(old, &[])),
        None => None,
    }
}

// The source grew.
fn step_gained(walk: &mut Walk, buffers: &Buffers, labels: &Labels, pair: &Pair) -> Option<Answer>
    requires first { first_pair walk.old ≡ Some pair.now }
    requires change { change pair.now ≡ Gained }
    requires good { AreGood labels.now buffers.now }
    ensures { StepsIf labels.now buffers.now walk.old walk.new result }
{
    match held_as(buffers, labels, &pair.new) {
        Some(new) => Some(walk.step(&[], new)),
        None => None,
    }
}

// The two blocks have nothing in common.
fn step_apart(walk: &mut Walk, pair: &Pair) -> Answer
    requires first { first_pair walk.old ≡ Some pair.now }
    requires change { change pair.now ≡ Apart }
    ensures { (region : Region) (held : Holding) → StepsIf region held walk.old walk.new (Some result) }
{
    let _pair = *pair;
    walk.step(&[], &[])
}

// How the pair is looked at, by what it is.
fn step_pair(walk: &mut Walk, buffers: &Buffers, labels: &Labels, pair: &Pair) -> Option<Answer>
    requires first { first_pair walk.old ≡ Some pair.now }
    requires good { AreGood labels.now buffers.now }
    ensures { StepsIf labels.now buffers.now walk.old walk.new result }
{
    match pair.change() {
        Change::Copied => step_copied(walk, buffers, labels, pair),
        Change::Lost => step_lost(walk, buffers, labels, pair),
        Change::Gained => step_gained(walk, buffers, labels, pair),
        Change::Apart => Some(step_apart(walk, pair)),
    }
}

// Takes a step, where the blocks are held of which it needs the bytes.
fn take_step(walk: &mut Walk, buffers: &Buffers, labels: &Labels) -> Option<Answer>
    requires good { AreGood labels.now buffers.now }
    ensures { StepsIf labels.now buffers.now walk.old walk.new result }
{
    match walk.first() {
        Some(pair) => step_pair(walk, buffers, labels, &pair),
        None => None,
    }
}

// Queues what a step gives, if anything, and says how many removals that are.
fn push(queue: &mut Queue, answer: &Answer) -> u32
    requires queued { IsQueued answer.now }
    requires room { length (removals_of answer.now) ≤ queue.old.room }
    ensures queued { queue.new.removals ≡ queue.old.removals ++ removals_of answer.now }
    ensures count { result ≡ length (removals_of answer.now) }
    ensures pushed { Pushed result queue.old queue.new }
{
    if let Answer::Queues(removal) = answer {
        queue.push(*removal);
        return 1;
    }
    0
}

// Queues what the steps of a walk give, while the blocks that they need are held: at most so many removals.
fn take_out(walk: &mut Walk, queue: &mut Queue, buffers: &Buffers, labels: &Labels, budget: u32)
    requires good { AreGood labels.now buffers.now }
    requires room { budget ≤ queue.old.room }
    ensures pushed { (n : ℕ) × (n ≤ budget) × Pushed n queue.old queue.new }
    ensures ends { (now : Image) → Shows now labels.now buffers.now → Ends now labels.now buffers.now walk.old walk.new queue.old.removals queue.new.removals budget }
{
    let mut left = budget;
    while 0 < left {
        let Some(answer) = take_step(walk, buffers, labels) else {
            return;
        };
        left -= push(queue, &answer);
    }
}

/// Queues what leaves the tree with a put into a block there: at most so many removals.
pub fn take_put(
    walk: &mut Walk,
    queue: &mut Queue,
    buffers: &Buffers,
    labels: &Labels,
    epoch: u32,
    put: &Put,
    budget: u32,
)
    requires good { AreGood labels.now buffers.now }
    requires over { walk.old.pairs ≡ [] }
    requires kind { KindHolds put.now.kind }
    requires old { SlotFits put.now.kind put.now.i put.now.old }
    requires new { SlotFits put.now.kind put.now.i put.now.new }
    requires some { ends (target put.now.old) (target put.now.new) ≤ budget }
    requires room { budget ≤ queue.old.room }
    ensures over { walk.new.pairs ≡ [] }
    ensures pushed { (n : ℕ) × (n ≤ budget) × Pushed n queue.old queue.new }
    ensures takes { (now : Image) → Shows now labels.now buffers.now → TakesOut now labels.now buffers.now walk.old walk.new put.now.at epoch put.now.kind put.now.old put.now.new queue.old.removals queue.new.removals budget }
{
    let answer = walk.begin(epoch, put);
    let first = push(queue, &answer);
    take_out(walk, queue, buffers, labels, budget - first);
    walk.stop();
}
