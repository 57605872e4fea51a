//! Calls on a directory over blocks and on a plain one, whose answers are compared.
ghost use Rattle.std.specs.Prelude.{◌≡◌, ℕ};
ghost use Rattle.fo_image.specs.Record.{IsTextWithin};
ghost use Rattle.test_names.specs.Root.{IsInMemory, NoneComes};

use crate::draw::{Call, Drawn, Kind};
use fo_base::Bytes as Text;
use fo_dir_plain::{PlainDirectory, Refusal};
use fo_dir_read::Found;
use fo_image::Record;
use fo_ports::{BlockError, Blocks};
use std::alloc::Global;
use test_names::{found, free, make, next_record, record, remove, rename};

/// What a call answers. `Seen` is what calls answer that only look.
#[derive(Clone, Copy, Debug, PartialEq, Eq)]
pub enum Answer {
    Granted,
    Seen,
    Absent,
    Exists,
    Full,
    Failed,
}

/// What a refusal of the plain directory answers.
fn refused(why: Refusal) -> Answer {
    match why {
        Refusal::Absent => Answer::Absent,
        Refusal::Exists => Answer::Exists,
        Refusal::Full => Answer::Full,
        Refusal::Memory => Answer::Failed,
    }
}

/// What a step answers that is refused for no reason of its own.
fn granted(done: bool) -> Answer {
    if done {
        Answer::Granted
    } else {
        Answer::Failed
    }
}

/// The answer of both. None where they differ.
fn agreed(ours: Answer, plain: Answer) -> Option<Answer> {
    if ours == plain { Some(ours) } else { None }
}

/// The answer of a look that saw the same in both. None where it didn't.
fn seen(same: bool) -> Option<Answer> {
    if same { Some(Answer::Seen) } else { None }
}

/// Whether two records are the same but for the generation, of which a list of records knows nothing.
fn is_same(ours: &Record, plain: &Record) -> bool {
    ours.name.as_slice() == plain.name.as_slice()
        && ours.number == plain.number
        && ours.slot == plain.slot
}

/// Whether the same record was found in both, or none.
fn are_same(ours: Option<Record>, plain: Option<&Record>) -> bool {
    match ours {
        Some(record) => match plain {
            Some(other) => is_same(&record, other),
            None => false,
        },
        None => plain.is_none(),
    }
}

/// The record that was found.
fn record_of(found: Option<Found>) -> Option<Record> {
    match found {
        Some(found) => Some(found.record),
        None => None,
    }
}

/// Whether a file has the name.
fn is_there<B: Blocks>(alloc: Global, on: &mut B, name: &Text) -> Result<bool, BlockError>
    requires memory { (b : B) → IsInMemory (B.state b) }
    requires none { NoneComes (B.state on.old) }
    ensures none { NoneComes (B.state on.new) }
    ensures keeps { B.keeps on.old on.new }
{
    match found(alloc, on, name) {
        Ok(found) => Ok(found.is_some()),
        Err(why) => Err(why),
    }
}

/// Makes a file of a name that no file has.
fn add<B: Blocks>(alloc: Global, on: &mut B, name: Text, number: u32) -> Result<Answer, BlockError>
    requires memory { (b : B) → IsInMemory (B.state b) }
    requires none { NoneComes (B.state on.old) }
    requires name { IsTextWithin 255 name }
    ensures none { NoneComes (B.state on.new) }
    ensures keeps { B.keeps on.old on.new }
{
    if is_there(alloc, on, &name)? {
        return Ok(Answer::Exists);
    }
    match make(alloc, on, name, number) {
        Ok(done) => Ok(granted(done)),
        Err(why) => Err(why),
    }
}

/// Removes the file of a name.
fn take<B: Blocks>(alloc: Global, on: &mut B, name: &Text) -> Result<Answer, BlockError>
    requires memory { (b : B) → IsInMemory (B.state b) }
    requires none { NoneComes (B.state on.old) }
    ensures none { NoneComes (B.state on.new) }
    ensures keeps { B.keeps on.old on.new }
{
    if !is_there(alloc, on, name)? {
        return Ok(Answer::Absent);
    }
    match remove(alloc, on, name) {
        Ok(done) => Ok(granted(done)),
        Err(why) => Err(why),
    }
}

/// Whether another file has the name that the file of a name is to get.
fn is_taken<B: Blocks>(
    alloc: Global,
    on: &mut B,
    name: &Text,
    other: &Text,
) -> Result<bool, BlockError>
    requires memory { (b : B) → IsInMemory (B.state b) }
    requires none { NoneComes (B.state on.old) }
    ensures none { NoneComes (B.state on.new) }
    ensures keeps { B.keeps on.old on.new }
{
    if other.as_slice() == name.as_slice() {
        return Ok(false);
    }
    is_there(alloc, on, other)
}

/// Gives the file of a name another one, which no other file has.
fn change<B: Blocks>(
    alloc: Global,
    on: &mut B,
    name: &Text,
    other: Text,
) -> Result<Answer, BlockError>
    requires memory { (b : B) → IsInMemory (B.state b) }
    requires none { NoneComes (B.state on.old) }
    requires other { IsTextWithin 255 other }
    ensures none { NoneComes (B.state on.new) }
    ensures keeps { B.keeps on.old on.new }
{
    if !is_there(alloc, on, name)? {
        return Ok(Answer::Absent);
    }
    if is_taken(alloc, on, name, &other)? {
        return Ok(Answer::Exists);
    }
    match rename(alloc, on, name, other) {
        Ok(done) => Ok(granted(done)),
        Err(why) => Err(why),
    }
}

fn add_plain(plain: &mut PlainDirectory, named: Record) -> Answer {
    match plain.add(named) {
        Ok(_) => Answer::Granted,
        Err(why) => refused(why),
    }
}

fn take_plain(plain: &mut PlainDirectory, name: &Text) -> Answer {
    match plain.remove(name.as_slice()) {
        Ok(()) => Answer::Granted,
        Err(why) => refused(why),
    }
}

fn change_plain(plain: &mut PlainDirectory, name: &Text, other: Text) -> Answer {
    match plain.change(name.as_slice(), other) {
        Ok(()) => Answer::Granted,
        Err(why) => refused(why),
    }
}

/// A file of this name and number is made in both.
fn add_both<B: Blocks>(
    alloc: Global,
    on: &mut B,
    plain: &mut PlainDirectory,
    drawn: Drawn,
    number: u32,
) -> Result<Option<Answer>, BlockError>
    requires memory { (b : B) → IsInMemory (B.state b) }
    requires none { NoneComes (B.state on.old) }
    ensures none { NoneComes (B.state on.new) }
    ensures keeps { B.keeps on.old on.new }
{
    let ours = add(alloc, on, drawn.name(alloc)?, number)?;
    let named = record(alloc, drawn.name(alloc)?, number)?;
    Ok(agreed(ours, add_plain(plain, named)))
}

/// The file of a name is removed in both.
fn take_both<B: Blocks>(
    alloc: Global,
    on: &mut B,
    plain: &mut PlainDirectory,
    drawn: Drawn,
) -> Result<Option<Answer>, BlockError>
    requires memory { (b : B) → IsInMemory (B.state b) }
    requires none { NoneComes (B.state on.old) }
    ensures none { NoneComes (B.state on.new) }
    ensures keeps { B.keeps on.old on.new }
{
    let name = drawn.name(alloc)?;
    match take(alloc, on, &name) {
        Ok(ours) => Ok(agreed(ours, take_plain(plain, &name))),
        Err(why) => Err(why),
    }
}

/// The file of a name gets another one in both.
fn change_both<B: Blocks>(
    alloc: Global,
    on: &mut B,
    plain: &mut PlainDirectory,
    drawn: Drawn,
    other: Drawn,
) -> Result<Option<Answer>, BlockError>
    requires memory { (b : B) → IsInMemory (B.state b) }
    requires none { NoneComes (B.state on.old) }
    ensures none { NoneComes (B.state on.new) }
    ensures keeps { B.keeps on.old on.new }
{
    let name = drawn.name(alloc)?;
    let ours = change(alloc, on, &name, other.name(alloc)?)?;
    Ok(agreed(ours, change_plain(plain, &name, other.name(alloc)?)))
}

/// Whether a name has the same record in both, or none.
pub fn look_up<B: Blocks>(
    alloc: Global,
    on: &mut B,
    plain: &PlainDirectory,
    drawn: Drawn,
) -> Result<bool, BlockError>
    requires memory { (b : B) → IsInMemory (B.state b) }
    requires none { NoneComes (B.state on.old) }
    ensures none { NoneComes (B.state on.new) }
    ensures keeps { B.keeps on.old on.new }
{
    let name = drawn.name(alloc)?;
    match found(alloc, on, &name) {
        Ok(found) => Ok(are_same(record_of(found), plain.lookup(name.as_slice()))),
        Err(why) => Err(why),
    }
}

/// Whether the same record comes after a name in both, or none.
pub fn look_after<B: Blocks>(
    alloc: Global,
    on: &mut B,
    plain: &PlainDirectory,
    drawn: Drawn,
) -> Result<bool, BlockError>
    requires memory { (b : B) → IsInMemory (B.state b) }
    requires none { NoneComes (B.state on.old) }
    ensures none { NoneComes (B.state on.new) }
    ensures keeps { B.keeps on.old on.new }
{
    let name = drawn.name(alloc)?;
    match next_record(alloc, on, &name) {
        Ok(found) => Ok(are_same(found, plain.next(name.as_slice()))),
        Err(why) => Err(why),
    }
}

/// Whether the least free pair is the same in both.
fn look_free<B: Blocks>(
    alloc: Global,
    on: &mut B,
    plain: &PlainDirectory,
) -> Result<bool, BlockError>
    requires memory { (b : B) → IsInMemory (B.state b) }
    requires none { NoneComes (B.state on.old) }
    ensures none { NoneComes (B.state on.new) }
    ensures keeps { B.keeps on.old on.new }
{
    match free(alloc, on) {
        Ok(k) => Ok(k == plain.free_pair()),
        Err(why) => Err(why),
    }
}

/// A call that only looks.
fn look<B: Blocks>(
    alloc: Global,
    on: &mut B,
    plain: &PlainDirectory,
    call: Call,
) -> Result<bool, BlockError>
    requires memory { (b : B) → IsInMemory (B.state b) }
    requires none { NoneComes (B.state on.old) }
    ensures none { NoneComes (B.state on.new) }
    ensures keeps { B.keeps on.old on.new }
{
    match call.kind {
        Kind::Next => look_after(alloc, on, plain, call.name),
        Kind::FreePair => look_free(alloc, on, plain),
        _ => look_up(alloc, on, plain, call.name),
    }
}

/// A call on both; a file that is made gets this number. What both answer, or None where they differ.
pub fn call_both<B: Blocks>(
    alloc: Global,
    on: &mut B,
    plain: &mut PlainDirectory,
    call: Call,
    number: u32,
) -> Result<Option<Answer>, BlockError>
    requires memory { (b : B) → IsInMemory (B.state b) }
    requires none { NoneComes (B.state on.old) }
    ensures none { NoneComes (B.state on.new) }
    ensures keeps { B.keeps on.old on.new }
{
    match call.kind {
        Kind::Add => add_both(alloc, on, plain, call.name, number),
        Kind::Remove => take_both(alloc, on, plain, call.name),
        Kind::Change => change_both(alloc, on, plain, call.name, call.other),
        _ => match look(alloc, on, plain, call) {
            Ok(same) => Ok(seen(same)),
            Err(why) => Err(why),
        },
    }
}
