//! The loop that answers the lines of a script.
ghost use Rattle.std.specs.Prelude.{◌≡◌, ℕ, ◌<◌, ◌≤◌, length, take, None, IfSome};
ghost use Rattle.fo_base.specs.Cause.{Rose};
ghost use Rattle.fo_world.specs.Answers.{NotFewer};
ghost use Rattle.fo_script.specs.declared.end.ScriptEnd.TheVariants as ends;
ghost use Rattle.fo_script.specs.Script.{line_end, starts};
ghost use Rattle.fo_script.specs.Ending.{end_at, end_of};
ghost use Rattle.fo_script_line.specs.Answering.{standing};
ghost use Rattle.fo_script.specs.Ending.{Ends, Stops};

use crate::end::ScriptEnd;
use fo_links::{Inbox, Sink, Source};
use fo_script_line::{Kept, LONGEST_LINE, Stop, Turner, answer_line, let_everyone_go};
use nine_wire::LARGEST_MESSAGE;
use std::alloc::Global;

/// How many bytes the buffer has that input waits in.
const ROOM: usize = 2 * (LONGEST_LINE + 1);

/// Where the first newline is.
fn newline(bytes: &[u8]) -> Option<usize>
    ensures is { result ≡ line_end bytes.now }
    ensures within { IfSome result (λ end. end < length bytes.now) }
{
    bytes.iter().position(|b| *b == b'\n')
}

/// Where the first newline is, where none is among the first `seen` bytes.
fn newline_after(bytes: &[u8], seen: usize) -> Option<usize>
    requires within { seen ≤ length bytes.now }
    requires none { line_end (take seen bytes.now) ≡ None }
    ensures is { result ≡ line_end bytes.now }
    ensures within { IfSome result (λ end. end < length bytes.now) }
{
    let Some(end) = newline(&bytes[seen..]) else {
        return None;
    };
    Some(seen + end)
}

/// The end of a script whose line at this place was not answered.
fn end_of(stop: Stop, place: u64) -> ScriptEnd
    ensures { result ≡ end_of stop place }
{
    match stop {
        Stop::Bad => ScriptEnd::BadLine(place),
        Stop::Memory => ScriptEnd::Memory,
        Stop::Spent => ScriptEnd::Spent,
        Stop::Output => ScriptEnd::WriteFault,
    }
}

/// The end of a script whose input ended, where these bytes wait.
fn end_of_input(waiting: &[u8], place: u64) -> ScriptEnd
    ensures { result ≡ end_at waiting.now place }
{
    if waiting.is_empty() {
        ScriptEnd::End
    } else {
        ScriptEnd::BadLine(place)
    }
}

/// Answers the lines of the input, one after the other, until it ends.
fn answer_lines<S: Source, K: Sink, T: Turner>(
    alloc: Global,
    input: &mut S,
    out: &mut K,
    kept: &mut Kept,
    on: &mut T,
) -> ScriptEnd
    ensures stops { IfSome (S.left input.old) (λ bytes. Stops T.goes (standing kept.old on.old) bytes (S.left input.new)
        (K.held out.old) (K.held out.new) (standing kept.new on.new) result) }
    ensures input { result ≡ ScriptEnd.ReadFault → Rose (S.faults input.old) (S.faults input.new) }
    ensures output { result ≡ ScriptEnd.WriteFault → Rose (K.faults out.old) (K.faults out.new) }
    ensures input_later { S.faults input.old ≤ S.faults input.new }
    ensures output_later { K.faults out.old ≤ K.faults out.new }
    ensures later { NotFewer (T.faults on.old) (T.faults on.new) }
{
    let Ok(mut inbox) = Inbox::<ROOM>::new(alloc) else {
        return ScriptEnd::Memory;
    };
    let mut bytes = Vec::new(alloc);
    let mut place = 0;
    let mut seen = 0;
    'lines: loop {
        let waiting = inbox.waiting();
        match newline_after(waiting, seen) {
            Some(end) => {
                match answer_line(alloc, &waiting[..end], kept, on, &mut bytes, out) {
                    Ok(()) => {}
                    Err(stop) => return end_of(stop, place),
                }
                inbox.consume(end + 1);
                place += end as u64 + 1;
                seen = 0;
            }
            None if waiting.len() > LONGEST_LINE => return ScriptEnd::BadLine(place),
            None => {
                seen = waiting.len();
                match inbox.fill(input) {
                    Ok(0) => return end_of_input(inbox.waiting(), place),
                    Ok(_) => {}
                    Err(_) => return ScriptEnd::ReadFault,
                }
            }
        }
    }
}

/// Does what the lines of the input say, one after the other, until it ends, and then lets all fids of all sessions go.
pub fn run_script<S: Source, K: Sink, T: Turner>(
    alloc: Global,
    input: &mut S,
    out: &mut K,
    on: &mut T,
) -> ScriptEnd
    // What was done and put out for the lines of a source that tells its bytes, by how the script ended, and where the server stands.
    ensures script { IfSome (S.left input.old) (λ bytes. Ends T.goes (starts on.old) bytes (S.left input.new) (K.held out.old) (K.held out.new) on.new result) }

    // A fault is the end only where that count rose in this call.
    ensures input { result ≡ ScriptEnd.ReadFault → Rose (S.faults input.old) (S.faults input.new) }
    ensures output { result ≡ ScriptEnd.WriteFault → Rose (K.faults out.old) (K.faults out.new) }
    ensures input_later { S.faults input.old ≤ S.faults input.new }
    ensures output_later { K.faults out.old ≤ K.faults out.new }
    ensures later { NotFewer (T.faults on.old) (T.faults on.new) }
{
    let mut kept = Kept {
        moment: 0,
        limits: [LARGEST_MESSAGE; 16],
    };
    let end = answer_lines(alloc, input, out, &mut kept, on);
    let_everyone_go(kept.moment, on);
    end
}
