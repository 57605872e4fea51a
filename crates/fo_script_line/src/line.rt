//! One line.
ghost use Rattle.std.specs.Prelude.{◌≡◌, ◌<◌, ◌≤◌, Err};
ghost use Rattle.fo_base.specs.Cause.{Rose};
ghost use Rattle.fo_world.specs.Answers.{NotFewer};
ghost use Rattle.nine_wire.specs.Message.{RequestFits};
ghost use Rattle.fo_lines.specs.Line.{Fits};
ghost use Rattle.fo_lines.specs.declared.line.Line.TheVariants as line;
ghost use Rattle.fo_script_line.specs.declared.line.Stop.TheVariants as stops;
ghost use Rattle.fo_script_line.specs.Says.{said, MaySay};
ghost use Rattle.fo_script_line.specs.Answering.{Answered, Done, Put, Sends, Takes, Turned, standing};

use crate::answer::{Answer, put_answer};
use crate::sessions::{agreed_size, ask, is_version, let_all_go};
use crate::turns::{Stage, take_turns};
use fo_base::Memory;
use fo_events::Turner;
use fo_lines::{Line, line_of};
use fo_links::Sink;
use nine_wire::{LARGEST_MESSAGE, Reply, Request, Step, read_msg};
use std::alloc::Global;

/// The most bytes of a line, its newline not counted.
pub const LONGEST_LINE: usize = 131200;

/// What a script keeps from line to line.
#[derive(Drop)]
pub struct Kept {
    /// The moment of its events.
    pub moment: u32,
    /// How many bytes each session allows a message.
    pub limits: [u32; 16],
}

impl Kept {
    ghost use Rattle.std.specs.Prelude.{◌≡◌, ◌<◌, slice_set, if◌then◌else◌};
    ghost use Rattle.fo_script_line.specs.Sessions.{agreed_size, limit_of};

    /// How many bytes a session allows a message.
    fn limit(&self, session: u8) -> u32
        requires { session < 16 }
        ensures { result ≡ limit_of self.now.limits session }
    {
        self.limits[usize::from(session)]
    }

    /// A session allows so many from now on.
    fn allow(&mut self, session: u8, limit: u32)
        requires { session < 16 }
        ensures { self.new ≡ record { moment = self.old.moment; limits = slice_set self.old.limits session limit } }
    {
        self.limits[usize::from(session)] = limit;
    }

    /// What a session allows after this reply to a Tversion.
    fn agree(&mut self, session: u8, is_version: bool, reply: &Reply)
        requires { session < 16 }
        ensures moment { self.new.moment ≡ self.old.moment }
        ensures limits { self.new.limits ≡ (if is_version then slice_set self.old.limits session (agreed_size reply.now) else self.old.limits) }
    {
        if is_version {
            self.allow(session, agreed_size(reply));
        }
    }
}

/// Why a line was not answered to the end.
#[derive(Clone, Copy, Debug, PartialEq, Eq)]
pub enum Stop {
    /// It is no line that may be taken.
    Bad,
    /// There is no memory.
    Memory,
    /// No answer came of as many turns as a line may take.
    Spent,
    /// The output failed.
    Output,
}

impl From<Memory> for Stop {
    ghost from_gives = { λ _ e. e ≡ stops.Memory };

    fn from(_: Memory) -> Stop {
        Stop::Memory
    }
}

/// Answers a message.
fn answer_message<T: Turner>(
    session: u8,
    tag: u16,
    request: Request,
    kept: &mut Kept,
    on: &mut T,
) -> Answer
    requires which { session < 16 }
    requires request { RequestFits request }
    ensures sends { Sends T.goes session tag request (standing kept.old on.old) (standing kept.new on.new) result }
    ensures later { NotFewer (T.faults on.old) (T.faults on.new) }
{
    let asked = is_version(&request);
    let reply = ask(session, kept.moment, request, on);
    kept.agree(session, asked, &reply);
    Answer::Replied {
        session,
        tag,
        reply,
    }
}

/// Answers what a session is sent.
fn take_message<T: Turner>(
    alloc: Global,
    session: u8,
    bytes: &[u8],
    kept: &mut Kept,
    on: &mut T,
) -> Result<Answer, Stop>
    requires { session < 16 }
    ensures takes { Takes T.goes (standing kept.old on.old) (line.Message session bytes.now) (standing kept.new on.new) result }
    ensures later { NotFewer (T.faults on.old) (T.faults on.new) }
{
    let step = read_msg(alloc, bytes, kept.limit(session))?;
    match step {
        Step::Msg(tag, request, used) => {
            if used < bytes.len() {
                return Err(Stop::Bad);
            }
            Ok(answer_message(session, tag, request, kept, on))
        }
        _ => Err(Stop::Bad),
    }
}

/// Lets all fids of a session go.
fn drop_session<T: Turner>(session: u8, kept: &mut Kept, on: &mut T) -> Answer
    requires { session < 16 }
    ensures drops { Done T.goes (standing kept.old on.old) (line.Drops session) (standing kept.new on.new) result }
    ensures later { NotFewer (T.faults on.old) (T.faults on.new) }
{
    let_all_go(session, kept.moment, on);
    kept.allow(session, LARGEST_MESSAGE);
    Answer::Dropped(session)
}

/// Takes the turns of a line.
fn take_from<T: Turner>(first: Stage, on: &mut T) -> Result<Answer, Stop>
    ensures takes { Turned T.goes first on.old on.new result }
    ensures later { NotFewer (T.faults on.old) (T.faults on.new) }
{
    match take_turns(first, on) {
        Some(answer) => Ok(answer),
        None => Err(Stop::Spent),
    }
}

/// Does what a line says.
fn take_line<T: Turner>(
    alloc: Global,
    line: &Line,
    kept: &mut Kept,
    on: &mut T,
) -> Result<Answer, Stop>
    requires { Fits line.now }
    ensures takes { Takes T.goes (standing kept.old on.old) line.now (standing kept.new on.new) result }
    ensures later { NotFewer (T.faults on.old) (T.faults on.new) }
{
    match line {
        Line::Moment(moment) => {
            kept.moment = *moment;
            Ok(Answer::Silent)
        }
        Line::Message { session, bytes } => {
            take_message(alloc, *session, bytes.as_slice(), kept, on)
        }
        Line::Drops(session) => Ok(drop_session(*session, kept, on)),
        Line::Flush => take_from(Stage::Flush, on),
        Line::Unlink => take_from(Stage::Unlink, on),
        Line::FlushAll => take_from(Stage::Flushing, on),
        Line::Console(_) => Ok(Answer::NotBuilt),
        Line::Archive => Ok(Answer::NotBuilt),
        Line::ArchiveAll => Ok(Answer::NotBuilt),
    }
}

/// Puts an answer out.
fn say<K: Sink>(
    alloc: Global,
    answer: &Answer,
    bytes: &mut Vec<u8>,
    out: &mut K,
) -> Result<(), Stop>
    requires { MaySay answer.now }
    ensures put { Put (K.held out.old) (K.held out.new) (said answer.now) result }
    ensures later { K.faults out.old ≤ K.faults out.new }
    ensures output { result ≡ Err Stop.Output → Rose (K.faults out.old) (K.faults out.new) }
{
    bytes.clear();
    put_answer(alloc, answer, bytes)?;
    if bytes.is_empty() {
        return Ok(());
    }
    match out.put(bytes.as_slice()) {
        Ok(()) => Ok(()),
        Err(_) => Err(Stop::Output),
    }
}

/// Answers a line, given without its newline.
pub fn answer_line<K: Sink, T: Turner>(
    alloc: Global,
    text: &[u8],
    kept: &mut Kept,
    on: &mut T,
    bytes: &mut Vec<u8>,
    out: &mut K,
) -> Result<(), Stop>
    ensures answered { Answered T.goes (standing kept.old on.old) text.now (standing kept.new on.new) (K.held out.old) (K.held out.new) result }
    ensures output { result ≡ Err Stop.Output → Rose (K.faults out.old) (K.faults out.new) }
    ensures output_later { K.faults out.old ≤ K.faults out.new }
    ensures later { NotFewer (T.faults on.old) (T.faults on.new) }
{
    if text.len() > LONGEST_LINE {
        return Err(Stop::Bad);
    }
    let Some(line) = line_of(alloc, text)? else {
        return Err(Stop::Bad);
    };
    let answer = take_line(alloc, &line, kept, on)?;
    say(alloc, &answer, bytes, out)
}
