//! The top call.
ghost use Rattle.std.specs.Prelude.{◌≡◌, ◌≢◌, ◌≤◌, ◌↔◌, map, IfSome, Some, None};
ghost use Rattle.std.specs.String.{string_bytes};
ghost use Rattle.fo_disk.specs.Disk.{IsQuiet};
ghost use Rattle.fo_top.specs.Ending.{status_of};
ghost use Rattle.fo_top.specs.Served.{Serves, Talks, Scripts, pair, streams};
ghost use Rattle.fo_top.specs.Tools.{device, FormatRun, CheckRun, HasCauses};
ghost use Rattle.fo_top.specs.Words.{command_of, Opens};

use crate::command::{Command, command_of};
use crate::system::{Ended, drive_all, serve_all};
use crate::why::Why;
use fo_core::{Stands, State};
use fo_disk::Disk;
use fo_links::{Clock, Sink, Source};
use fo_service::{OneSession, Turner};
use fo_talk::Machine;
use fo_tools::{flchk, flfmt};
use std::alloc::Global;

/// What a run gives back: the status that the program ends with, how the run ended, and the devices, the source and the sink
/// that it was handed.
#[derive(Drop)]
pub struct Done<D, A, S, K> {
    pub status: u8,
    pub why: Why,
    pub main: D,
    pub arena: A,
    pub input: S,
    pub out: K,
}

/// Formats both devices.
fn format_all<D: Disk, A: Disk, K: Sink, C: Clock>(
    alloc: Global,
    mut main: D,
    mut arena: A,
    out: &mut K,
    clock: &mut C,
) -> Ended<D, A>
    ensures formats { FormatRun (C.coming clock.old)
        (device (D.size main) (D.calls main) (D.state main)) (device (D.size result.main) (D.calls result.main) (D.state result.main))
        (device (A.size arena) (A.calls arena) (A.state arena)) (device (A.size result.arena) (A.calls result.arena) (A.state result.arena))
        (K.held out.old) (K.held out.new) result.why }
    ensures causes { HasCauses (record { input = 0; out = K.faults out.old; main = D.faults main; arena = A.faults arena }) (record { input = 0; out = K.faults out.new; main = D.faults result.main; arena = A.faults result.arena }) result.why }
    ensures used { result.why ≢ Why.Usage }
{
    let why = Why::from(flfmt(alloc, &mut main, &mut arena, out, clock.now()));
    Ended { why, main, arena }
}

/// Checks both devices.
fn check_all<D: Disk, A: Disk, K: Sink>(
    alloc: Global,
    mut main: D,
    mut arena: A,
    out: &mut K,
) -> Ended<D, A>
    ensures checks { CheckRun
        (device (D.size main) (D.calls main) (D.state main)) (device (D.size result.main) (D.calls result.main) (D.state result.main))
        (device (A.size arena) (A.calls arena) (A.state arena)) (device (A.size result.arena) (A.calls result.arena) (A.state result.arena))
        (K.held out.old) (K.held out.new) result.why }
    ensures causes { HasCauses (record { input = 0; out = K.faults out.old; main = D.faults main; arena = A.faults arena }) (record { input = 0; out = K.faults out.new; main = D.faults result.main; arena = A.faults result.arena }) result.why }
    ensures used { result.why ≢ Why.Usage }
{
    let why = Why::from(flchk(alloc, &mut main, &mut arena, out));
    Ended { why, main, arena }
}

/// Does what the command says, or nothing where there is none.
fn act<D: Disk, A: Disk, S: Source, K: Sink, C: Clock>(
    alloc: Global,
    command: Option<Command>,
    main: D,
    arena: A,
    input: &mut S,
    out: &mut K,
    clock: &mut C,
) -> Ended<D, A>
    requires quiet { Opens command → IsQuiet (D.state main).holds }
    ensures usage { (result.why ≡ Why.Usage) ↔ (command ≡ None) }
    ensures untouched { result.why ≡ Why.Usage → (input.new ≡ input.old) × (out.new ≡ out.old) × (result.main ≡ main) × (result.arena ≡ arena) }
    ensures talks { command ≡ Some Command.Serve → Serves
        (λ m. ⟦<State<D, A> as Stands>⟧.moment m.turner)
        (λ first last how. (first.session ≡ 0) × Talks ⟦<OneSession<State<D, A>> as Machine>⟧.goes ⟦<OneSession<State<D, A>> as Machine>⟧.faults
        (C.coming clock.old) (streams (S.left input.old) (K.held out.old)) (streams (S.left input.new) (K.held out.new)) first last how)
        ((input.new ≡ input.old) × (out.new ≡ out.old))
        (pair (D.size main) (D.state main) (A.state arena) (D.faults main) (A.faults arena))
        (pair (D.size result.main) (D.state result.main) (A.state result.arena) (D.faults result.main) (A.faults result.arena)) result.why }
    ensures scripts { command ≡ Some Command.Turns → Serves ⟦<State<D, A> as Stands>⟧.moment
        (Scripts ⟦<State<D, A> as Turner>⟧.goes (streams (S.left input.old) (K.held out.old)) (streams (S.left input.new) (K.held out.new)))
        ((input.new ≡ input.old) × (out.new ≡ out.old))
        (pair (D.size main) (D.state main) (A.state arena) (D.faults main) (A.faults arena))
        (pair (D.size result.main) (D.state result.main) (A.state result.arena) (D.faults result.main) (A.faults result.arena)) result.why }
    ensures formats { command ≡ Some Command.Format → FormatRun (C.coming clock.old)
        (device (D.size main) (D.calls main) (D.state main)) (device (D.size result.main) (D.calls result.main) (D.state result.main))
        (device (A.size arena) (A.calls arena) (A.state arena)) (device (A.size result.arena) (A.calls result.arena) (A.state result.arena))
        (K.held out.old) (K.held out.new) result.why }
    ensures checks { command ≡ Some Command.Check → CheckRun
        (device (D.size main) (D.calls main) (D.state main)) (device (D.size result.main) (D.calls result.main) (D.state result.main))
        (device (A.size arena) (A.calls arena) (A.state arena)) (device (A.size result.arena) (A.calls result.arena) (A.state result.arena))
        (K.held out.old) (K.held out.new) result.why }
    ensures unread { (Opens command → ⊥) → input.new ≡ input.old }
    ensures causes { HasCauses (record { input = S.faults input.old; out = K.faults out.old; main = D.faults main; arena = A.faults arena }) (record { input = S.faults input.new; out = K.faults out.new; main = D.faults result.main; arena = A.faults result.arena }) result.why }
{
    match command {
        None => Ended {
            why: Why::Usage,
            main,
            arena,
        },
        Some(Command::Serve) => serve_all(alloc, main, arena, input, out, clock),
        Some(Command::Turns) => drive_all(alloc, main, arena, input, out),
        Some(Command::Format) => format_all(alloc, main, arena, out, clock),
        Some(Command::Check) => check_all(alloc, main, arena, out),
    }
}

/// Runs the program over two devices (fossil(4) of the Plan 9 manual). `9p` opens both and answers one connection, messages in and
/// replies out (section 5 of the manual); `turns` opens both and runs a script; `flfmt` formats both and `flchk` checks them, and each
/// prints a line. What was opened is settled at the end, and what was removed closed, whatever ended the messages or the script.
///
/// A main device that is opened is quiet, as far as it tells: a device in a file tells nothing, and one in memory is handed in quiet.
pub fn run<D: Disk, A: Disk, S: Source, K: Sink, C: Clock + Drop>(
    alloc: Global,
    words: &[String],
    main: D,
    arena: A,
    mut input: S,
    mut out: K,
    mut clock: C,
) -> Done<D, A, S, K>
    requires quiet { Opens (command_of (map string_bytes words.now)) → IsQuiet (D.state main).holds }
    ensures status { result.status ≡ status_of result.why }

    // Other words read and write nothing.
    ensures usage { (result.why ≡ Why.Usage) ↔ (command_of (map string_bytes words.now) ≡ None) }
    ensures untouched { result.why ≡ Why.Usage → (result.input ≡ input) × (result.out ≡ out) × (result.main ≡ main) × (result.arena ≡ arena) }

    // `9p`: the opening was refused, or a conversation on the bytes of the input by session 0 of the system that was opened, and then
    // the end of that system.
    ensures talks { command_of (map string_bytes words.now) ≡ Some Command.Serve → Serves
        (λ m. ⟦<State<D, A> as Stands>⟧.moment m.turner)
        (λ first last how. (first.session ≡ 0) × Talks ⟦<OneSession<State<D, A>> as Machine>⟧.goes ⟦<OneSession<State<D, A>> as Machine>⟧.faults
        (C.coming clock) (streams (S.left input) (K.held out)) (streams (S.left result.input) (K.held result.out)) first last how)
        ((result.input ≡ input) × (result.out ≡ out))
        (pair (D.size main) (D.state main) (A.state arena) (D.faults main) (A.faults arena))
        (pair (D.size result.main) (D.state result.main) (A.state result.arena) (D.faults result.main) (A.faults result.arena)) result.why }

    // `turns`: the same of a script over that system, which names its moments itself.
    ensures scripts { command_of (map string_bytes words.now) ≡ Some Command.Turns → Serves ⟦<State<D, A> as Stands>⟧.moment
        (Scripts ⟦<State<D, A> as Turner>⟧.goes (streams (S.left input) (K.held out)) (streams (S.left result.input) (K.held result.out)))
        ((result.input ≡ input) × (result.out ≡ out))
        (pair (D.size main) (D.state main) (A.state arena) (D.faults main) (A.faults arena))
        (pair (D.size result.main) (D.state result.main) (A.state result.arena) (D.faults result.main) (A.faults result.arena)) result.why }

    // `flfmt` and `flchk`: what is printed, what the devices hold and which ends there are, by how the run ended. No input is read.
    ensures formats { command_of (map string_bytes words.now) ≡ Some Command.Format → FormatRun (C.coming clock)
        (device (D.size main) (D.calls main) (D.state main)) (device (D.size result.main) (D.calls result.main) (D.state result.main))
        (device (A.size arena) (A.calls arena) (A.state arena)) (device (A.size result.arena) (A.calls result.arena) (A.state result.arena))
        (K.held out) (K.held result.out) result.why }
    ensures checks { command_of (map string_bytes words.now) ≡ Some Command.Check → CheckRun
        (device (D.size main) (D.calls main) (D.state main)) (device (D.size result.main) (D.calls result.main) (D.state result.main))
        (device (A.size arena) (A.calls arena) (A.state arena)) (device (A.size result.arena) (A.calls result.arena) (A.state result.arena))
        (K.held out) (K.held result.out) result.why }
    ensures unread { (Opens (command_of (map string_bytes words.now)) → ⊥) → result.input ≡ input }

    // A fault is the end only where that count rose in this call.
    ensures causes { HasCauses (record { input = S.faults input; out = K.faults out; main = D.faults main; arena = A.faults arena }) (record { input = S.faults result.input; out = K.faults result.out; main = D.faults result.main; arena = A.faults result.arena }) result.why }
{
    let command = command_of(words);
    let Ended { why, main, arena } = act(
        alloc, command, main, arena, &mut input, &mut out, &mut clock,
    );
    Done {
        status: why.status(),
        why,
        main,
        arena,
        input,
        out,
    }
}
