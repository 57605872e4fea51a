//! A run over two devices, from their opening to their end.
ghost use Rattle.std.specs.Prelude.{◌≡◌, ◌≢◌};
ghost use Rattle.fo_disk.specs.Disk.{IsQuiet};
ghost use Rattle.fo_core.specs.Moment.{counts};
ghost use Rattle.fo_tools.specs.Ends.{end_of_check};
ghost use Rattle.fo_top.specs.Ending.{tool_why};
ghost use Rattle.fo_top.specs.Served.{Finishes, Works, Serves, Talks, Scripts, pair, streams};
ghost use Rattle.fo_top.specs.Tools.{HasCauses};

use crate::why::{Why, first_why};
use fo_core::{Finished, Stands, State, Unopened};
use fo_disk::Disk;
use fo_links::{Clock, Sink, Source};
use fo_script::run_script;
use fo_service::{OneSession, Turner};
use fo_talk::{Machine, serve};
use fo_tools::ToolEnd;
use std::alloc::Global;

/// How a run over two devices ended, and the devices.
#[derive(Drop)]
pub(crate) struct Ended<D, A> {
    pub(crate) why: Why,
    pub(crate) main: D,
    pub(crate) arena: A,
}

/// The end of a run whose devices were not opened.
fn refuse<D: Disk, A: Disk>(refused: Unopened<D, A>) -> Ended<D, A>
    ensures why { result.why ≡ tool_why (end_of_check refused.why) }
    ensures main { result.main ≡ refused.main }
    ensures arena { result.arena ≡ refused.arena }
{
    let Unopened { why, main, arena } = refused;
    Ended {
        why: Why::from(ToolEnd::from(why)),
        main,
        arena,
    }
}

/// Ends a system, what was done with it having ended so, and gives its devices back.
fn finish<D: Disk, A: Disk>(state: State<D, A>, how: Why) -> Ended<D, A>
    ensures { Finishes (⟦<State<D, A> as Stands>⟧.moment state) how (pair (D.size result.main) (D.state result.main) (A.state result.arena) (D.faults result.main) (A.faults result.arena)) result.why }
{
    let Finished {
        failed,
        main,
        arena,
    } = state.finish();
    Ended {
        why: first_why(how, failed),
        main,
        arena,
    }
}

/// Answers the messages of one connection by session 0 of a system, and ends it.
fn talk<D: Disk, A: Disk, S: Source, K: Sink, C: Clock>(
    alloc: Global,
    state: State<D, A>,
    input: &mut S,
    out: &mut K,
    clock: &mut C,
) -> Ended<D, A>
    ensures works { Works
        (λ m. ⟦<State<D, A> as Stands>⟧.moment m.turner)
        (λ first last how. (first.session ≡ 0) × Talks ⟦<OneSession<State<D, A>> as Machine>⟧.goes ⟦<OneSession<State<D, A>> as Machine>⟧.faults
        (C.coming clock.old) (streams (S.left input.old) (K.held out.old)) (streams (S.left input.new) (K.held out.new)) first last how)
        (⟦<State<D, A> as Stands>⟧.moment state)
        (pair (D.size result.main) (D.state result.main) (A.state result.arena) (D.faults result.main) (A.faults result.arena)) result.why }
    ensures causes { HasCauses (record { input = S.faults input.old; out = K.faults out.old; main = (counts (⟦<State<D, A> as Stands>⟧.moment state)).main; arena = (counts (⟦<State<D, A> as Stands>⟧.moment state)).arena })
        (record { input = S.faults input.new; out = K.faults out.new; main = D.faults result.main; arena = A.faults result.arena }) result.why }
    ensures used { result.why ≢ Why.Usage }
    ensures sized { result.why ≢ Why.Size }
{
    let mut system = OneSession::new(state, 0);
    let how = Why::from(serve(alloc, input, out, clock, &mut system));
    finish(system.into_turner(), how)
}

/// Runs a script over a system, and ends it.
fn drive<D: Disk, A: Disk, S: Source, K: Sink>(
    alloc: Global,
    state: State<D, A>,
    input: &mut S,
    out: &mut K,
) -> Ended<D, A>
    ensures works { Works ⟦<State<D, A> as Stands>⟧.moment
        (Scripts ⟦<State<D, A> as Turner>⟧.goes (streams (S.left input.old) (K.held out.old)) (streams (S.left input.new) (K.held out.new)))
        (⟦<State<D, A> as Stands>⟧.moment state)
        (pair (D.size result.main) (D.state result.main) (A.state result.arena) (D.faults result.main) (A.faults result.arena)) result.why }
    ensures causes { HasCauses (record { input = S.faults input.old; out = K.faults out.old; main = (counts (⟦<State<D, A> as Stands>⟧.moment state)).main; arena = (counts (⟦<State<D, A> as Stands>⟧.moment state)).arena })
        (record { input = S.faults input.new; out = K.faults out.new; main = D.faults result.main; arena = A.faults result.arena }) result.why }
    ensures used { result.why ≢ Why.Usage }
    ensures sized { result.why ≢ Why.Size }
{
    let mut state = state;
    let how = Why::from(run_script(alloc, input, out, &mut state));
    finish(state, how)
}

/// Opens two devices, and answers the messages of one connection over them.
pub(crate) fn serve_all<D: Disk, A: Disk, S: Source, K: Sink, C: Clock>(
    alloc: Global,
    main: D,
    arena: A,
    input: &mut S,
    out: &mut K,
    clock: &mut C,
) -> Ended<D, A>
    requires quiet { IsQuiet (D.state main).holds }
    ensures serves { Serves
        (λ m. ⟦<State<D, A> as Stands>⟧.moment m.turner)
        (λ first last how. (first.session ≡ 0) × Talks ⟦<OneSession<State<D, A>> as Machine>⟧.goes ⟦<OneSession<State<D, A>> as Machine>⟧.faults
        (C.coming clock.old) (streams (S.left input.old) (K.held out.old)) (streams (S.left input.new) (K.held out.new)) first last how)
        ((input.new ≡ input.old) × (out.new ≡ out.old))
        (pair (D.size main) (D.state main) (A.state arena) (D.faults main) (A.faults arena))
        (pair (D.size result.main) (D.state result.main) (A.state result.arena) (D.faults result.main) (A.faults result.arena)) result.why }
    ensures causes { HasCauses (record { input = S.faults input.old; out = K.faults out.old; main = D.faults main; arena = A.faults arena }) (record { input = S.faults input.new; out = K.faults out.new; main = D.faults result.main; arena = A.faults result.arena }) result.why }
    ensures used { result.why ≢ Why.Usage }
{
    match State::open(alloc, main, arena) {
        Ok(state) => talk(alloc, state, input, out, clock),
        Err(refused) => refuse(refused),
    }
}

/// Opens two devices, and runs a script over them.
pub(crate) fn drive_all<D: Disk, A: Disk, S: Source, K: Sink>(
    alloc: Global,
    main: D,
    arena: A,
    input: &mut S,
    out: &mut K,
) -> Ended<D, A>
    requires quiet { IsQuiet (D.state main).holds }
    ensures serves { Serves ⟦<State<D, A> as Stands>⟧.moment
        (Scripts ⟦<State<D, A> as Turner>⟧.goes (streams (S.left input.old) (K.held out.old)) (streams (S.left input.new) (K.held out.new)))
        ((input.new ≡ input.old) × (out.new ≡ out.old))
        (pair (D.size main) (D.state main) (A.state arena) (D.faults main) (A.faults arena))
        (pair (D.size result.main) (D.state result.main) (A.state result.arena) (D.faults result.main) (A.faults result.arena)) result.why }
    ensures causes { HasCauses (record { input = S.faults input.old; out = K.faults out.old; main = D.faults main; arena = A.faults arena }) (record { input = S.faults input.new; out = K.faults out.new; main = D.faults result.main; arena = A.faults result.arena }) result.why }
    ensures used { result.why ≢ Why.Usage }
{
    match State::open(alloc, main, arena) {
        Ok(state) => drive(alloc, state, input, out),
        Err(refused) => refuse(refused),
    }
}
