// An invocation under way, to its next event.
ghost use Rattle.std.specs.Prelude.{◌≡◌, ◌<◌, ◌+◌, ◌^◌, [], None, IfOk, OnOk, OnErr, IfSome, IsSome, MatchOption};
ghost use Rattle.group_items.specs.Sides.{IsNext, behind_pause};
ghost use Rattle.group_items.specs.Events.{access_of, event_of};
ghost use Rattle.step_run.specs.Kept.{Course, IsGoing, IsSame, untold_events, begun_of, behind_step, runs_of};
ghost use Rattle.step_run.specs.Asking.{HasAsked, Asked, HasStepped, HasPaused, IsIdle};

use crate::copies::with_room;
use crate::program::{Program, Step};
use crate::row::Row;
use crate::telling::tell;
use group_items::{Event, Pause};
use spv_words::Memory;
use std::alloc::Global;

/// Notes what is asked for, and makes the room that its words and its event need.
fn ask(alloc: Global, row: &mut Row, event: &Event) -> Result<(), Memory>
    requires { IsSome (access_of (event_of event.now)) }
    ensures asked { OnOk result (HasAsked row.old (event_of event.now) row.new) }
    ensures err { OnErr result (IsSame row.old row.new) }
{
    let room = with_room(alloc, event)?;
    row.told.reserve(1)?;
    row.asked = Some(room);
    Ok(())
}

/// One step more of an invocation that has told all its events: why it pauses, if it does.
fn take_step<P: Program>(
    alloc: Global,
    program: &P,
    row: &mut Row,
    state: &mut P::State,
) -> Result<Option<Pause>, Memory>
    ghost course: { Course }
    requires going { IsGoing course.start course.steps row.old (P.goes program.now state.old) }
    requires none { untold_events row.old ≡ [] }
    requires some { row.old.used < course.steps }
    requires free { row.old.asked ≡ None }
    requires small { course.steps < 2 ^ 64 }
    ensures next { IfOk result (λ pause. IfSome pause (IsNext (runs_of course.start course.steps) (begun_of row.old))) }
    ensures behind { IfOk result (λ pause. begun_of row.new ≡ behind_step (begun_of row.old) pause) }
    ensures moved { IfOk result (λ pause. MatchOption pause (HasStepped row.old row.new) (λ p. HasPaused course.steps row.old row.new (P.asks program.now state.new))) }
    ensures going { IsGoing course.start course.steps row.new (P.goes program.now state.new) }
    ensures err { OnErr result (IsIdle row.old row.new) }
{
    match program.step(state)? {
        Step::Moves => {
            row.used += 1;
            Ok(None)
        }
        Step::Makes(events) => {
            row.untold = events;
            row.used += 1;
            Ok(None)
        }
        Step::Asks(event) => {
            ask(alloc, row, &event)?;
            Ok(Some(Pause::Asks(event)))
        }
        Step::Stops => Ok(Some(Pause::Ended)),
        Step::Fails => Ok(Some(Pause::Undefined)),
    }
}

/// The next event that is told, or one step more.
fn one_more<P: Program>(
    alloc: Global,
    program: &P,
    row: &mut Row,
    state: &mut P::State,
    steps: usize,
) -> Result<Option<Pause>, Memory>
    ghost course: { Course }
    requires going { IsGoing course.start course.steps row.old (P.goes program.now state.old) }
    requires free { row.old.asked ≡ None }
    requires within { course.steps ≡ steps }
    ensures next { IfOk result (λ pause. IfSome pause (IsNext (runs_of course.start course.steps) (begun_of row.old))) }
    ensures behind { IfOk result (λ pause. begun_of row.new ≡ behind_step (begun_of row.old) pause) }
    ensures moved { IfOk result (λ pause. MatchOption pause (HasStepped row.old row.new) (λ p. HasPaused course.steps row.old row.new (P.asks program.now state.new))) }
    ensures going { IsGoing course.start course.steps row.new (P.goes program.now state.new) }
    ensures err { OnErr result (IsIdle row.old row.new) }
{
    match tell(alloc, row)? {
        Some(event) => Ok(Some(Pause::Made(event))),
        None => if row.used == steps {
            Ok(Some(Pause::Cut))
        } else {
            take_step(alloc, program, row, state)
        },
    }
}

/// Goes on with an invocation to its next event, or to why there is none.
pub fn run_on<P: Program>(
    alloc: Global,
    program: &P,
    row: &mut Row,
    state: &mut P::State,
    steps: usize,
) -> Result<Pause, Memory>
    ghost course: { Course }
    requires going { IsGoing course.start course.steps row.old (P.goes program.now state.old) }
    requires free { row.old.asked ≡ None }
    requires within { course.steps ≡ steps }
    ensures next { IfOk result (IsNext (runs_of course.start course.steps) (begun_of row.old)) }
    ensures behind { IfOk result (λ pause. begun_of row.new ≡ behind_pause (begun_of row.old) pause) }
    ensures going { IsGoing course.start course.steps row.new (P.goes program.now state.new) }
    ensures asked { Asked course.steps row.new (P.asks program.now state.new) }
    ensures err { OnErr result (begun_of row.new ≡ begun_of row.old) }
{
    loop {
        if let Some(pause) = one_more(alloc, program, row, state, steps)? {
            return Ok(pause);
        }
    }
}
