// An invocation under way, from its start on.
ghost use Rattle.std.specs.Prelude.{◌≡◌, ◌<◌, ◌^◌, ℕ, None, IfOk, OnErr, IsSome};
ghost use Rattle.group_items.specs.Sides.{told_of, IsWhole, fresh, IsNext, behind_pause, event_with, behind_event};
ghost use Rattle.step_run.specs.Kept.{begun_of};
ghost use Rattle.step_run.specs.KeptAll.{IsKept};

use crate::answer::answer;
use crate::going::run_on;
use crate::program::Program;
use crate::row::{Row, Thread};
use crate::told::retold;
use group_items::{Invocation, Pause};
use spv_words::Memory;
use std::alloc::Global;

/// An invocation that has begun.
pub fn begun<P: Program>(
    alloc: Global,
    program: &P,
    inv: &Invocation,
) -> Result<Thread<P::State>, Memory>
    requires told { IsWhole inv.now }
    requires special { P.takes program.now (told_of inv.now).specialization }
    ensures kept { IfOk result (λ t. (steps : ℕ) → IsKept (P.walk program.now) steps (P.goes program.now) (P.asks program.now) t.row t.state) }
    ensures fresh { IfOk result (λ t. begun_of t.row ≡ fresh (told_of inv.now)) }
{
    let state = program.start(inv)?;
    let row = Row {
        inv: retold(alloc, inv)?,
        told: Vec::new(alloc),
        untold: Vec::new(alloc),
        asked: None,
        used: 0,
    };
    Ok(Thread { row, state })
}

/// Goes on with an invocation of which nothing is asked.
pub fn go_on<P: Program>(
    alloc: Global,
    program: &P,
    thread: &mut Thread<P::State>,
    steps: usize,
) -> Result<Pause, Memory>
    requires kept { IsKept (P.walk program.now) steps (P.goes program.now) (P.asks program.now) thread.old.row thread.old.state }
    requires free { (begun_of thread.old.row).asked ≡ None }
    ensures next { IfOk result (IsNext (λ told answers. P.walk program.now told answers steps) (begun_of thread.old.row)) }
    ensures behind { IfOk result (λ pause. begun_of thread.new.row ≡ behind_pause (begun_of thread.old.row) pause) }
    ensures kept { IsKept (P.walk program.now) steps (P.goes program.now) (P.asks program.now) thread.new.row thread.new.state }
    ensures err { OnErr result (begun_of thread.new.row ≡ begun_of thread.old.row) }
{
    match &mut thread.state {
        None => Ok(Pause::Undefined),
        Some(state) => run_on(alloc, program, &mut thread.row, state, steps),
    }
}

/// Gives an invocation the words that are asked of it. It takes no memory.
pub fn give_to<P: Program>(program: &P, thread: &mut Thread<P::State>, words: &[u32])
    requires kept { (steps : ℕ) × ((steps < 2 ^ 64) × IsKept (P.walk program.now) steps (P.goes program.now) (P.asks program.now) thread.old.row thread.old.state) }
    requires fits { IsSome (event_with (begun_of thread.old.row) words.now) }
    ensures kept { (steps : ℕ) → IsKept (P.walk program.now) steps (P.goes program.now) (P.asks program.now) thread.old.row thread.old.state → IsKept (P.walk program.now) steps (P.goes program.now) (P.asks program.now) thread.new.row thread.new.state }
    ensures moved { begun_of thread.new.row ≡ behind_event (begun_of thread.old.row) (event_with (begun_of thread.old.row) words.now) }
{
    if let Some(state) = &mut thread.state {
        program.resume(state, words);
        answer(&mut thread.row, words);
    }
}
