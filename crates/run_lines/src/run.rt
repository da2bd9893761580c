// Runs of cases, and what they say.
ghost use Rattle.std.specs.Prelude.{◌≡◌, string_bytes, IfOk, IsErrOf, IsTrue, MatchBool};
ghost use Rattle.std.specs.BTreeMap.{get};
ghost use Rattle.std.specs.Ordering.{nat_cmp};
ghost use Rattle.dispatch_case.specs.Three.{triple_of};
ghost use Rattle.dispatch_case.specs.Cases.{parts_of, is_fine};
ghost use Rattle.group_sched.specs.Sides.{AreAbove};
ghost use Rattle.run_lines.specs.Said.{AreIdleLines, IsCrowded, IsHeavy, IsNobody, IsSaid, walks};

use crate::lines::{count_of, lines_of};
use group_sched::{Case, End, Runner, Stop, dispatch, first_memory};
use spv_words::Memory;
use std::alloc::Global;
use std::collections::BTreeMap;
use step_run::{Machine, Program};

/// Whether there is no invocation in a workgroup of this size.
fn is_empty(size: [u32; 3]) -> bool
    ensures { MatchBool result (IsNobody (triple_of size)) (AreAbove (triple_of size)) }
{
    size[0] == 0 || size[1] == 0 || size[2] == 0
}

/// The lines of a case where no invocation does anything.
fn idle_lines(alloc: Global, case: &Case) -> Result<String, Memory>
    requires { IsTrue (is_fine (parts_of case.now)) }
    ensures { IfOk result (λ text. AreIdleLines (parts_of case.now) (string_bytes text)) }
{
    let store = first_memory(alloc, 1, case)?;
    lines_of(alloc, &case.buffers, &store, 0, End::Ended)
}

/// Runs a case, and gives its lines: for each buffer, in the order of sets and bindings, `S.B:` and its words behind the last event,
/// each behind a blank; `events` and how many there were; and `ended`, `waiting`, `undefined` and the number of an invocation, or
/// `cut` and that. A workgroup has the size `size`; the side has no invocation yet, and is one of runs within some number of
/// steps or turns. `Stop::Invocations` comes exactly where there are more than 1024 invocations, `Stop::Events` exactly where
/// events and their scalars, added, are more than 1048576.
pub fn run_side<R: Runner>(
    alloc: Global,
    side: &mut R,
    case: &Case,
    size: [u32; 3],
    special: BTreeMap<u32, u32>,
) -> Result<String, Stop>
    requires fine { IsTrue (is_fine (parts_of case.now)) }
    requires takes { R.takes side.old (get nat_cmp special) }
    requires none { R.count side.old ≡ 0 }
    ensures said { IfOk result (λ text. IsSaid (parts_of case.now) (triple_of size) (get nat_cmp special) (R.runs side.old) (string_bytes text)) }
    ensures invocations { IsErrOf result Stop.Invocations → IsCrowded (parts_of case.now) (triple_of size) }
    ensures events { IsErrOf result Stop.Events → IsHeavy (parts_of case.now) (triple_of size) (get nat_cmp special) (R.runs side.old) }
{
    if is_empty(size) {
        Ok(idle_lines(alloc, case)?)
    } else {
        let outcome = dispatch(alloc, side, case, size, special)?;
        let count = count_of(&outcome.events);
        Ok(lines_of(alloc, &case.buffers, &outcome.store, count, outcome.end)?)
    }
}

/// The same of a program, each invocation of which makes as many steps as the case allows.
pub fn run_program<P: Program + Drop>(
    alloc: Global,
    program: P,
    case: &Case,
    size: [u32; 3],
    special: BTreeMap<u32, u32>,
) -> Result<String, Stop>
    requires fine { IsTrue (is_fine (parts_of case.now)) }
    requires takes { P.takes program (get nat_cmp special) }
    ensures said { IfOk result (λ text. IsSaid (parts_of case.now) (triple_of size) (get nat_cmp special) (walks (P.walk program) case.now.steps) (string_bytes text)) }
    ensures invocations { IsErrOf result Stop.Invocations → IsCrowded (parts_of case.now) (triple_of size) }
    ensures events { IsErrOf result Stop.Events → IsHeavy (parts_of case.now) (triple_of size) (get nat_cmp special) (walks (P.walk program) case.now.steps) }
{
    let mut machine = Machine::new(alloc, program, case.steps as usize);
    run_side(alloc, &mut machine, case, size, special)
}
