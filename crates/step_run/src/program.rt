// What is run step by step.
ghost use Rattle.std.specs.Prelude.{◌≡◌, ◌≢◌, ◌++◌, ℕ, List, [], Option, IfOk, OnErr, IsSome};
ghost use Rattle.traces.specs.Events.{Access};
ghost use Rattle.traces.specs.Invocations.{Invocation as Told};
ghost use Rattle.traces.specs.Runs.{waiting, running, made};
ghost use Rattle.run_law.specs.Walks.{Walk};
ghost use Rattle.group_items.specs.Sides.{told_of, IsWhole};
ghost use Rattle.step_run.specs.Steps.{IsStart, IsStep, event_asked, IsResumed};

use group_items::{Event, Invocation};
use spv_words::Memory;

/// What one step is: it only goes on; it makes events; it asks for the words of one; the invocation has ended; or the step has
/// no meaning.
#[derive(Drop)]
pub enum Step {
    Moves,
    Makes(Vec<Event>),
    Asks(Event),
    Stops,
    Fails,
}

/// A machine of which many invocations are run, each from a state of its own.
pub trait Program {
    type State: Drop;

    /// the specializations that it takes
    ghost takes: { Self → (ℕ → Option ℕ) → Type 0 };

    /// what an invocation that is told this does
    ghost walk: { Self → Told → Walk };

    /// what is done from a state
    ghost goes: { Self → Self.State → Walk };

    /// the access whose words a state is ready to take
    ghost asks: { Self → Self.State → Option Access };

    /// The state at the start; none where the run has no meaning from the start.
    fn start(&self, inv: &Invocation) -> Result<Option<Self::State>, Memory>
        requires told { IsWhole inv.now }
        requires special { takes self.now (told_of inv.now).specialization }
        ensures { IfOk result (λ state. IsStart (walk self.now (told_of inv.now)) (goes self.now) state) };

    /// One step. A step that asks for words leaves the state where it stands, and makes the room that they need. An error leaves
    /// it where it stands too.
    fn step(&self, state: &mut Self::State) -> Result<Step, Memory>
        ensures step { IfOk result (IsStep (goes self.now state.old) (goes self.now state.new) (asks self.now state.new)) }
        ensures err { OnErr result (goes self.now state.new ≡ goes self.now state.old) };

    /// Takes the words that it asked for. It takes no memory.
    fn resume(&self, state: &mut Self::State, words: &[u32])
        requires fits { IsSome (event_asked (asks self.now state.old) words.now) }
        ensures { IsResumed (goes self.now state.old) (goes self.now state.new) words.now (event_asked (asks self.now state.old) words.now) };

    /// no step is made in no step
    ghost stands: { (s : Self) (state : Self.State) (answers : List (List ℕ)) → goes s state answers 0 ≡ made [] running };

    /// a run that does not wait does the same with more answers
    ghost settled: { (s : Self) (told : Told) (answers more : List (List ℕ)) (n : ℕ) → (walk s told answers n).status ≢ waiting → walk s told (answers ++ more) n ≡ walk s told answers n };
}
