// A module as a program.
use crate::kernel::ModuleProgram;
use crate::room::make_room;
use crate::state::State;
use group_items::Invocation;
use spv_words::Memory;
use step_run::{Program, Step};

impl Program for ModuleProgram<'_> {
    ghost use Rattle.std.specs.Prelude.{refl};
    ghost use Rattle.spv_run.specs.Runs.{Takes, walk as walk_of};
    ghost use Rattle.spv_run.specs.States.{goes_from, asked_from};
    ghost use Rattle.spv_run.specs.Settled.{walk_settled};

    type State = State;

    ghost takes = { λ p special. Takes p.map special };

    ghost walk = { λ p told. walk_of p.map told };

    ghost goes = { λ p state. goes_from p.map state };

    ghost asks = { λ p state. asked_from p.map state };

    fn start(&self, inv: &Invocation) -> Result<Option<State>, Memory> {
        match self.first_conf()? {
            None => Ok(None),
            Some(conf) => Ok(Some(State::of(self.alloc, inv, conf)?)),
        }
    }

    fn step(&self, state: &mut State) -> Result<Step, Memory> {
        self.take_all(state)?;
        let step = self.next(&state.told, &mut state.conf)?;
        make_room(self.alloc, &mut state.words, &step)?;
        Ok(step)
    }

    fn resume(&self, state: &mut State, words: &[u32]) {
        state.words.copy_from_slice(words);
        state.taken = true;
    }

    ghost stands = { λ p state answers. refl };

    ghost settled = { λ p told answers more n flows. walk_settled p.map told answers more n flows };
}
