// A runner of a program's invocations.
ghost use Rattle.std.specs.Prelude.{◌≡◌, ◌<◌, ◌^◌, length};
ghost use Rattle.step_run.specs.KeptAll.{AreKept, AreKept-one, begun_at};

use crate::program::Program;
use crate::row::Thread;
use crate::thread::{begun, give_to, go_on};
use group_items::{Invocation, Pause, Runner};
use spv_words::Memory;
use std::alloc::Global;

/// A runner of invocations of a program, each within so many steps. Where each stands is kept, so that none is run again from its
/// start.
#[derive(Drop)]
pub struct Machine<P: Program> {
    alloc: Global,
    program: P,
    steps: usize,
    threads: Vec<Thread<P::State>>,
    ghost small: { steps < 2 ^ 64 },
    ghost kept: { AreKept (P.walk program) steps (P.goes program) (P.asks program) threads.items } by { AreKept-one (P.walk program) steps (P.goes program) (P.asks program) threads.items },
}

impl<P: Program> Machine<P> {
    /// A runner that has no invocation yet.
    pub fn new(alloc: Global, program: P, steps: usize) -> Machine<P>
        ensures program { result.program ≡ program }
        ensures steps { result.steps ≡ steps }
        ensures none { length result.threads.items ≡ 0 }
    {
        Machine {
            alloc,
            program,
            steps,
            threads: Vec::new(alloc),
        }
    }
}

impl<P: Program> Runner for Machine<P> {
    ghost runs = { λ m told answers. P.walk m.program told answers m.steps };

    ghost takes = { λ m special. P.takes m.program special };

    ghost count = { λ m. length m.threads.items };

    ghost at = { λ m. begun_at m.threads.items };

    fn begin(&mut self, inv: &Invocation) -> Result<usize, Memory> {
        let thread = begun(self.alloc, &self.program, inv)?;
        let who = self.threads.len();
        self.threads.push(thread)?;
        Ok(who)
    }

    fn advance(&mut self, who: usize) -> Result<Pause, Memory> {
        go_on(
            self.alloc,
            &self.program,
            &mut self.threads[who],
            self.steps,
        )
    }

    fn give(&mut self, who: usize, words: &[u32]) {
        give_to(&self.program, &mut self.threads[who], words)
    }

    ghost settled = { λ m told answers more flows. P.settled m.program told answers more m.steps flows };
}
