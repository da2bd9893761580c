// The instruction that is next.
ghost use Rattle.std.specs.Prelude.{◌≡◌, ◌∷◌, ◌<◌, [], drop, MatchOption};
ghost use Rattle.run_state.specs.Confs.{left_at, frame_of};
ghost use Rattle.spv_run.specs.Fetched.{IsFirst, IsFirstAt, IsNext};

use crate::kernel::ModuleProgram;
use run_flow::Routine;
use run_state::Conf;
use spv_module::{Function, Inst};

/// The instruction at a place.
fn inst_at(insts: &[Inst], at: usize) -> Option<&Inst>
    ensures { MatchOption result (drop at insts.now ≡ []) (λ i. IsFirst insts.now at i.now) }
{
    if at < insts.len() {
        Some(&insts[at])
    } else {
        None
    }
}

/// The instruction at a place of a block of a function.
fn inst_in(function: &Function, block: usize, at: usize) -> Option<&Inst>
    ensures { MatchOption result (left_at function.now block at ≡ []) (λ i. IsFirstAt function.now block at i.now) }
{
    match function.blocks.as_slice().get(block) {
        None => None,
        Some(block) => inst_at(block.insts.as_slice(), at),
    }
}

impl<'a> ModuleProgram<'a> {
    /// The instruction that is next with its function, and `None` exactly where there is none.
    pub(crate) fn fetch<'s>(&'s self, conf: &Conf) -> Option<(&'s Routine<'a>, &'s Inst)>
        ensures { MatchOption result ((frame_of self.now.map.of.functions conf.now.top).rest ≡ []) (λ p. IsNext self.now.map conf.now p.0.now p.1.now) }
    {
        match self.routines.get(conf.top.function) {
            None => None,
            Some(routine) => match inst_in(routine.function(), conf.top.block, conf.top.at) {
                None => None,
                Some(inst) => Some((routine, inst)),
            },
        }
    }
}
