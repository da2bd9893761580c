// One instruction.
ghost use Rattle.std.specs.Prelude.{◌≡◌, ◌+◌, ◌<◌, ◌^◌, List, IfOk, OnErr};
ghost use Rattle.spv_module.specs.declared.inst.Function.{Function};
ghost use Rattle.module_semantics.specs.Steps as steps;
ghost use Rattle.run_acts.specs.About.{told_of, IsWhole, setting_for, ForEach, conf_of, function_at, IsAct, IsStepOf, IsStill};
ghost use Rattle.spv_run.specs.Runs.{act_by};

use crate::kernel::ModuleProgram;
use group_items::Invocation;
use run_acts::Site;
use run_flow::{Routine, branch_step, call_step, merge_step, return_step, return_value_step};
use run_memory::{Barrier, atomic_step, barrier_step, load_step, store_step};
use run_state::{Conf, based_on};
use run_values::{chain_step, length_step, operation_step, variable_step};
use spv_module::Inst;
use spv_ops::{OpGroup, Terminator};
use spv_words::Memory;
use step_run::Step;

/// A chain of indexes, with those that are based on it.
fn chain(site: &Site, routine: &Routine<'_>, conf: &mut Conf) -> Result<Step, Memory>
    requires here { function_at site.now.map.now.of.functions conf.old.top.function ≡ routine.now }
    requires room { conf.old.top.at + 1 < 2 ^ 64 }
    ensures step { ForEach site.now.map.now (λ s. IfOk result (IsStepOf steps.chain_step s conf.old conf.new site.now.inst.now)) }
    ensures err { OnErr result (IsStill site.now.map.now conf.old conf.new) }
{
    match routine.based_on(site.inst.result) {
        Some(based) => chain_step(site, routine.locals(), based, conf),
        None => {
            let based = based_on(site.alloc, routine.locals(), site.inst.result)?;
            chain_step(site, routine.locals(), based.as_slice(), conf)
        }
    }
}

/// The last instruction of a block.
fn finish_block(
    site: &Site,
    end: Terminator,
    routine: &Routine<'_>,
    conf: &mut Conf,
) -> Result<Step, Memory>
    ghost fs: { List Function }
    requires functions { fs ≡ site.now.map.now.of.functions }
    requires here { function_at site.now.map.now.of.functions conf.old.top.function ≡ routine.now }
    ensures step { ForEach site.now.map.now (λ s. IfOk result (IsStepOf (steps.step_by (steps.step_at_end end)) s conf.old conf.new site.now.inst.now)) }
    ensures err { OnErr result (IsStill site.now.map.now conf.old conf.new) }
{
    match end {
        Terminator::Branch | Terminator::BranchConditional | Terminator::Switch => {
            branch_step(site, routine.locals(), end, conf)
        }
        Terminator::Return => Ok(return_step(conf)),
        Terminator::ReturnValue => return_value_step(site, conf),
        Terminator::Unreachable => Ok(Step::Fails),
    }
}

impl<'a> ModuleProgram<'a> {
    /// An instruction by its group.
    fn step_in(
        &self,
        group: OpGroup,
        inv: &Invocation,
        routine: &Routine<'_>,
        conf: &mut Conf,
        inst: &Inst,
    ) -> Result<Step, Memory>
        requires told { IsWhole inv.now }
        requires here { function_at self.now.map.of.functions conf.old.top.function ≡ routine.now }
        requires room { conf.old.top.at + 1 < 2 ^ 64 }
        ensures step { IfOk result (IsStepOf (steps.step_by (steps.step_in group)) (setting_for self.now.map (told_of inv.now)) conf.old conf.new inst.now) }
        ensures err { OnErr result (IsStill self.now.map conf.old conf.new) }
    {
        let site = Site {
            alloc: self.alloc,
            map: &self.map,
            inst,
        };
        match group {
            OpGroup::Variable => variable_step(self.alloc, conf, inst),
            OpGroup::Load => load_step(&site, inv, conf),
            OpGroup::Store => store_step(&site, inv, conf),
            OpGroup::Chain => chain(&site, routine, conf),
            OpGroup::ArrayLength => length_step(&site, inv, conf),
            OpGroup::Atomic(op) => atomic_step(&site, op, conf),
            OpGroup::ControlBarrier => barrier_step(&site, Barrier::Control, conf),
            OpGroup::MemoryBarrier => barrier_step(&site, Barrier::Memory, conf),
            OpGroup::Call => call_step(&site, &self.routines, conf),
            OpGroup::Merge => Ok(merge_step(conf)),
            OpGroup::Terminator(end) => finish_block(&site, end, routine, conf),
            // each other group is one of operations
            _ => operation_step(&site, conf),
        }
    }

    /// The next instruction.
    pub(crate) fn next(&self, inv: &Invocation, conf: &mut Conf) -> Result<Step, Memory>
        requires told { IsWhole inv.now }
        ensures step { IfOk result (IsAct (act_by (setting_for self.now.map (told_of inv.now)) (conf_of self.now.map.of.functions conf.old)) (conf_of self.now.map.of.functions conf.old) (conf_of self.now.map.of.functions conf.new)) }
        ensures err { OnErr result (IsStill self.now.map conf.old conf.new) }
    {
        match self.fetch(conf) {
            None => Ok(Step::Fails),
            Some((routine, inst)) => self.step_in(inst.op.group(), inv, routine, conf, inst),
        }
    }
}
