// Calls that end, and instructions of which nothing is to do.
ghost use Rattle.std.specs.Prelude.{◌≡◌, ◌+◌, ◌<◌, ◌^◌, List, [], IfOk, OnErr, option_map};
ghost use Rattle.spv_module.specs.declared.inst.Function.{Function};
ghost use Rattle.traces.specs.Runs.{goes};
ghost use Rattle.module_semantics.specs.Steps as steps;
ghost use Rattle.run_operands.specs.Looks.{value_by};
ghost use Rattle.run_acts.specs.About.{value_of, ForEach, ids_of, behind, conf_of, narrowed, IsAct, IsStepOf, IsStill};
ghost use Rattle.run_flow.specs.Flow.{return_value_by};

use memory_places::MemoryMap;
use run_acts::Site;
use run_calls::give;
use run_operands::value;
use run_state::{Conf, Ids, advance, leave};
use spv_module::Value;
use spv_words::Memory;
use std::alloc::Global;
use step_run::Step;
use value_ops::copied;

/// OpSelectionMerge, OpLoopMerge (SPIR-V 1.6, section "Control-Flow Instructions"): the next instruction is next.
pub fn merge_step(conf: &mut Conf) -> Step
    requires room { conf.old.top.at + 1 < 2 ^ 64 }
    ensures { (fs : List Function) → IsAct (goes [] (steps.advanced (conf_of fs conf.old) (behind fs conf.old))) (conf_of fs conf.old) (conf_of fs conf.new) result }
{
    advance(conf);
    Step::Moves
}

/// OpReturn (SPIR-V 1.6, section "Control-Flow Instructions"): the call below goes on, and with the first call the invocation ends.
pub fn return_step(conf: &mut Conf) -> Step
    ghost fs: { List Function }
    ensures { IsAct (narrowed (steps.return_step (conf_of fs conf.old) (conf_of fs conf.old).below)) (conf_of fs conf.old) (conf_of fs conf.new) result }
{
    if leave(conf) {
        Step::Moves
    } else {
        Step::Stops
    }
}

/// The value of an id, once more.
fn value_again(
    alloc: Global,
    map: &MemoryMap<'_>,
    ids: &Ids,
    id: u32,
) -> Result<Option<Value>, Memory>
    ensures { IfOk result (λ v. option_map value_of v ≡ value_by map.now (ids_of ids.now) id) }
{
    match value(map, ids, id) {
        None => Ok(None),
        Some(value) => Ok(Some(copied(alloc, value)?)),
    }
}

/// The call below goes on with a value.
fn give_back(conf: &mut Conf, value: Value) -> Result<Step, Memory>
    ensures step { (fs : List Function) → IfOk result (IsAct (narrowed (steps.given_to (value_of value) (conf_of fs conf.old) (conf_of fs conf.old).below)) (conf_of fs conf.old) (conf_of fs conf.new)) }
    ensures err { OnErr result ((fs : List Function) → conf_of fs conf.new ≡ conf_of fs conf.old) }
{
    if give(conf, value)? {
        Ok(Step::Moves)
    } else {
        Ok(Step::Stops)
    }
}

/// OpReturnValue (SPIR-V 1.6, section "Control-Flow Instructions"): the call below goes on with the value, and with the first call the
/// invocation ends. There is no meaning where the operand has no value. There is an error only for want of memory, which leaves all
/// as it was.
pub fn return_value_step(site: &Site, conf: &mut Conf) -> Result<Step, Memory>
    ensures step { ForEach site.now.map.now (λ s. IfOk result (IsStepOf return_value_by s conf.old conf.new site.now.inst.now)) }
    ensures err { OnErr result (IsStill site.now.map.now conf.old conf.new) }
{
    match value_again(site.alloc, site.map, &conf.top.ids, site.inst.operand(0))? {
        None => Ok(Step::Fails),
        Some(value) => give_back(conf, value),
    }
}
