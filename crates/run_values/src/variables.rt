// Variables of functions, and lengths of arrays in variables.
ghost use Rattle.std.specs.Prelude.{◌≡◌, ◌+◌, ◌<◌, ◌^◌, List, IfOk, OnErr, option_and_then};
ghost use Rattle.std.specs.Option.{option_copied};
ghost use Rattle.spv_module.specs.declared.inst.Function.{Function};
ghost use Rattle.module_semantics.specs.Setting.{Setting};
ghost use Rattle.module_semantics.specs.Operands.{Target};
ghost use Rattle.module_semantics.specs.Accesses as accesses;
ghost use Rattle.module_semantics.specs.Steps as steps;
ghost use Rattle.run_operands.specs.Looks.{pointer_by};
ghost use Rattle.run_acts.specs.About.{told_of, setting_for, ForEach, ids_of, conf_of, IsStepOf, IsStill};

use group_items::Invocation;
use memory_places::MemoryMap;
use run_acts::{Site, seen, set_result};
use run_operands::pointer;
use run_state::{Conf, Held, Ids, Root};
use spv_module::{Inst, Value};
use spv_words::Memory;
use std::alloc::Global;
use step_run::Step;

/// The variable into which an id leads, if other invocations see it.
fn seen_from<'a>(map: &MemoryMap<'a>, ids: &Ids, id: u32) -> Option<&'a Inst>
    ensures { ForEach map.now (λ s. option_copied result ≡ option_and_then (λ (p : Target). accesses.seen s p.0) (pointer_by map.now (ids_of ids.now) id)) }
{
    match pointer(map, ids, id) {
        None => None,
        Some((root, _)) => seen(map, root),
    }
}

/// OpArrayLength: the elements of the runtime array that is a member of a block, where the invocation is told the sizes of buffers.
/// There is an error only for want of memory, and it leaves all as it was.
pub fn length_step(site: &Site, inv: &Invocation, conf: &mut Conf) -> Result<Step, Memory>
    requires room { conf.old.top.at + 1 < 2 ^ 64 }
    ensures step { IfOk result (IsStepOf steps.length_step (setting_for site.now.map.now (told_of inv.now)) conf.old conf.new site.now.inst.now) }
    ensures err { OnErr result (IsStill site.now.map.now conf.old conf.new) }
{
    match seen_from(site.map, &conf.top.ids, site.inst.operand(0)) {
        None => Ok(Step::Fails),
        Some(variable) => {
            let count = site
                .map
                .elements(inv.sizes.as_slice(), variable, site.inst.operand(1));
            set_result(conf, site.inst, Held::Value(Value::Word(count)))
        }
    }
}

/// OpVariable in a function: its result is a pointer to it. There is an error only for want of memory, and it leaves all as it was.
pub fn variable_step(alloc: Global, conf: &mut Conf, inst: &Inst) -> Result<Step, Memory>
    requires room { conf.old.top.at + 1 < 2 ^ 64 }
    ensures step { (s : Setting) → IfOk result (IsStepOf steps.variable_step s conf.old conf.new inst.now) }
    ensures err { OnErr result ((fs : List Function) → conf_of fs conf.new ≡ conf_of fs conf.old) }
{
    match conf.top.variables.get(&inst.result) {
        None => Ok(Step::Fails),
        Some(_) => {
            let held = Held::Pointer(Root::Own(inst.result), Vec::new(alloc));
            set_result(conf, inst, held)
        }
    }
}
