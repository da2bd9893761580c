// Operations.
ghost use Rattle.std.specs.Prelude.{◌+◌, ◌<◌, ◌^◌, IfOk, OnErr};
ghost use Rattle.module_semantics.specs.Steps as steps;
ghost use Rattle.run_acts.specs.About.{ForEach, IsStepOf, IsStill};

use run_acts::{Site, set_result};
use run_operands::computed;
use run_state::{Conf, Held};
use spv_words::Memory;
use step_run::Step;

/// An operation: its result is that of its operands. There is an error only for want of memory, and it leaves all as it was.
pub fn operation_step(site: &Site, conf: &mut Conf) -> Result<Step, Memory>
    requires room { conf.old.top.at + 1 < 2 ^ 64 }
    ensures step { ForEach site.now.map.now (λ s. IfOk result (IsStepOf steps.operation_step s conf.old conf.new site.now.inst.now)) }
    ensures err { OnErr result (IsStill site.now.map.now conf.old conf.new) }
{
    match computed(site.alloc, site.map, &conf.top.ids, site.inst)? {
        None => Ok(Step::Fails),
        Some(value) => set_result(conf, site.inst, Held::Value(value)),
    }
}
