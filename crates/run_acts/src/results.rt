// Results of steps.
ghost use Rattle.std.specs.Prelude.{◌≡◌, ◌+◌, ◌<◌, ◌^◌, List, [], IfOk, OnErr};
ghost use Rattle.spv_module.specs.declared.inst.Function.{Function};
ghost use Rattle.traces.specs.Runs.{goes};
ghost use Rattle.module_semantics.specs.Steps as steps;
ghost use Rattle.run_state.specs.Ids.{held_of};
ghost use Rattle.run_state.specs.Confs.{behind, conf_of};
ghost use Rattle.run_acts.specs.Acts.{IsAct};

use run_state::{Conf, Held, set};
use spv_module::Inst;
use spv_words::Memory;
use step_run::Step;

/// Goes on behind an instruction, whose result has this from now on. An error leaves all as it was.
#[tactic(auto, using(run_state::proofs::States::same_conf))]
pub fn set_result(conf: &mut Conf, inst: &Inst, held: Held) -> Result<Step, Memory>
    requires room { conf.old.top.at + 1 < 2 ^ 64 }
    ensures set { (fs : List Function) → IfOk result (IsAct (goes [] (steps.set (conf_of fs conf.old) (behind fs conf.old) inst.now (held_of held))) (conf_of fs conf.old) (conf_of fs conf.new)) }
    ensures err { OnErr result ((fs : List Function) → conf_of fs conf.new ≡ conf_of fs conf.old) }
{
    set(conf, inst.result, held)?;
    Ok(Step::Moves)
}
