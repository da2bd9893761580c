// Steps that make events.
ghost use Rattle.std.specs.Prelude.{◌≡◌, ◌+◌, ◌<◌, ◌^◌, List, [], map};
ghost use Rattle.spv_module.specs.declared.inst.Function.{Function};
ghost use Rattle.traces.specs.Runs.{goes};
ghost use Rattle.group_items.specs.Events.{event_of};
ghost use Rattle.step_run.specs.Answers.{answers_in};
ghost use Rattle.module_semantics.specs.Steps.{advanced};
ghost use Rattle.run_acts.specs.About.{behind, conf_of, IsAct};

use group_items::Event;
use run_state::{Conf, advance};
use step_run::Step;

/// Goes on behind an instruction that makes these events, of which none takes words.
pub fn make(conf: &mut Conf, events: Vec<Event>) -> Step
    requires room { conf.old.top.at + 1 < 2 ^ 64 }
    requires given { answers_in (map event_of events.items) ≡ [] }
    ensures { (fs : List Function) → IsAct (goes (map event_of events.items) (advanced (conf_of fs conf.old) (behind fs conf.old))) (conf_of fs conf.old) (conf_of fs conf.new) result }
{
    advance(conf);
    Step::Makes(events)
}
