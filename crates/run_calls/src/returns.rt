// Calls that return a value.
ghost use Rattle.std.specs.Prelude.{◌≡◌, List, IfOk, OnErr};
ghost use Rattle.spv_module.specs.declared.inst.Function.{Function};
ghost use Rattle.spv_types.specs.View.{value_of};
ghost use Rattle.run_state.specs.Confs.{conf_of};
ghost use Rattle.run_calls.specs.Entered.{HasGiven};

use run_state::{Conf, Held, put};
use spv_module::Value;
use spv_words::Memory;

/// The call below goes on, and the id that waits has this value. Where there is none the answer is false. An error leaves all as
/// it was.
pub fn give(conf: &mut Conf, value: Value) -> Result<bool, Memory>
    ensures given { IfOk result (λ goes. (fs : List Function) → HasGiven fs conf.old conf.new (value_of value) goes) }
    ensures err { OnErr result ((fs : List Function) → conf_of fs conf.new ≡ conf_of fs conf.old) }
{
    match conf.below.pop() {
        None => Ok(false),
        Some((mut frame, id)) => match put(&mut frame.ids, id, Held::Value(value)) {
            Ok(()) => {
                conf.top = frame;
                Ok(true)
            }
            Err(error) => {
                conf.below.push((frame, id))?;
                Err(error)
            }
        },
    }
}
