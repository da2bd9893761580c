// Calls that end.
ghost use Rattle.std.specs.Prelude.{List};
ghost use Rattle.spv_module.specs.declared.inst.Function.{Function};
ghost use Rattle.run_state.specs.Confs.{HasLeft};

use crate::conf::Conf;

/// The call below goes on. Where there is none the answer is false.
pub fn leave(conf: &mut Conf) -> bool
    ghost fs: { List Function }
    ensures { HasLeft fs result conf.old conf.new }
{
    match conf.below.pop() {
        None => false,
        Some((frame, _)) => {
            conf.top = frame;
            true
        }
    }
}
