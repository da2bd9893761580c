// What variables have.
ghost use Rattle.std.specs.Prelude.{◌≡◌, List, option_map};
ghost use Rattle.spv_module.specs.declared.inst.Function.{Function};
ghost use Rattle.spv_types.specs.View.{value_of};
ghost use Rattle.run_state.specs.Ids.{variables_of, root_of};
ghost use Rattle.run_state.specs.Confs.{conf_of};
ghost use Rattle.run_variables.specs.Stored.{HasStored, HasKept, kept_by};

use run_state::{Conf, Root};
use spv_module::Value;
use std::collections::BTreeMap;
use value_ops::put_part;

fn found(variables: &BTreeMap<u32, Value>, id: u32) -> Option<&Value>
    ensures { option_map (λ v. value_of v.now) result ≡ variables_of variables.now id }
{
    variables.get(&id)
}

/// What the variable has into which a pointer leads: of the present call, of a call under way, or Private.
pub fn value_at(conf: &Conf, root: Root) -> Option<&Value>
    ensures { (fs : List Function) → option_map (λ v. value_of v.now) result ≡ kept_by (conf_of fs conf.now) (root_of root) }
{
    match root {
        Root::Global(id) => found(&conf.privates, id),
        Root::Own(id) => found(&conf.top.variables, id),
        Root::Lent(depth, id) => match conf.below.get(depth) {
            None => None,
            Some(call) => found(&call.0.variables, id),
        },
    }
}

/// Puts a value in the place of a part of a variable. Where there is no such part the answer is false, and nothing changes.
fn store(variables: &mut BTreeMap<u32, Value>, id: u32, path: &[u32], value: Value) -> bool
    ensures { HasStored (variables_of variables.old) (variables_of variables.new) id path.now (value_of value) result }
{
    match variables.get_mut(&id) {
        None => false,
        Some(whole) => put_part(whole, path, value),
    }
}

/// Puts a value in the place of a part of the variable into which a pointer leads. Where there is no such part the answer is
/// false, and nothing changes. It takes no memory.
pub fn store_at(conf: &mut Conf, root: Root, path: &[u32], value: Value) -> bool
    ensures at { conf.new.top.at ≡ conf.old.top.at }
    ensures kept { (fs : List Function) → HasKept (conf_of fs conf.old) (conf_of fs conf.new) (root_of root) path.now (value_of value) result }
{
    match root {
        Root::Global(id) => store(&mut conf.privates, id, path, value),
        Root::Own(id) => store(&mut conf.top.variables, id, path, value),
        Root::Lent(depth, id) => match conf.below.get_mut(depth) {
            None => false,
            Some(call) => store(&mut call.0.variables, id, path, value),
        },
    }
}
