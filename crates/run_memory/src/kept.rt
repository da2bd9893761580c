// What variables have that no other invocation sees.
ghost use Rattle.std.specs.Prelude.{◌≡◌, List, Some, option_map, option_and_then};
ghost use Rattle.spv_module.specs.declared.inst.Function.{Function};
ghost use Rattle.op_semantics.specs.Composite.{extracted};
ghost use Rattle.module_semantics.specs.Accesses as accesses;
ghost use Rattle.module_semantics.specs.State as state;
ghost use Rattle.run_acts.specs.About.{value_of, told_of, IsWhole, setting_for, root_of, conf_of};

use group_items::Invocation;
use memory_places::{MemoryMap, class_of};
use run_state::{Conf, Root};
use run_variables::value_at;
use spv_module::{Inst, Value};
use spv_ops::StorageClass;
use value_ops::part_by;

/// What a variable of the module has, if it is in this storage class: a Private one its value, a built-in one what the invocation
/// is told.
fn value_in<'s>(
    map: &'s MemoryMap<'_>,
    inv: &'s Invocation,
    conf: &'s Conf,
    variable: &Inst,
    class: StorageClass,
) -> Option<&'s Value>
    requires { IsWhole inv.now }
    ensures { (fs : List Function) → option_map (λ v. value_of v.now) result ≡ accesses.global_value_by (setting_for map.now (told_of inv.now)) (conf_of fs conf.now) variable.now (Some class) }
{
    match class {
        StorageClass::Private => value_at(conf, Root::Global(variable.result)),
        StorageClass::Input => map.input_value(inv, variable),
        _ => None,
    }
}

fn global_value<'s>(
    map: &'s MemoryMap<'_>,
    inv: &'s Invocation,
    conf: &'s Conf,
    variable: &Inst,
) -> Option<&'s Value>
    requires { IsWhole inv.now }
    ensures { (fs : List Function) → option_map (λ v. value_of v.now) result ≡ accesses.global_value (setting_for map.now (told_of inv.now)) (conf_of fs conf.now) variable.now }
{
    match class_of(variable) {
        None => None,
        Some(class) => value_in(map, inv, conf, variable, class),
    }
}

fn kept_by_module<'s>(
    map: &'s MemoryMap<'_>,
    inv: &'s Invocation,
    conf: &'s Conf,
    id: u32,
) -> Option<&'s Value>
    requires { IsWhole inv.now }
    ensures { (fs : List Function) → option_map (λ v. value_of v.now) result ≡ accesses.kept (setting_for map.now (told_of inv.now)) (conf_of fs conf.now) (state.global id) }
{
    match map.global_variable(id) {
        None => None,
        Some(variable) => global_value(map, inv, conf, variable),
    }
}

/// What the variable has into which a pointer leads, where no other invocation sees it.
fn kept<'s>(
    map: &'s MemoryMap<'_>,
    inv: &'s Invocation,
    conf: &'s Conf,
    root: Root,
) -> Option<&'s Value>
    requires { IsWhole inv.now }
    ensures { (fs : List Function) → option_map (λ v. value_of v.now) result ≡ accesses.kept (setting_for map.now (told_of inv.now)) (conf_of fs conf.now) (root_of root) }
{
    match root {
        Root::Global(id) => kept_by_module(map, inv, conf, id),
        Root::Own(_) => value_at(conf, root),
        Root::Lent(_, _) => value_at(conf, root),
    }
}

/// The part of it to which indexes lead.
pub fn part_kept<'s>(
    map: &'s MemoryMap<'_>,
    inv: &'s Invocation,
    conf: &'s Conf,
    root: Root,
    path: &[u32],
) -> Option<&'s Value>
    requires { IsWhole inv.now }
    ensures { (fs : List Function) → option_map (λ v. value_of v.now) result ≡ option_and_then (extracted path.now) (accesses.kept (setting_for map.now (told_of inv.now)) (conf_of fs conf.now) (root_of root)) }
{
    match kept(map, inv, conf, root) {
        None => None,
        Some(whole) => part_by(whole, path),
    }
}
