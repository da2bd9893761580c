// Calls.
ghost use Rattle.std.specs.Prelude.{◌≡◌, ◌+◌, ◌<◌, ◌^◌, ℕ, IfOk, OnOk, OnErr, List, map};
ghost use Rattle.spv_module.specs.declared.inst.Function.{Function};
ghost use Rattle.module_semantics.specs.Steps.{argument_of, passed as passed_of};
ghost use Rattle.run_state.specs.Ids.{held_of, found_of, ids_of};
ghost use Rattle.run_state.specs.Confs.{conf_of};
ghost use Rattle.run_calls.specs.Entered.{with_call_on};

use run_state::{Conf, Found, Frame, Held, Ids, Root, put};
use spv_module::Id;
use spv_words::Memory;
use std::alloc::Global;
use std::collections::BTreeMap;
use std::mem::replace;
use value_ops::copied;

/// The indexes of a path again.
fn path_again(alloc: Global, path: &[u32]) -> Result<Vec<u32>, Memory>
    ensures { IfOk result (λ list. list.items ≡ path.now) }
{
    let mut list = Vec::with_capacity(alloc, path.len())?;
    list.extend_from_slice(path)?;
    Ok(list)
}

/// What an argument is in the call, above which so many calls stand: a pointer to a variable of the caller is one to a variable
/// of a call under way.
pub fn passed(alloc: Global, argument: Found<'_>, depth: usize) -> Result<Held, Memory>
    ensures { IfOk result (λ h. held_of h ≡ passed_of depth (found_of argument.entry)) }
{
    match argument {
        Found::Value(value) => Ok(Held::Value(copied(alloc, value)?)),
        Found::Pointer(Root::Own(id), path) => {
            Ok(Held::Pointer(Root::Lent(depth, id), path_again(alloc, path)?))
        }
        Found::Pointer(root, path) => Ok(Held::Pointer(root, path_again(alloc, path)?)),
    }
}

/// What the parameters of a call have, from its arguments in order. Of parameters with one id the first counts.
pub fn arguments(alloc: Global, params: &[(Id, Id)], arguments: Vec<Held>) -> Result<Ids, Memory>
    ensures { IfOk result (λ ids. (q : ℕ) → ids_of ids q ≡ argument_of params.now (map held_of arguments.items) q) }
{
    let mut ids = BTreeMap::new(alloc);
    let mut left = arguments;
    while let Some(argument) = left.pop() {
        match params.get(left.len()) {
            None => {}
            Some(param) => put(&mut ids, param.0.0, argument)?,
        }
    }
    Ok(ids)
}

/// A call begins: the present one waits behind its instruction, whose result has this id. An error leaves all as it was.
pub fn enter(conf: &mut Conf, frame: Frame, waits: u32) -> Result<(), Memory>
    requires room { conf.old.top.at + 1 < 2 ^ 64 }
    ensures entered { OnOk result ((fs : List Function) → conf_of fs conf.new ≡ with_call_on fs conf.old frame waits) }
    ensures err { OnErr result ((fs : List Function) → conf_of fs conf.new ≡ conf_of fs conf.old) }
{
    conf.below.reserve(1)?;
    let mut waiting = replace(&mut conf.top, frame);
    waiting.at += 1;
    conf.below.push((waiting, waits))?;
    Ok(())
}
