// The judges of a module, one after another.
ghost use Rattle.std.specs.Prelude.{◌≡◌, Contains, IfErr, IfOk, OnOk, map};
ghost use Rattle.structure_rules.specs.Graph.{graph};
ghost use Rattle.profile_rules.specs.Calls.{AreCalleesFunctions, HaveOwnIds, IsCallOrder, ids_of, numbers};
ghost use Rattle.profile_rules.specs.Entry.{group_size};
ghost use Rattle.module_check.specs.Asked.{asked};
ghost use Rattle.module_check.specs.Judged.{IsRead, IsFineLater, IsLaterFault, IsFine, IsFault, IsEntry};

use crate::structure::check_structure;
use call_order::order;
use nest_place::Places;
use profile_check::{Entry, Options, check_declarations, check_rest, locals_of};
use spec_constants::Overrides;
use spv_decor::Decor;
use spv_index::Locals;
use spv_module::{Id, Module};
use spv_words::Fault;
use std::alloc::Global;
use type_rules::check_types;

/// What is known of a module that conforms: its entry point, the functions that calls reach from there,
/// callees first, and of each function of the module, in their order, the places of its blocks and what
/// it defines.
#[derive(Drop)]
pub struct Conforming<'m> {
    pub entry: Entry,
    pub order: Vec<Id>,
    pub places: Vec<Places>,
    pub locals: Vec<Locals<'m>>,
}

/// Judges layouts, accesses, overrides, structure and calls, where no rule on types is broken.
#[tactic(auto, using(crate::proofs::Causes::later_causes))]
fn check_later<'m>(
    alloc: Global,
    module: &'m Module,
    decor: &Decor,
    overrides: &Overrides,
    locals: Vec<Locals<'m>>,
    entry: Entry,
) -> Result<Conforming<'m>, Fault>
    requires heads { decor.now ≡ «module».now.heads }
    requires locals { locals.items ≡ «module».now.functions }
    requires own_ids { HaveOwnIds «module».now.functions }
    requires callees { AreCalleesFunctions «module».now.functions }
    requires entry { Contains (ids_of «module».now.functions) entry.function.0 }
    ensures passes { OnOk result (IsFineLater «module».now overrides.now.pairs.items entry.function.0) }
    ensures entry { IfOk result (λ found. found.entry ≡ entry) }
    ensures order { IfOk result (λ found. IsCallOrder «module».now.functions entry.function.0 (numbers found.order.items)) }
    ensures places { IfOk result (λ found. found.places.items ≡ map graph «module».now.functions) }
    ensures locals { IfOk result (λ found. found.locals.items ≡ «module».now.functions) }
    ensures refused { IfErr result (IsLaterFault «module».now overrides.now.pairs.items entry.function.0) }
{
    check_rest(alloc, module, decor, locals.as_slice(), overrides)?;
    let places = check_structure(alloc, locals.as_slice())?;
    let order = order(alloc, module, entry.function)?;
    Ok(Conforming {
        entry,
        order,
        places,
        locals,
    })
}

/// Judges a module that was read: its declarations, its types, and then the rest. It refuses by the
/// first of these that finds a rule broken or a limit exceeded.
#[tactic(auto, using(crate::proofs::Causes::declarations_fault))]
pub fn check_module<'m>(
    alloc: Global,
    module: &'m Module,
    decor: &Decor,
    options: &Options,
) -> Result<Conforming<'m>, Fault>
    requires heads { decor.now ≡ «module».now.heads }
    requires read { IsRead «module».now }
    ensures passes { OnOk result (IsFine «module».now (asked options.now)) }
    ensures entry { IfOk result (λ found. IsEntry «module».now (asked options.now) found.entry.function.0) }
    ensures size { IfOk result (λ found. found.entry.size.items ≡ group_size «module».now found.entry.function.0) }
    ensures order { IfOk result (λ found. IsCallOrder «module».now.functions found.entry.function.0 (numbers found.order.items)) }
    ensures places { IfOk result (λ found. found.places.items ≡ map graph «module».now.functions) }
    ensures locals { IfOk result (λ found. found.locals.items ≡ «module».now.functions) }
    ensures refused { IfErr result (IsFault «module».now (asked options.now)) }
{
    let entry = check_declarations(alloc, module, decor, options.entry_name())?;
    let locals = locals_of(alloc, module.functions())?;
    check_types(alloc, module, locals.as_slice())?;
    check_later(alloc, module, decor, &options.overrides, locals, entry)
}

/// Judges a module that was read, as `check_module` does, where nothing else is asked of it.
pub fn judge(alloc: Global, module: &Module, decor: &Decor, options: &Options) -> Result<(), Fault>
    requires heads { decor.now ≡ «module».now.heads }
    requires read { IsRead «module».now }
    ensures passes { OnOk result (IsFine «module».now (asked options.now)) }
    ensures refused { IfErr result (IsFault «module».now (asked options.now)) }
{
    let _ = check_module(alloc, module, decor, options)?;
    Ok(())
}
