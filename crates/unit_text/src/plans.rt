// The plans of the functions that calls reach.
ghost use Rattle.std.specs.Prelude.{◌≡◌, ◌==◌, ℕ, Some, drop, filter, IfOk, OnOk, map, option_copied, slice_get};
ghost use Rattle.std.specs.List.{All, AllZip, list_any};
ghost use Rattle.std.specs.Vec.Iter.{into_iter_items};
ghost use Rattle.id_map.specs.Entries.{is_in};
ghost use Rattle.structure_rules.specs.Graph.{graph};
ghost use Rattle.use_chains.specs.Small.{IsSmall};
ghost use Rattle.text_items.specs.State.{functions_at};
ghost use Rattle.function_plan.specs.Plans.{IsPlanned};
ghost use Rattle.unit_text.specs.Reached.{IsPlannedNext, function_in, id_in, is_among, ArePlaces, planned_at};
ghost use Rattle.unit_rules.specs.Unit.{called as called_in};

use function_plan::FunctionPlan;
use id_map::IdSet;
use nest_place::Places as Nested;
use spv_index::{Locals, Places, places_of};
use spv_module::{Function, Id, Module};
use spv_words::Memory;
use std::alloc::{AllocError, Global};
use std::sync::ledger::{Blank, Ledger};
use std::vec::IntoIter;
use use_chains::Steps;

/// The ids of functions as a set.
fn ids_of(alloc: Global, module: &Module, order: &[Id]) -> Result<IdSet, AllocError>
    ensures { IfOk result (λ ids. (n : ℕ) → is_in ids n ≡ list_any (λ id. id.0 == n) order.now) }
{
    let mut ids = IdSet::below(alloc, module.bound(), order.len())?;
    for id in order {
        ids.insert(id.0)?;
    }
    Ok(ids)
}

/// Adds the plan of a function that has the first of these places, where its id is among these.
fn add_next<'a, L: Ledger>(
    plans: &mut Vec<FunctionPlan<'a>>,
    alloc: Global,
    module: &'a Module,
    ids: &IdSet,
    locals: Locals<'a>,
    places: &mut IntoIter<Nested>,
    steps: &mut Steps<L>,
) -> Result<(), Memory>
    requires places { slice_get (into_iter_items places.old) 0 ≡ Some (graph locals) }
    requires small { IsSmall locals }
    ensures plans { OnOk result (IsPlannedNext «module».now (is_among ids.now) locals.entry plans.old.items plans.new.items) }
    ensures rest { into_iter_items places.new ≡ drop 1 (into_iter_items places.old) }
{
    match places.next() {
        None => Ok(()),
        Some(own) => {
            if ids.has(locals.function().id.0) {
                let plan = FunctionPlan::of(alloc, module, locals, own, steps)?;
                plans.push(plan)?;
            }
            Ok(())
        }
    }
}

/// The plans of those functions whose ids are among these. Each function has places.
fn plans_with<'a, L: Ledger>(
    alloc: Global,
    module: &'a Module,
    ids: &IdSet,
    count: usize,
    locals: Vec<Locals<'a>>,
    places: Vec<Nested>,
    steps: &mut Steps<L>,
) -> Result<Vec<FunctionPlan<'a>>, Memory>
    requires places { places.items ≡ map graph locals.items }
    requires small { All IsSmall locals.items }
    ensures { IfOk result (λ plans. AllZip (IsPlanned «module».now) (filter (is_among ids.now) locals.entry.items) plans.items) }
{
    let mut plans = Vec::with_capacity(alloc, count)?;
    let mut places = places.into_iter();
    for own in locals {
        add_next(&mut plans, alloc, module, ids, own, &mut places, steps)?;
    }
    Ok(plans)
}

/// The plans of the functions with these ids, in the order of the module, by what each function of the module defines and its
/// places.
pub fn plans_of<'a, L: Ledger>(
    alloc: Global,
    module: &'a Module,
    order: &[Id],
    locals: Vec<Locals<'a>>,
    places: Vec<Nested>,
    blank: Blank,
) -> Result<Vec<FunctionPlan<'a>>, Memory>
    requires name { blank.name ≡ L.name }
    requires parts { blank.parts ≡ L.parts }
    requires one { blank.parts ≡ 1 }
    requires places { places.items ≡ map graph locals.items }
    requires small { All IsSmall locals.items }
    ensures { IfOk result (λ plans. AllZip (IsPlanned «module».now) (called_in order.now locals.entry.items) plans.items) }
{
    let mut steps = Steps::<L>::new(blank);
    let ids = ids_of(alloc, module, order)?;
    plans_with(alloc, module, &ids, order.len(), locals, places, &mut steps)
}

/// The functions of plans.
pub fn functions_of<'a>(
    alloc: Global,
    plans: &[FunctionPlan<'a>],
) -> Result<Vec<&'a Function>, Memory>
    ensures { IfOk result (λ list. functions_at list.items ≡ map function_in plans.now) }
{
    let mut functions = Vec::with_capacity(alloc, plans.len())?;
    for plan in plans {
        functions.push(plan.function())?;
    }
    Ok(functions)
}

/// The ids of the functions of plans.
fn ids_in(alloc: Global, plans: &[FunctionPlan]) -> Result<Vec<u32>, AllocError>
    ensures { IfOk result (λ ids. ids.items ≡ map id_in plans.now) }
{
    let mut ids = Vec::with_capacity(alloc, plans.len())?;
    for plan in plans {
        ids.push(plan.function().id.0)?;
    }
    Ok(ids)
}

/// The places of the plans of functions by their ids, of the first with an id.
pub fn places_in(alloc: Global, plans: &[FunctionPlan]) -> Result<Places, Memory>
    ensures { IfOk result (λ places. ArePlaces plans.now places) }
{
    let ids = ids_in(alloc, plans)?;
    places_of(alloc, ids.as_slice())
}

/// The plan of the function with an id.
pub fn plan_at<'a, 'b>(
    plans: &'a [FunctionPlan<'b>],
    places: &Places,
    id: Id,
) -> Option<&'a FunctionPlan<'b>>
    requires { ArePlaces plans.now places.now }
    ensures { option_copied result ≡ planned_at plans.now id.0 }
{
    let place = places.get(id.0)?;
    plans.get(place)
}
