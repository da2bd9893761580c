// The tree of a text.
ghost use Rattle.std.specs.Prelude.{◌≡◌, ◌++◌, flat_map, IfOk, OnOk, map, option_copied, option_map, option_to_list};
ghost use Rattle.std.specs.List.{All};
ghost use Rattle.structure_rules.specs.Graph.{graph};
ghost use Rattle.use_chains.specs.Small.{IsSmall};
ghost use Rattle.few_law.specs.Short.{HasFewArgs};
ghost use Rattle.glsl_ast.specs.View.{decl_of, unit_of as tree_of_unit};
ghost use Rattle.unit_text.specs.Reached.{AreAdded, ArePlaces, decls_at, IsWritten, IsMade};
ghost use Rattle.function_text.specs.State.{decl_with};

use crate::globals::globals_of;
use crate::heads::{Head, head_of};
use crate::plans::{places_in, plan_at, plans_of};
use constant_text::Readings;
use expr_forward::Globals;
use function_plan::FunctionPlan;
use function_text::function_decl;
use glsl_ast::{Decl, Unit};
use module_check::Conforming;
use name_alloc::Names;
use profile_check::Entry;
use spec_constants::Overrides;
use spv_decor::Decor;
use spv_index::Places;
use spv_module::{Id, Module};
use spv_words::Memory;
use std::alloc::Global;
use std::marker::Brand;
use std::mem::forget;
use std::sync::ledger::Blank;

/// What the tree of a text was made by.
#[derive(Drop)]
pub struct Parts<'a> {
    plans: Vec<FunctionPlan<'a>>,
    names: Names,
}

/// The text of a module: its tree, and what that was made by, which a caller keeps or lets go with it.
#[derive(Drop)]
pub struct Translation<'a> {
    pub unit: Unit,
    pub parts: Parts<'a>,
}

impl<'a> Translation<'a> {
    /// The tree alone: what it was made by is given back.
    pub fn into_unit(self) -> Unit
        ensures { result ≡ self.entry.unit }
    {
        self.unit
    }

    /// The tree alone, where the process ends next: what it was made by is not given back part by part.
    pub fn forget_parts(self) -> Unit
        ensures { result ≡ self.entry.unit }
    {
        let Translation { unit, parts } = self;
        forget(parts);
        unit
    }
}

/// What the functions of a text are written by.
#[derive(Clone, Copy)]
struct Writer<'a, 'b> {
    readings: &'a Readings<'b>,
    names: &'a Names,
    globals: &'a Globals,
}

impl<'a, 'b> Writer<'a, 'b> {
    /// Appends the function of a plan, where there is one.
    fn add_function(
        &self,
        alloc: Global,
        items: &mut Vec<Decl>,
        plan: Option<&'a FunctionPlan<'b>>,
    ) -> Result<(), Memory>
        requires { All HasFewArgs self.now.readings.now.of.globals }
        ensures { OnOk result (map decl_of items.new.items ≡ map decl_of items.old.items ++ option_to_list (option_map (decl_with self.now.readings.now self.now.names.now self.now.globals.now) (option_copied plan.entry))) }
    {
        match plan {
            None => Ok(()),
            Some(plan) => {
                let Writer {
                    readings,
                    names,
                    globals,
                } = *self;
                let decl = function_decl(alloc, readings, names, globals, plan)?;
                items.push(decl)?;
                Ok(())
            }
        }
    }

    /// Appends the functions with these ids, in this order, where these are the places of their plans.
    fn add_functions(
        &self,
        alloc: Global,
        items: &mut Vec<Decl>,
        plans: &'a [FunctionPlan<'b>],
        places: &Places,
        order: &[Id],
    ) -> Result<(), Memory>
        requires few { All HasFewArgs self.now.readings.now.of.globals }
        requires places { ArePlaces plans.now places.now }
        ensures { OnOk result (map decl_of items.new.items ≡ map decl_of items.old.items ++ flat_map (decls_at self.now.readings.now self.now.names.now self.now.globals.now plans.now) order.now) }
    {
        items.reserve(order.len())?;
        for id in order {
            self.add_function(alloc, items, plan_at(plans, places, *id))?;
        }
        Ok(())
    }
}

/// Appends the functions with these ids, in this order, by their plans.
fn add_planned<'a, 'b>(
    alloc: Global,
    items: &mut Vec<Decl>,
    readings: &'b Readings<'a>,
    names: &'b Names,
    plans: &'b [FunctionPlan<'a>],
    order: &[Id],
) -> Result<(), Memory>
    requires { All HasFewArgs readings.now.of.globals }
    ensures { OnOk result (AreAdded readings.now names.now plans.now order.now (map decl_of items.old.items) (map decl_of items.new.items)) }
{
    let globals = globals_of(alloc, readings, names)?;
    let places = places_in(alloc, plans)?;
    let plans = &*plans;
    let writer = Writer {
        readings,
        names,
        globals: &globals,
    };
    writer.add_functions(alloc, items, plans, &places, order)
}

/// A text with planned functions.
fn text_by<'a>(
    alloc: Global,
    readings: &Readings<'a>,
    entry: &Entry,
    order: &[Id],
    plans: Vec<FunctionPlan<'a>>,
) -> Result<Translation<'a>, Memory>
    requires { All HasFewArgs readings.now.of.globals }
    ensures { IfOk result (λ text. IsWritten readings.now entry.now.size.items order.now plans.entry.items (tree_of_unit text.unit)) }
{
    let sizes = readings.sizes(alloc, entry.size.as_slice())?;
    let planned = plans.as_slice();
    let Head { names, mut items } = head_of(alloc, readings, planned)?;
    add_planned(alloc, &mut items, readings, &names, planned, order)?;
    Ok(Translation {
        unit: Unit { sizes, items },
        parts: Parts { plans, names },
    })
}

/// A text, by how its constants are read.
fn planned_text<'a>(
    alloc: Global,
    readings: &Readings<'a>,
    found: Conforming<'a>,
) -> Result<Translation<'a>, Memory>
    requires locals { found.locals.items ≡ readings.now.of.functions }
    requires places { found.places.items ≡ map graph readings.now.of.functions }
    requires small { All IsSmall readings.now.of.functions }
    requires few { All HasFewArgs readings.now.of.globals }
    ensures { IfOk result (λ text. IsMade readings.now found.entry.entry.size.items found.entry.order.items (tree_of_unit text.unit)) }
{
    let blank = Blank::new(1);
    let Conforming {
        entry,
        order,
        places,
        locals,
    } = found;
    let order = order.as_slice();
    let plans = plans_of::<Brand>(alloc, readings.module(), order, locals, places, blank)?;
    text_by(alloc, readings, &entry, order, plans)
}

/// The text of a module that was judged: the size of workgroups, the items in the order of the module, and the functions,
/// callees first. There is an error only for want of memory.
pub fn text_of<'a>(
    alloc: Global,
    module: &'a Module,
    decor: &'a Decor<'a>,
    found: Conforming<'a>,
    overrides: &'a Overrides,
) -> Result<Translation<'a>, Memory>
    requires decor { decor.now ≡ «module».now.heads }
    requires locals { found.locals.items ≡ «module».now.functions }
    requires places { found.places.items ≡ map graph «module».now.functions }
    requires small { All IsSmall «module».now.functions }
    requires few { All HasFewArgs «module».now.globals }
    ensures { IfOk result (λ text. IsMade (record { of = «module».now; entry = found.entry.entry.function.0; overrides = overrides.now.pairs.items }) found.entry.entry.size.items found.entry.order.items (tree_of_unit text.unit)) }
{
    let entry = found.entry.function;
    let pairs = overrides.pairs.as_slice();
    let readings = Readings::of(alloc, module, decor, entry, pairs)?;
    planned_text(alloc, &readings, found)
}
