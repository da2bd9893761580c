// How a function is planned.
ghost use Rattle.std.specs.Prelude.{◌≡◌, ℕ, IfOk, map};
ghost use Rattle.structure_rules.specs.Graph.{graph};
ghost use Rattle.use_chains.specs.Small.{IsSmall};
ghost use Rattle.function_plan.specs.Plans.{AreFlags, IsNamed, IsPlanned};
ghost use Rattle.few_law.specs.Short.{IsShort};
ghost use Rattle.hoist_plan.specs.Kept.{form_in};
ghost use Rattle.function_plan.specs.Planned.{is_reached_node, order_in};
ghost use Rattle.function_plan.specs.Moved.{moves_in};
ghost use Rattle.structure_recover.specs.Follows.{IsTree};
ghost use Rattle.structure_recover.specs.View.{region_of};
ghost use Rattle.function_plan.specs.Orders.{order_by};

use crate::flag_sets::FlagSets;
use crate::moves::{moves_of, phi_blocks};
use crate::named::named;
use crate::orders::{Orders, orders_of};
use crate::plan::FunctionPlan;
use hoist_plan::{Naming, plan};
use nest_place::Places;
use phi_copies::Move;
use spv_index::Locals;
use spv_module::{Function, Module};
use spv_words::Memory;
use std::alloc::Global;
use std::sync::ledger::Ledger;
use structure_recover::{Region, recover};
use switch_ladder::flags;
use use_chains::{Steps, Uses};

/// For each block of a function whether it is reached.
fn reached_blocks(alloc: Global, places: &Places) -> Result<Vec<bool>, Memory>
    ensures { IfOk result (λ reached. reached.items ≡ map is_reached_node places.now) }
{
    let nodes = places.nodes();
    let mut reached = Vec::with_capacity(alloc, nodes.len())?;
    for node in nodes {
        reached.push(node.reached)?;
    }
    Ok(reached)
}

/// Which values of a function have variables.
fn naming_of<L: Ledger>(
    alloc: Global,
    module: &Module,
    locals: &Locals,
    reached: &[bool],
    steps: &mut Steps<L>,
) -> Result<Naming, Memory>
    requires reached { reached.now ≡ map is_reached_node (graph locals.now) }
    requires small { IsSmall locals.now }
    ensures { IfOk result (λ naming. IsNamed «module».now.globals locals.now (graph locals.now) naming) }
{
    let uses = Uses::build(alloc, locals, reached, steps)?;
    plan(alloc, module, locals, &uses, steps)
}

/// The control flow of a function as it is written: its tree, the flags that it needs, and the order of the targets of its
/// switches.
#[derive(Drop)]
struct Flow {
    region: Region,
    flags: FlagSets,
    orders: Orders,
}

/// The flags that the text of a function needs.
fn flags_of(
    alloc: Global,
    function: &Function,
    places: &Places,
    region: &Region,
    naming: &Naming,
) -> Result<FlagSets, Memory>
    requires { places.now ≡ graph function.now }
    ensures { IfOk result (AreFlags function.now (form_in naming.now)) }
{
    let phis = phi_blocks(alloc, function, naming)?;
    let needed = flags(alloc, function, places, region, phis.as_slice())?;
    Ok(FlagSets::of(alloc, &needed)?)
}

/// The control flow of a function, where these are the places of its blocks.
fn flow_of(
    alloc: Global,
    function: &Function,
    places: &Places,
    naming: &Naming,
) -> Result<Flow, Memory>
    requires { places.now ≡ graph function.now }
    ensures tree { IfOk result (λ flow. IsTree function.now (region_of flow.region)) }
    ensures flags { IfOk result (λ flow. AreFlags function.now (form_in naming.now) flow.flags) }
    ensures orders { IfOk result (λ flow. (h : ℕ) → order_in flow.orders h ≡ order_by (graph function.now) h) }
{
    let region = recover(alloc, function, places)?;
    let flags = flags_of(alloc, function, places, &region, naming)?;
    let orders = orders_of(alloc, places)?;
    Ok(Flow {
        region,
        flags,
        orders,
    })
}

impl<'a> FunctionPlan<'a> {
    /// Plans a function by what it defines and the places of its blocks. There is an error only for want of memory.
    pub fn of<L: Ledger>(
        alloc: Global,
        module: &'a Module,
        locals: Locals<'a>,
        places: Places,
        steps: &mut Steps<L>,
    ) -> Result<FunctionPlan<'a>, Memory>
        requires places { places ≡ graph locals }
        requires small { IsSmall locals }
        ensures { IfOk result (λ p. IsPlanned «module».now locals.entry p) }
    {
        let function = locals.function();
        let reached = reached_blocks(alloc, &places)?;
        let naming = naming_of(alloc, module, &locals, &reached, steps)?;
        let Flow {
            region,
            flags,
            orders,
        } = flow_of(alloc, function, &places, &naming)?;
        let nodes = places.into_nodes();
        let named = named(alloc, function, nodes.as_slice(), &naming)?;
        let moves = moves_of(alloc, module, &locals, &naming)?;
        Ok(FunctionPlan {
            source: module,
            locals,
            nodes,
            reached,
            naming,
            named,
            region,
            moves,
            flags,
            orders,
        })
    }

    /// The function.
    pub fn function(&self) -> &'a Function
        ensures function { result.now ≡ self.now.locals }
        ensures short { IsShort result.now }
    {
        self.locals.function()
    }

    /// The moves of an edge.
    pub fn moves_of(&self, from: usize, to: usize) -> &[Move]
        ensures { result.now ≡ moves_in self.now.moves.items from to }
    {
        match self.moves.get(to) {
            Some(moves) => moves.from(from),
            None => &[],
        }
    }

    /// The order in which the targets of a switch are written.
    pub fn order_of(&self, header: usize) -> &[usize]
        ensures { result.now ≡ order_in self.now.orders header }
    {
        match self.orders.get(&header) {
            Some(order) => order.as_slice(),
            None => &[],
        }
    }
}
