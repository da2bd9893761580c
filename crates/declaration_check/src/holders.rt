// What holds types that may be arrays whose length is a specialization constant.
ghost use Rattle.std.specs.Prelude.{◌≡◌, ◌++◌, ◌||◌, ◌&&◌, ℕ, not, IfOk, OnOk};
ghost use Rattle.id_map.specs.Entries.{is_in as has_id};
ghost use Rattle.profile_rules.specs.Places.{is_among};
ghost use Rattle.profile_rules.specs.TypeForm.{parts_of as parts_in, pointees as pointees_in, other_types as other_types_in, is_workgroup as is_workgroup_row, is_held};
ghost use Rattle.declaration_check.specs.Classes.{is_in};

use crate::context::Context;
use crate::uses::{Classes, add_ids, parts_of, pointees, set_of};
use id_map::IdSet;
use spv_module::Inst;
use std::alloc::{AllocError, Global};
use std::marker::Model;

/// Adds the parts of a type that is in the set.
fn add_parts(set: &mut IdSet, inst: &Inst) -> Result<(), AllocError>
    ensures { OnOk result ((id : ℕ) → has_id set.new id ≡ (has_id set.old id || ((has_id set.old inst.now.result) && is_among (parts_in inst.now) id))) }
{
    if set.has(inst.result) {
        add_ids(set, parts_of(inst))?;
    }
    Ok(())
}

/// These types and all that they hold, from the last to the first, as what holds a type stands after
/// it.
fn held(alloc: Global, context: &Context, types: &[u32]) -> Result<IdSet, AllocError>
    ensures { IfOk result (λ set. (id : ℕ) → has_id set id ≡ is_held context.now.globals types.now id) }
{
    let globals = context.globals();
    let mut set = set_of(alloc, context, types)?;
    let mut left = globals.len();
    while left > 0 {
        left -= 1;
        add_parts(&mut set, &globals[left])?;
    }
    Ok(set)
}

/// The types of what may not hold an array whose length is a specialization constant, where values have
/// these types.
fn other_types(alloc: Global, context: &Context, types: &[u32]) -> Result<Vec<u32>, AllocError>
    ensures { IfOk result (λ ids. ids.items ≡ pointees_in context.now (is_in context.now Classes.OtherThanWorkgroup) ++ types.now) }
{
    let mut ids = pointees(alloc, context, Classes::OtherThanWorkgroup)?;
    ids.extend_from_slice(types)?;
    Ok(ids)
}

/// The ids of the types that Workgroup variables are or hold, and that other variables, constants and
/// values of functions are or hold. Contracts see the module.
#[derive(Drop)]
pub struct Holders<'a, 'b> {
    context: &'a Context<'b>,
    workgroup: IdSet,
    others: IdSet,
}

impl<'a, 'b> Model for Holders<'a, 'b> {
    ghost use Rattle.id_map.specs.Entries.{is_in};
    ghost use Rattle.spv_module.specs.State.{ModuleState};
    ghost use Rattle.declaration_check.specs.Classes.{AreHolders};

    ghost Value = { ModuleState };

    ghost view = { λ h. h.context.now };

    ghost invariant = { λ h. AreHolders h.context.now (is_in h.workgroup) (is_in h.others) };
}

impl<'a, 'b> Holders<'a, 'b> {
    /// What holds types that may be arrays whose length is a specialization constant.
    pub fn of(alloc: Global, context: &'a Context<'b>) -> Result<Holders<'a, 'b>, AllocError>
        ensures { IfOk result (λ h. h ≡ context.now) }
    {
        let workgroup = pointees(alloc, context, Classes::Workgroup)?;
        let others = other_types(alloc, context, context.types_of_values())?;
        Ok(Holders {
            context,
            workgroup: held(alloc, context, &workgroup)?,
            others: held(alloc, context, &others)?,
        })
    }

    /// The module.
    pub fn context(&self) -> &'a Context<'b>
        ensures { result.now ≡ self.now }
    {
        self.context
    }

    /// Whether a Workgroup variable is or holds a type, and nothing else does.
    pub fn is_of_workgroup_alone(&self, id: u32) -> bool
        ensures { result ≡ (is_held self.now.globals (pointees_in self.now is_workgroup_row) id && not (is_held self.now.globals (other_types_in self.now) id)) }
    {
        self.workgroup.has(id) && !self.others.has(id)
    }
}
