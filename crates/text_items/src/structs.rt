// The structs of types.
ghost use Rattle.std.specs.Prelude.{◌≡◌, ◌==◌, ◌||◌, ℕ, IfOk, OnOk};
ghost use Rattle.std.specs.List.{list_any};
ghost use Rattle.id_map.specs.Entries.{is_in};
ghost use Rattle.spv_types.specs.View.{tree_of, trees_of};
ghost use Rattle.text_rules.specs.Printed.{has_struct, have_struct, type_has_struct};
ghost use Rattle.text_items.specs.State.{HasThose};

use crate::shapes::pointee_at;
use id_map::IdSet;
use spv_module::{Id, Module, Shape};
use spv_types::judged_shape;
use spv_words::Memory;
use std::alloc::{AllocError, Global};

/// Adds the structs of a shape, of which it may be one.
#[cycle(structs)]
#[tactic(auto, using(spv_types::proofs::Views::shape_rows))]
fn add_structs(found: &mut IdSet, shape: &Shape) -> Result<(), AllocError>
    ensures { OnOk result ((id : ℕ) → is_in found.new id ≡ (is_in found.old id || has_struct id (tree_of shape.now))) }
{
    match shape {
        Shape::Bool | Shape::Int | Shape::Uint | Shape::Vector(_, _) => {}
        Shape::Array(part, _) | Shape::Runtime(part) => add_structs(found, part)?,
        Shape::Struct(id, members) => {
            found.insert(id.0)?;
            add_members(found, members)?;
        }
    }
    Ok(())
}

#[cycle(structs)]
#[tactic(auto, using(crate::proofs::Parts::have_rules, spv_types::proofs::Heads::member_smaller))]
fn add_members(found: &mut IdSet, members: &[Shape]) -> Result<(), AllocError>
    ensures { OnOk result ((id : ℕ) → is_in found.new id ≡ (is_in found.old id || have_struct id (trees_of members.now))) }
{
    for member in members {
        add_structs(found, member)?;
    }
    Ok(())
}

/// Adds the structs of a type, or of what a pointer type points to.
fn add_type(alloc: Global, module: &Module, found: &mut IdSet, ty: u32) -> Result<(), Memory>
    ensures { OnOk result ((id : ℕ) → is_in found.new id ≡ (is_in found.old id || type_has_struct «module».now.globals id ty)) }
{
    match judged_shape(alloc, module, Id(pointee_at(module, ty)))? {
        Some(shape) => {
            add_structs(found, &shape)?;
            Ok(())
        }
        None => Ok(()),
    }
}

fn mark(seen: &mut IdSet, ty: u32) -> Result<(), AllocError>
    ensures { OnOk result ((id : ℕ) → is_in seen.new id ≡ (is_in seen.old id || (ty == id))) }
{
    seen.insert(ty)?;
    Ok(())
}

/// Adds the structs of a type that was not gone through.
fn add_once(
    alloc: Global,
    module: &Module,
    seen: &mut IdSet,
    found: &mut IdSet,
    ty: u32,
) -> Result<(), Memory>
    requires { HasThose «module».now.globals seen.old found.old }
    ensures found { OnOk result ((id : ℕ) → is_in found.new id ≡ (is_in found.old id || type_has_struct «module».now.globals id ty)) }
    ensures those { OnOk result (HasThose «module».now.globals seen.new found.new) }
{
    if seen.has(ty) {
        return Ok(());
    }
    mark(seen, ty)?;
    add_type(alloc, module, found, ty)?;
    Ok(())
}

/// The structs of types. A type that comes again is not gone through again. There is an error only for want of memory.
pub fn structs_of(alloc: Global, module: &Module, types: &[u32]) -> Result<IdSet, Memory>
    ensures { IfOk result (λ found. (id : ℕ) → is_in found id ≡ list_any (type_has_struct «module».now.globals id) types.now) }
{
    let mut found = IdSet::below(alloc, module.bound(), types.len())?;
    let mut seen = IdSet::below(alloc, module.bound(), types.len())?;
    for ty in types {
        add_once(alloc, module, &mut seen, &mut found, *ty)?;
    }
    Ok(found)
}
