// Where the scalars of a part of a variable lie.
ghost use Rattle.std.specs.Prelude.{◌≡◌, ◌<◌, ◌^◌, [], ◌∷◌, flat_map, length, map, IfOk, OnOk};
ghost use Rattle.std.specs.List.{range_with_len};
ghost use Rattle.spv_types.specs.View.{tree_of, trees_of};
ghost use Rattle.few_law.specs.Few.{HasFewMembers, HaveFewMembers};
ghost use Rattle.value_words.specs.Words.{behind, scalar_paths, member_paths};
ghost use Rattle.module_semantics.specs.Setting.{Setting};
ghost use Rattle.memory_places.specs.Bases.{place_in};
ghost use Rattle.memory_places.specs.Kernel.{bare};
ghost use Rattle.group_items.specs.Events.{locations_of};
ghost use Rattle.memory_places.specs.Leaves.{leaves, HasGained, HasLeaves, HasLeft, IsInside, IsPartAt};

use crate::bases::{Base, copied, place_at};
use crate::types::{part_bytes, part_type};
use group_items::LeafPlace;
use spv_decor::Decor;
use spv_module::{Length, Module, Shape};
use spv_words::Memory;
use std::alloc::Global;

/// A part of a variable: its type, and how many bytes it lies behind the variable's first byte.
#[derive(Clone, Copy, Debug, PartialEq, Eq)]
pub struct Part {
    pub ty: u32,
    pub bytes: u64,
}

/// The places of scalars so far, of a variable in which a path leads to a part.
#[derive(Drop)]
pub struct Gathered {
    pub base: Base,
    pub path: Vec<u32>,
    pub places: Vec<LeafPlace>,
}

/// Adds the place at a byte.
fn add_place(alloc: Global, all: &mut Gathered, byte: u64) -> Result<(), Memory>
    ensures { OnOk result (HasGained all.old all.new (place_in all.old.base byte all.old.path.items ∷ [])) }
{
    let place = place_at(alloc, all.base, byte, &all.path)?;
    all.places.push(place)?;
    Ok(())
}

/// The part at an index of a part.
#[tactic(auto, using(crate::proofs::Along::capped_right))]
fn part_at(module: &Module, decor: &Decor, whole: Part, index: u32) -> Part
    requires { decor.now ≡ «module».now.heads }
    ensures { IsPartAt (bare «module».now) whole index result }
{
    Part {
        ty: part_type(module, whole.ty, index),
        bytes: whole
            .bytes
            .saturating_add(part_bytes(module, decor, whole.ty, index)),
    }
}

/// Goes into the part at an index.
fn enter(all: &mut Gathered, index: u32) -> Result<(), Memory>
    ensures { OnOk result (IsInside all.old all.new index) }
{
    all.path.push(index)?;
    Ok(())
}

/// Goes out of it again.
fn leave(all: &mut Gathered)
    ensures { HasLeft all.old all.new }
{
    all.path.pop();
}

/// Adds the place of a scalar.
#[tactic(auto, using(crate::proofs::Gaining::scalar_gain))]
fn add_scalar(alloc: Global, all: &mut Gathered, part: Part) -> Result<(), Memory>
    ensures { OnOk result ((s : Setting) → HasLeaves s part all.old all.new ([] ∷ [])) }
{
    add_place(alloc, all, part.bytes)
}

/// Adds the place of the scalar at an index of a vector, which is this part of it.
fn add_component(alloc: Global, all: &mut Gathered, part: Part, index: u32) -> Result<(), Memory>
    ensures { OnOk result ((s : Setting) (whole : Part) → IsPartAt s whole index part → HasLeaves s whole all.old all.new ((index ∷ []) ∷ [])) }
{
    enter(all, index)?;
    add_scalar(alloc, all, part)?;
    leave(all);
    Ok(())
}

/// Adds the places of the components of a vector.
#[tactic(auto, using(crate::proofs::Gaining::gain_rules))]
fn add_components(
    alloc: Global,
    module: &Module,
    decor: &Decor,
    all: &mut Gathered,
    whole: Part,
    count: u8,
) -> Result<(), Memory>
    requires { decor.now ≡ «module».now.heads }
    ensures { OnOk result ((HasLeaves (bare «module».now) whole all.old all.new (map (λ i. i ∷ []) (range_with_len 0 count)))) }
{
    for index in 0..u32::from(count) {
        let part = part_at(module, decor, whole, index);
        add_component(alloc, all, part, index)?;
    }
    Ok(())
}

/// Adds the places of the scalars of a part of this shape, from outside in and from first to last.
#[cycle(leaves)]
#[tactic(auto, using(spv_types::proofs::Views::shape_rows, crate::proofs::Gaining::gain_rules))]
pub fn add_leaves(
    alloc: Global,
    module: &Module,
    decor: &Decor,
    all: &mut Gathered,
    part: Part,
    shape: &Shape,
) -> Result<(), Memory>
    requires heads { decor.now ≡ «module».now.heads }
    requires few { HasFewMembers (tree_of shape.now) }
    ensures { OnOk result ((HasLeaves (bare «module».now) part all.old all.new (scalar_paths (tree_of shape.now)))) }
{
    match shape {
        Shape::Bool => add_scalar(alloc, all, part),
        Shape::Int => add_scalar(alloc, all, part),
        Shape::Uint => add_scalar(alloc, all, part),
        Shape::Vector(_, size) => add_components(alloc, module, decor, all, part, *size),
        Shape::Array(element, Length::Fixed(length)) => {
            add_elements(alloc, module, decor, all, part, element, *length)
        }
        Shape::Array(_, Length::Spec(_)) | Shape::Runtime(_) => Ok(()),
        Shape::Struct(_, members) => add_members(alloc, module, decor, all, part, members),
    }
}

/// Adds those of the part at an index.
#[cycle(leaves)]
#[tactic(auto, using(crate::proofs::Gaining::gain_rules))]
fn add_part(
    alloc: Global,
    module: &Module,
    decor: &Decor,
    all: &mut Gathered,
    whole: Part,
    index: u32,
    shape: &Shape,
) -> Result<(), Memory>
    requires heads { decor.now ≡ «module».now.heads }
    requires few { HasFewMembers (tree_of shape.now) }
    ensures { OnOk result ((HasLeaves (bare «module».now) whole all.old all.new (behind index (scalar_paths (tree_of shape.now))))) }
{
    let part = part_at(module, decor, whole, index);
    enter(all, index)?;
    add_leaves(alloc, module, decor, all, part, shape)?;
    leave(all);
    Ok(())
}

/// Adds those of so many elements.
#[cycle(leaves)]
#[tactic(auto, using(crate::proofs::Gaining::gain_rules))]
fn add_elements(
    alloc: Global,
    module: &Module,
    decor: &Decor,
    all: &mut Gathered,
    whole: Part,
    element: &Shape,
    length: u32,
) -> Result<(), Memory>
    requires heads { decor.now ≡ «module».now.heads }
    requires few { HasFewMembers (tree_of element.now) }
    ensures { OnOk result ((HasLeaves (bare «module».now) whole all.old all.new (flat_map (λ i. behind i (scalar_paths (tree_of element.now))) (range_with_len 0 length)))) }
{
    for index in 0..length {
        add_part(alloc, module, decor, all, whole, index, element)?;
    }
    Ok(())
}

/// Adds those of the members of a struct.
#[cycle(leaves)]
#[tactic(auto, using(crate::proofs::Gaining::gain_rules))]
fn add_members(
    alloc: Global,
    module: &Module,
    decor: &Decor,
    all: &mut Gathered,
    whole: Part,
    members: &[Shape],
) -> Result<(), Memory>
    requires heads { decor.now ≡ «module».now.heads }
    requires few { length members.now < 2 ^ 32 }
    requires each { HaveFewMembers (trees_of members.now) }
    ensures { OnOk result ((HasLeaves (bare «module».now) whole all.old all.new (member_paths 0 (trees_of members.now)))) }
{
    for (k, member) in members.iter().enumerate() {
        add_part(alloc, module, decor, all, whole, k as u32, member)?;
    }
    Ok(())
}

/// The places of the scalars of a part of this shape, to which a path leads in a variable. There is an error only for want of memory.
pub fn places_of(
    alloc: Global,
    module: &Module,
    decor: &Decor,
    base: Base,
    path: &[u32],
    part: Part,
    shape: &Shape,
) -> Result<Vec<LeafPlace>, Memory>
    requires heads { decor.now ≡ «module».now.heads }
    requires few { HasFewMembers (tree_of shape.now) }
    ensures { IfOk result (λ places. locations_of places.items ≡ leaves (bare «module».now) base part path.now (scalar_paths (tree_of shape.now))) }
{
    let mut all = Gathered {
        base,
        path: copied(alloc, path)?,
        places: Vec::new(alloc),
    };
    add_leaves(alloc, module, decor, &mut all, part, shape)?;
    Ok(all.places)
}
