// Specialization constants that are not overridden.
ghost use Rattle.std.specs.Prelude.{◌≡◌, map, find, option_map, option_and_then, IfOk};
ghost use Rattle.std.specs.Option.{option_copied};
ghost use Rattle.std.specs.BTreeMap.{get};
ghost use Rattle.std.specs.Ordering.{nat_cmp};
ghost use Rattle.glsl_ast.specs.View.{decl_of, expr_of, unit_of};
ghost use Rattle.spv_ops.specs.Enumerants.{decoration_number};
ghost use Rattle.spv_ops.specs.declared.Decoration.TheVariants as decoration;
ghost use Rattle.spv_decor.specs.Rows.{value_of as value_in};
ghost use Rattle.text_report.specs.Constants.{literal_data, default_data, own_id, declares, declared_data, is_part, part_data, axis_text as text_of_axis, spec_data, spec};
ghost use Rattle.text_report.specs.Places.{is_of, ArePlaces};
ghost use Rattle.serde_json.specs.View.{view};

use crate::sizes::{number_of, optional};
use crate::types::type_name;
use glsl_ast::{Decl, Expr, Literal, Size, Unit};
use serde_json::{Value, json};
use spv_decor::Decor;
use spv_module::{Id, Inst, Module};
use spv_ops::Decoration;
use std::alloc::{AllocError, Global};
use std::collections::BTreeMap;

fn literal_value(literal: Literal) -> Value
    ensures { view result ≡ literal_data literal }
{
    match literal {
        Literal::Int(number) | Literal::Hex(number) => Value::from(number.cast_signed()),
        Literal::Uint(number) => Value::from(number),
        Literal::Truth(truth) => Value::from(truth),
    }
}

/// The default that an expression is.
fn default_value(value: &Expr) -> Value
    ensures { view result ≡ default_data (expr_of value.now) }
{
    match value {
        Expr::Literal(literal) => literal_value(*literal),
        _ => Value::Null,
    }
}

/// What is told of an item that declares a constant with a SpecId.
fn declared_value(alloc: Global, item: &Decl) -> Result<Option<Value>, AllocError>
    ensures { IfOk result (λ v. option_map view v ≡ declared_data (decl_of item.now)) }
{
    match item {
        Decl::Const {
            id: Some(id),
            ty,
            name,
            value,
        } => {
            let default = default_value(value);
            let ty = type_name(alloc, ty)?;
            Ok(Some(
                json!(in alloc; {"default": default, "id": *id, "name": name.as_str(), "type": ty})?,
            ))
        }
        _ => Ok(None),
    }
}

fn axis_text(axis: u8) -> &'static str
    ensures { result.now ≡ text_of_axis axis }
{
    match axis {
        0 => "x",
        1 => "y",
        _ => "z",
    }
}

/// What is told of a part of the size of workgroups.
fn part_value(alloc: Global, sizes: &[Size], part: Size) -> Result<Value, AllocError>
    ensures { IfOk result (λ v. view v ≡ part_data sizes.now part) }
{
    let axis = axis_text(part.axis);
    let name = format!(in alloc; "gl_WorkGroupSize.{axis}")?;
    json!(in alloc; {
        "default": optional(number_of(sizes, part.axis)),
        "id": part.number,
        "name": name,
        "type": "uint",
    })
}

/// The SpecId of an item that declares a constant with one.
fn declared_id(item: &Decl) -> Option<u32>
    ensures { result ≡ own_id (decl_of item.now) }
{
    match item {
        Decl::Const { id, .. } => *id,
        _ => None,
    }
}

/// The places of the items that declare constants, by their SpecIds.
fn places_of(alloc: Global, items: &[Decl]) -> Result<BTreeMap<u32, usize>, AllocError>
    ensures { IfOk result (λ places. ArePlaces items.now (get nat_cmp places)) }
{
    let mut places = BTreeMap::new(alloc);
    for (place, item) in items.iter().enumerate() {
        if let Some(id) = declared_id(item) {
            if !places.contains_key(&id) {
                places.insert(id, place)?;
            }
        }
    }
    Ok(places)
}

/// The item that declares the constant with a SpecId.
fn declared<'a>(items: &'a [Decl], places: &BTreeMap<u32, usize>, id: u32) -> Option<&'a Decl>
    requires { ArePlaces items.now (get nat_cmp places.now) }
    ensures { option_copied result ≡ find (is_of id) items.now }
{
    let place = places.get(&id)?;
    items.get(*place)
}

/// The part of the size of workgroups that has a SpecId.
fn part_of(sizes: &[Size], id: u32) -> Option<&Size>
    ensures { option_copied result ≡ find (is_part id) sizes.now }
{
    sizes.iter().find(|size| size.by_id && size.number == id)
}

/// What is told of the item that declares the constant with a SpecId.
fn declared_constant(
    alloc: Global,
    items: &[Decl],
    places: &BTreeMap<u32, usize>,
    id: u32,
) -> Result<Option<Value>, AllocError>
    requires { ArePlaces items.now (get nat_cmp places.now) }
    ensures { IfOk result (λ v. option_map view v ≡ option_and_then declared_data (find (declares id) (map decl_of items.now))) }
{
    match declared(items, places, id) {
        Some(item) => declared_value(alloc, item),
        None => Ok(None),
    }
}

/// What is told of the constant with a SpecId, where the text has it.
fn spec_value(
    alloc: Global,
    unit: &Unit,
    places: &BTreeMap<u32, usize>,
    id: u32,
) -> Result<Option<Value>, AllocError>
    requires { ArePlaces unit.now.items.items (get nat_cmp places.now) }
    ensures { IfOk result (λ v. option_map view v ≡ spec_data (unit_of unit.now) id) }
{
    match part_of(&unit.sizes, id) {
        Some(part) => Ok(Some(part_value(alloc, &unit.sizes, *part)?)),
        None => declared_constant(alloc, &unit.items, places, id),
    }
}

/// What is told of the constant that an instruction defines, where the text has it with a SpecId.
fn value_of(
    alloc: Global,
    unit: &Unit,
    places: &BTreeMap<u32, usize>,
    decor: &Decor,
    inst: &Inst,
) -> Result<Option<Value>, AllocError>
    requires { ArePlaces unit.now.items.items (get nat_cmp places.now) }
    ensures { IfOk result (λ v. option_map view v ≡ option_and_then (spec_data (unit_of unit.now)) (value_in decor.now inst.now.result (decoration_number decoration.SpecId))) }
{
    match decor.value(Id(inst.result), Decoration::SpecId.number()) {
        Some(id) => spec_value(alloc, unit, places, id),
        None => Ok(None),
    }
}

/// What is told of the constants with a SpecId that the text has, in the order of the module.
pub fn constants(
    alloc: Global,
    unit: &Unit,
    module: &Module,
    decor: &Decor,
) -> Result<Vec<Value>, AllocError>
    requires { decor.now ≡ «module».now.heads }
    ensures { IfOk result (λ list. map view list.items ≡ spec «module».now (unit_of unit.now)) }
{
    let places = places_of(alloc, &unit.items)?;
    let mut list = Vec::new(alloc);
    for inst in module.globals() {
        if let Some(value) = value_of(alloc, unit, &places, decor, inst)? {
            list.push(value)?;
        }
    }
    Ok(list)
}
