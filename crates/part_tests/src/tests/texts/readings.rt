// Specialization constants and the size of workgroups, with overrides and without.
use super::names::{is_name, named};
use constant_text::{Reading, Readings, int_literal, name, scalar_type};
use glsl_ast::{Expr, Extent, Literal, Name, Size, TypeName};
use name_alloc::{Key, Names};
use profile_rules::{Given, SizePart};
use sample_modules::{SPECIALIZED, module_of};
use spv_decor::Decor;
use spv_module::{Elem, Id, Inst, Length, Module, Shape};
use spv_words::Memory;
use std::alloc::{AllocError, Global};
use std::test::Fail;

// The int is named "bias".
static BIAS: [(Key, &str); 1] = [(Key::Id(Id(31)), "bias")];

// What is written of a size of 64, which may be specialized, by 2.
fn sizes_of(alloc: Global, readings: &Readings) -> Result<Vec<Size>, Fail> {
    let parts = [SizePart::Spec { id: 3, default: 64 }, SizePart::Fixed(2)];
    Ok(readings.sizes(alloc, &parts)?)
}

fn constant<'a>(readings: &Readings<'a>, id: u32) -> Result<&'a Inst, Fail> {
    Ok(readings.module().global(Id(id)).ok_or("no constant")?)
}

fn is_read(readings: &Readings, id: u32, wanted: Reading) -> Result<bool, Fail> {
    let inst = constant(readings, id)?;
    Ok(inst.op.is_constant() && readings.reading(inst) == wanted)
}

fn expr_of(alloc: Global, readings: &Readings, names: &Names, id: u32) -> Result<Expr, Fail> {
    Ok(readings.constant_expr(alloc, names, constant(readings, id)?)?)
}

fn name_of(alloc: Global, names: &Names, id: u32) -> Result<Name, Memory> {
    name(alloc, names, Key::Id(Id(id)))
}

fn spec_id(readings: &Readings, id: u32) -> Option<u32> {
    readings.free_spec_id(Id(id))
}

fn elem(readings: &Readings, ty: u32) -> Option<Elem> {
    scalar_type(readings.module(), ty)
}

fn is_part(of: &Expr, wanted: &str) -> bool {
    match of {
        Expr::Member(parts) => is_name(&parts.0, "gl_WorkGroupSize") && parts.1.as_str() == wanted,
        _ => false,
    }
}

// An array of 2 arrays, each as long as the uint says.
fn array(alloc: Global) -> Result<Shape, AllocError> {
    let row = Shape::Array(Box::new(alloc, Shape::Uint)?, Length::Spec(Id(32)));
    Ok(Shape::Array(Box::new(alloc, row)?, Length::Fixed(2)))
}

fn array_type(alloc: Global, readings: &Readings, names: &Names) -> Result<TypeName, Fail> {
    Ok(readings.type_name(alloc, names, &array(alloc)?)?)
}

fn array_zero(alloc: Global, readings: &Readings, names: &Names) -> Result<Expr, Fail> {
    Ok(readings.zero_expr(alloc, names, &array(alloc)?)?)
}

fn are_sizes(sizes: &[Size]) -> bool {
    let wanted = [(0, false, 64), (0, true, 3), (1, false, 2)];
    sizes.len() == wanted.len()
        && sizes.iter().zip(wanted.iter()).all(|(size, wanted)| (size.axis, size.by_id, size.number)
            == *wanted)
}

fn is_array_type(ty: &TypeName) -> bool {
    match ty.extents.as_slice() {
        [Extent::Number(2), Extent::Size(axis)] => axis.as_str() == "x",
        _ => false,
    }
}

fn is_built_of_two(zero: &Expr) -> bool {
    match zero {
        Expr::Build(parts) => parts.1.len() == 2,
        _ => false,
    }
}

// What is read of each constant, and its expression.
fn are_read(alloc: Global, readings: &Readings, names: &Names) -> Result<bool, Fail> {
    Ok(
        is_read(readings, 30, Reading::Named)?
            && is_read(readings, 31, Reading::Named)?
            && is_read(readings, 32, Reading::GroupSizePart(0))?
            && is_read(readings, 34, Reading::GroupSize)?
            && is_name(&expr_of(alloc, readings, names, 31)?, "bias")
            && is_part(&expr_of(alloc, readings, names, 32)?, "x")
            && is_name(&expr_of(alloc, readings, names, 34)?, "gl_WorkGroupSize"),
    )
}

// What is written of sizes, types and zeros.
fn are_sized(alloc: Global, readings: &Readings, names: &Names) -> Result<bool, Fail> {
    Ok(
        are_sizes(&sizes_of(alloc, readings)?)
            && is_array_type(&array_type(alloc, readings, names)?)
            && is_built_of_two(&array_zero(alloc, readings, names)?),
    )
}

fn are_told(alloc: Global, readings: &Readings, names: &Names) -> Result<bool, Fail> {
    Ok(
        spec_id(readings, 31) == Some(2)
            && elem(readings, 2) == Some(Elem::Int)
            && name_of(alloc, names, 31)?.as_str() == "bias",
    )
}

fn by_default(alloc: Global, module: &Module, names: &Names) -> Result<bool, Fail> {
    let decor = Decor::read(alloc, module)?;
    let readings = Readings::of(alloc, module, &decor, Id(1), &[])?;
    Ok(
        are_read(alloc, &readings, names)?
            && are_sized(alloc, &readings, names)?
            && are_told(alloc, &readings, names)?,
    )
}

#[test]
fn constants_sizes_and_types_are_read(rt: HostRuntime) -> Result<(), Fail> {
    let module = module_of(rt.alloc(), &[&SPECIALIZED])?;
    let names = named(rt.alloc(), &BIAS)?;
    assert!(rt; by_default(rt.alloc(), &module, &names)?);
    Ok(())
}

// Whether a constant is written as this literal, which is that of its word.
fn is_literal(readings: &Readings, id: u32, wanted: Literal) -> Result<bool, Fail> {
    let inst = constant(readings, id)?;
    let literal = readings.literal(inst);
    Ok(literal == wanted && literal == int_literal(readings.word(inst)))
}

fn are_overridden(alloc: Global, readings: &Readings) -> Result<bool, Fail> {
    let sizes = sizes_of(alloc, readings)?;
    Ok(
        is_read(readings, 31, Reading::Plain)?
            && is_literal(readings, 31, Literal::Hex(0xffff_ffff))?
            && spec_id(readings, 31).is_none()
            && sizes.len() == 2
            && sizes.first().map(|size| size.number) == Some(8),
    )
}

fn under(alloc: Global, module: &Module, overrides: &[(u32, Given)]) -> Result<bool, Fail> {
    let decor = Decor::read(alloc, module)?;
    let readings = Readings::of(alloc, module, &decor, Id(1), overrides)?;
    are_overridden(alloc, &readings)
}

#[test]
fn overrides_are_literals(rt: HostRuntime) -> Result<(), Fail> {
    let module = module_of(rt.alloc(), &[&SPECIALIZED])?;
    let overrides = [(2, Given::Negative(1)), (3, Given::Decimal(8))];
    assert!(rt; under(rt.alloc(), &module, &overrides)?);
    Ok(())
}
