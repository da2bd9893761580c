// The shapes of the types of a workgroup sum, and zeros.
use sample_modules::{PREFIX_SUMS, module_of};
use spv_module::{Elem, Id, Length, Module, Shape, Value};
use spv_types::{check_limits, leaves, same, shape, zero};
use std::alloc::{AllocError, Global};
use std::test::Fail;

fn pair(alloc: Global, id: u32) -> Result<Shape, AllocError> {
    let members = vec![in alloc; Shape::Uint, Shape::Uint]?;
    Ok(Shape::Struct(Id(id), members))
}

fn data(alloc: Global) -> Result<Shape, AllocError> {
    let items = Shape::Runtime(Box::new(alloc, pair(alloc, 3)?)?);
    Ok(Shape::Struct(Id(9), vec![in alloc; items]?))
}

fn array(alloc: Global, part: Shape, length: Length) -> Result<Shape, AllocError> {
    Ok(Shape::Array(Box::new(alloc, part)?, length))
}

// Whether each id has its shape, with so many scalars.
fn have_shapes(alloc: Global, module: &Module, wanted: &[(u32, Shape, u64)]) -> Result<bool, Fail> {
    for (id, wanted, scalars) in wanted {
        let found = shape(alloc, module, Id(*id))?.ok_or("no shape")?;
        if !same(&found, wanted) || leaves(&found, 3) != *scalars {
            return Ok(false);
        }
    }
    Ok(true)
}

#[test]
fn shapes_of_types(rt: HostRuntime) -> Result<(), Fail> {
    let alloc = rt.alloc();
    let sums = module_of(alloc, &[&PREFIX_SUMS])?;
    check_limits(alloc, &sums)?;
    let shapes = [
        (3, pair(alloc, 3)?, 2),
        (9, data(alloc)?, 0),
        (17, array(alloc, Shape::Uint, Length::Fixed(4))?, 3),
        (21, pair(alloc, 21)?, 2),
    ];
    assert!(rt; have_shapes(alloc, &sums, &shapes)?);
    assert_eq!(rt; shape(alloc, &sums, Id(10))?.is_none(), true);
    assert!(rt; !same(&pair(alloc, 21)?, &pair(alloc, 3)?));
    Ok(())
}

fn is_zeros(value: &Value, count: usize) -> bool {
    match value {
        Value::Many(parts) => {
            parts.len() == count && parts.iter().all(|part| matches!(part, Value::Word(0)))
        }
        Value::Bool(_) | Value::Word(_) => false,
    }
}

#[test]
fn zeros(rt: HostRuntime) -> Result<(), Fail> {
    let alloc = rt.alloc();
    let four = Shape::Array(Box::new(alloc, Shape::Uint)?, Length::Fixed(4));
    assert!(rt; is_zeros(&zero(alloc, &four)?, 4));
    assert!(rt; is_zeros(&zero(alloc, &Shape::Vector(Elem::Int, 3))?, 3));
    assert!(rt; matches!(zero(alloc, &Shape::Bool)?, Value::Bool(false)));
    Ok(())
}
