// The size of workgroups.
ghost use Rattle.std.specs.Prelude.{◌≡◌, ◌∷◌, [], map, IfOk};
ghost use Rattle.text_report.specs.Sizes.{number_at, id_at, number_or_null, array_of, size_data, size_ids_data};
ghost use Rattle.serde_json.specs.View.{view};

use glsl_ast::Size;
use serde_json::{Value, json};
use std::alloc::{AllocError, Global};

/// The number of the part along an axis, the default where a specialization constant gives it.
pub fn number_of(sizes: &[Size], axis: u8) -> Option<u32>
    ensures { result ≡ number_at sizes.now axis }
{
    sizes
        .iter()
        .find(|size| !size.by_id && size.axis == axis)
        .map(|size| size.number)
}

/// The SpecId of the part along an axis, where it has one.
pub fn id_of(sizes: &[Size], axis: u8) -> Option<u32>
    ensures { result ≡ id_at sizes.now axis }
{
    sizes
        .iter()
        .find(|size| size.by_id && size.axis == axis)
        .map(|size| size.number)
}

/// A number, or null where there is none.
pub fn optional(number: Option<u32>) -> Value
    ensures { view result ≡ number_or_null number }
{
    match number {
        Some(number) => Value::from(number),
        None => Value::Null,
    }
}

/// What stands along the three axes, null where nothing does.
fn along_axes(
    alloc: Global,
    x: Option<u32>,
    y: Option<u32>,
    z: Option<u32>,
) -> Result<Value, AllocError>
    ensures { IfOk result (λ v. view v ≡ array_of (map number_or_null (x ∷ y ∷ z ∷ []))) }
{
    json!(in alloc; [optional(x), optional(y), optional(z)])
}

/// The three numbers.
pub fn size_value(alloc: Global, sizes: &[Size]) -> Result<Value, AllocError>
    ensures { IfOk result (λ v. view v ≡ size_data sizes.now) }
{
    along_axes(
        alloc,
        number_of(sizes, 0),
        number_of(sizes, 1),
        number_of(sizes, 2),
    )
}

/// The three SpecIds.
pub fn size_ids_value(alloc: Global, sizes: &[Size]) -> Result<Value, AllocError>
    ensures { IfOk result (λ v. view v ≡ size_ids_data sizes.now) }
{
    along_axes(alloc, id_of(sizes, 0), id_of(sizes, 1), id_of(sizes, 2))
}
