// The names of structs and members, and of types.
ghost use Rattle.std.specs.Prelude.{◌≡◌, IfOk};
ghost use Rattle.spv_types.specs.View.{tree_of};
ghost use Rattle.spv_types.specs.Tree.{array};
ghost use Rattle.glsl_ast.specs.View.{name_text, extent_of, type_of};
ghost use Rattle.vec_lowering.specs.Named.{naming_of, text_or_none, extent_of_length, array_of, shape_type as type_of_shape};

use glsl_ast::{Base, Extent, Name, TypeName};
use int_lowering::{basic_type, type_name};
use name_alloc::{Key, Names};
use spv_module::{Length, Shape};
use spv_words::Memory;
use std::alloc::Global;

/// The name of a key, to stand in the tree.
#[tactic(auto, unfolding(crate::specs::Named::naming_of))]
pub(crate) fn name(alloc: Global, names: &Names, key: Key) -> Result<Name, Memory>
    ensures { IfOk result (λ w. name_text w ≡ text_or_none (naming_of names.now key)) }
{
    match names.of(key) {
        None => Ok(Name::from_str(alloc, "")?),
        Some(name) => Ok(name.shared()?),
    }
}

fn extent(alloc: Global, names: &Names, length: Length) -> Result<Extent, Memory>
    ensures { IfOk result (λ x. extent_of x ≡ extent_of_length (naming_of names.now) length) }
{
    match length {
        Length::Fixed(number) => Ok(Extent::Number(number)),
        Length::Spec(id) => Ok(Extent::Name(name(alloc, names, Key::Id(id))?)),
    }
}

/// The type with an extent before its own.
fn with_extent(extent: Extent, part: TypeName) -> Result<TypeName, Memory>
    ensures { IfOk result (λ t. type_of t ≡ array_of (extent_of extent) (type_of part)) }
{
    let TypeName { base, mut extents } = part;
    extents.insert(0, extent)?;
    Ok(TypeName { base, extents })
}

/// The name of a shape's type (GLSL 4.60, section 4.1), the outermost extent of an array first. A struct has the name of its
/// id, and so has the constant that is a length; the name of a key that was not claimed is empty. There is an error only for want
/// of memory.
#[tactic(auto, using(spv_types::proofs::Views::shape_rows))]
pub fn shape_type(alloc: Global, names: &Names, shape: &Shape) -> Result<TypeName, Memory>
    ensures { IfOk result (λ t. type_of t ≡ type_of_shape (naming_of names.now) (tree_of shape.now)) }
{
    match shape {
        Shape::Bool | Shape::Int | Shape::Uint | Shape::Vector(_, _) => {
            Ok(type_name(alloc, basic_type(shape)))
        }
        Shape::Array(part, length) => {
            let extent = extent(alloc, names, *length)?;
            with_extent(extent, shape_type(alloc, names, part)?)
        }
        Shape::Runtime(part) => with_extent(Extent::Open, shape_type(alloc, names, part)?),
        Shape::Struct(id, _) => Ok(TypeName {
            base: Base::Struct(name(alloc, names, Key::Id(*id))?),
            extents: Vec::new(alloc),
        }),
    }
}

/// The name of the type of an array with such parts.
#[tactic(auto, using(spv_types::proofs::Views::shape_rows))]
pub(crate) fn array_type(
    alloc: Global,
    names: &Names,
    part: &Shape,
    length: Length,
) -> Result<TypeName, Memory>
    ensures { IfOk result (λ t. type_of t ≡ type_of_shape (naming_of names.now) (array (tree_of part.now) length)) }
{
    let extent = extent(alloc, names, length)?;
    with_extent(extent, shape_type(alloc, names, part)?)
}
