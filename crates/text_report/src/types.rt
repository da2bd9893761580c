// The names of types, as they are printed.
ghost use Rattle.std.specs.Prelude.{◌≡◌, ◌++◌, string_bytes, IfOk, OnOk};
ghost use Rattle.glsl_ast.specs.View.{base_of, extent_of, type_of};
ghost use Rattle.glsl_grammar.specs.Layout.{base_text as text_of_base, extent_text, type_text};
ghost use Rattle.glsl_grammar.specs.Marks.{mark_text};

use glsl_ast::{Base, Extent, TypeName};
use std::alloc::{AllocError, Global};

/// The name of a type that is no array (GLSL 4.60, section 4.1).
#[tactic(auto, unfolding(glsl_grammar::specs::Marks::mark_text))]
fn base_text(alloc: Global, base: &Base) -> Result<String, AllocError>
    ensures { IfOk result (λ text. string_bytes text ≡ text_of_base (base_of base.now)) }
{
    match base {
        Base::Bool => String::from_str(alloc, "bool"),
        Base::Int => String::from_str(alloc, "int"),
        Base::Uint => String::from_str(alloc, "uint"),
        Base::BoolVec(size) => format!(in alloc; "bvec{size}"),
        Base::IntVec(size) => format!(in alloc; "ivec{size}"),
        Base::UintVec(size) => format!(in alloc; "uvec{size}"),
        Base::Struct(name) => String::from_str(alloc, name.as_str()),
    }
}

/// Adds the brackets of an array.
#[tactic(auto, unfolding(glsl_grammar::specs::Marks::mark_text))]
fn push_extent(text: &mut String, extent: &Extent) -> Result<(), AllocError>
    ensures { OnOk result (string_bytes text.new ≡ string_bytes text.old ++ extent_text (extent_of extent.now)) }
{
    match extent {
        Extent::Open => text.push_str("[]"),
        Extent::Number(length) => write!(text, "[{length}]"),
        Extent::Name(name) => {
            let name = name.as_str();
            write!(text, "[{name}]")
        }
        Extent::Size(axis) => {
            let axis = axis.as_str();
            write!(text, "[gl_WorkGroupSize.{axis}]")
        }
    }
}

/// The name of a type as it is printed: an array's brackets stand behind, the outermost first.
pub fn type_name(alloc: Global, ty: &TypeName) -> Result<String, AllocError>
    ensures { IfOk result (λ text. string_bytes text ≡ type_text (type_of ty.now)) }
{
    let mut text = base_text(alloc, &ty.base)?;
    for extent in &ty.extents {
        push_extent(&mut text, extent)?;
    }
    Ok(text)
}
