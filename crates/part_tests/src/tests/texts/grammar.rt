// A unit that is in the grammar, and one that is not.
use super::printed::unit;
use glsl_ast::{Base, Decl, Expr, Extent, Field, Name, TypeName, Unit};
use spv_words::Memory;
use std::alloc::Global;
use std::test::Fail;
use text_check::is_in_grammar;

fn text(alloc: Global, name: &str) -> Result<Name, Memory> {
    Name::from_str(alloc, name)
}

fn struct_type(alloc: Global, name: &str) -> Result<TypeName, Memory> {
    Ok(TypeName {
        base: Base::Struct(text(alloc, name)?),
        extents: vec![in alloc; Extent::Number(4)]?,
    })
}

fn pair(alloc: Global, name: &str, field: &str) -> Result<Decl, Memory> {
    let ty = TypeName {
        base: Base::UintVec(2),
        extents: Vec::new(alloc),
    };
    let field = Field {
        ty,
        name: text(alloc, field)?,
    };
    Ok(Decl::Struct {
        name: text(alloc, name)?,
        fields: vec![in alloc; field]?,
    })
}

/// A constant array of a struct, whose one element is the name of a value.
fn array(alloc: Global, of: &str, value: &str) -> Result<Decl, Memory> {
    let value = Expr::Name(text(alloc, value)?);
    Ok(Decl::Const {
        id: None,
        ty: struct_type(alloc, of)?,
        name: text(alloc, "c1")?,
        value: Expr::build(alloc, struct_type(alloc, of)?, vec![in alloc; value]?)?,
    })
}

fn decides(alloc: Global, unit: &Unit) -> Result<bool, Memory> {
    is_in_grammar(alloc, unit)
}

/// Whether a unit is in the grammar that has a struct, and then an array of it whose one element has this name.
fn is_right(alloc: Global, value: &str) -> Result<bool, Memory> {
    let pair = pair(alloc, "Pair", "m0")?;
    let array = array(alloc, "Pair", value)?;
    decides(alloc, &unit(alloc, vec![in alloc; pair, array]?)?)
}

#[test]
fn structs_and_names(rt: HostRuntime) -> Result<(), Fail> {
    assert!(rt; is_right(rt.alloc(), "c0")?);
    assert!(rt; !is_right(rt.alloc(), "Pair")?);
    Ok(())
}
