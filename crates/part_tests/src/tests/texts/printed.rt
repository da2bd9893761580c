// Units as text.
use cc_outside::{MemorySink, Sink, SteadySink};
use glsl_ast::{Base, Decl, Expr, Extent, Name, Size, Stmt, TypeName, Unit};
use glsl_grammar::Mark;
use glsl_print::{PrintEnd, print};
use spv_words::Memory;
use std::alloc::Global;
use std::test::Fail;
use text_check::is_in_grammar;

// Prints a unit that is in the grammar.
fn print_unit<K: Sink>(alloc: Global, unit: &Unit, sink: &mut K) -> Result<(), PrintEnd> {
    match is_in_grammar(alloc, unit) {
        Ok(true) => print(unit, sink),
        _ => Err(PrintEnd::Memory),
    }
}

/// A unit with one size and these items.
pub fn unit(alloc: Global, items: Vec<Decl>) -> Result<Unit, Memory> {
    let size = Size {
        axis: 2,
        by_id: false,
        number: 8,
    };
    Ok(Unit {
        sizes: vec![in alloc; size]?,
        items,
    })
}

fn const_unit(alloc: Global, base: Base, value: Expr) -> Result<Unit, Memory> {
    let ty = TypeName {
        base,
        extents: Vec::new(alloc),
    };
    let name = Name::from_str(alloc, "c")?;
    let constant = Decl::Const {
        id: None,
        ty,
        name,
        value,
    };
    unit(alloc, vec![in alloc; constant]?)
}

/// The text of a constant `c` with this value.
pub fn const_text(alloc: Global, base: Base, value: Expr) -> Result<Vec<u8>, Fail> {
    let unit = const_unit(alloc, base, value)?;
    let mut sink = SteadySink::new(alloc);
    print_unit(alloc, &unit, &mut sink)
        .ok()
        .ok_or("not in the grammar")?;
    Ok(sink.bytes().to_vec(alloc)?)
}

// The array of one int with this name.
fn array_of_one(alloc: Global, name: &str) -> Result<Expr, Memory> {
    let ty = TypeName {
        base: Base::Int,
        extents: vec![in alloc; Extent::Number(1)]?,
    };
    let name = Expr::Name(Name::from_str(alloc, name)?);
    Expr::build(alloc, ty, vec![in alloc; name]?)
}

fn copy_of(alloc: Global, expr: &Expr) -> Result<Expr, Memory> {
    expr.clone_in(alloc)
}

#[test]
fn a_copy_of_an_expression(rt: HostRuntime) -> Result<(), Fail> {
    let built = array_of_one(rt.alloc(), "a")?;
    let copy = copy_of(rt.alloc(), &built)?;
    let text = const_text(rt.alloc(), Base::Int, copy)?;
    assert!(rt; text.ends_with(b"const int c = int[1](a);\n"));
    assert!(rt; text.starts_with(Mark::Version.bytes()));
    Ok(())
}

// A function of a thousand statements.
fn long_unit(alloc: Global) -> Result<Unit, Memory> {
    let mut body = Vec::new(alloc);
    for _ in 0..1000 {
        body.push(Stmt::Break)?;
    }
    let main = Decl::Function {
        result: None,
        name: Name::from_str(alloc, "main")?,
        params: Vec::new(alloc),
        body,
    };
    unit(alloc, vec![in alloc; main]?)
}

// What comes to a sink of which these calls fail, and how it ends.
fn printed(
    alloc: Global,
    unit: &Unit,
    fails: &[u64],
) -> Result<(Result<(), PrintEnd>, Vec<u8>), Fail> {
    let mut sink = MemorySink::new(alloc, fails.to_vec(alloc)?);
    let ended = print_unit(alloc, unit, &mut sink);
    Ok((ended, sink.bytes().to_vec(alloc)?))
}

static FRONT: &[u8] = b"#version 460\nlayout(local_size_z = 8) in;\nvoid main() {\n    break;\n";

#[test]
fn a_sink_that_fails_at_its_second_call(rt: HostRuntime) -> Result<(), Fail> {
    let long = long_unit(rt.alloc())?;
    let (ended, whole) = printed(rt.alloc(), &long, &[])?;
    assert_eq!(rt; ended, Ok(()));
    assert!(rt; whole.starts_with(FRONT));
    let (ended, front) = printed(rt.alloc(), &long, &[1])?;
    assert_eq!(rt; ended, Err(PrintEnd::Fault));
    assert_eq!(rt; front.len(), 4096);
    assert!(rt; whole.starts_with(&front));
    Ok(())
}
