// Copies of expressions.
ghost use Rattle.std.specs.Prelude.{◌≡◌, IfOk, map};
ghost use Rattle.glsl_ast.specs.View.{base_of, extent_of, type_of, expr_of};

use crate::{Base, Expr, Extent, TypeName};
use out_of_memory::Memory;
use std::alloc::Global;

impl Base {
    fn clone_in(&self) -> Result<Base, Memory>
        ensures { IfOk result (λ b. base_of b ≡ base_of self.now) }
    {
        Ok(match self {
            Base::Bool => Base::Bool,
            Base::Int => Base::Int,
            Base::Uint => Base::Uint,
            Base::BoolVec(size) => Base::BoolVec(*size),
            Base::IntVec(size) => Base::IntVec(*size),
            Base::UintVec(size) => Base::UintVec(*size),
            Base::Struct(name) => Base::Struct(name.shared()?),
        })
    }
}

impl Extent {
    fn clone_in(&self) -> Result<Extent, Memory>
        ensures { IfOk result (λ e. extent_of e ≡ extent_of self.now) }
    {
        Ok(match self {
            Extent::Open => Extent::Open,
            Extent::Number(length) => Extent::Number(*length),
            Extent::Name(name) => Extent::Name(name.shared()?),
            Extent::Size(axis) => Extent::Size(axis.shared()?),
        })
    }
}

impl TypeName {
    fn clone_in(&self, alloc: Global) -> Result<TypeName, Memory>
        ensures { IfOk result (λ t. type_of t ≡ type_of self.now) }
    {
        let mut extents = Vec::new(alloc);
        for extent in &self.extents {
            extents.push(extent.clone_in()?)?;
        }
        Ok(TypeName {
            base: self.base.clone_in()?,
            extents,
        })
    }
}

impl Expr {
    /// A copy of the expression. There is an error only where there is no memory for it.
    #[cycle(clone)]
    #[tactic(auto, using(crate::proofs::Views::expr_rows))]
    pub fn clone_in(&self, alloc: Global) -> Result<Expr, Memory>
        ensures { IfOk result (λ e. expr_of e ≡ expr_of self.now) }
    {
        Ok(match self {
            Expr::Literal(literal) => Expr::Literal(*literal),
            Expr::Name(name) => Expr::Name(name.shared()?),
            Expr::Build(parts) => {
                Expr::build(alloc, parts.0.clone_in(alloc)?, clone_all(&parts.1, alloc)?)?
            }
            Expr::Call(parts) => {
                Expr::call(alloc, parts.0.shared()?, clone_all(&parts.1, alloc)?)?
            }
            Expr::Not(of) => Expr::Not(of.boxed(alloc)?),
            Expr::Flip(of) => Expr::Flip(of.boxed(alloc)?),
            Expr::Binary(op, parts) => Expr::binary(
                alloc,
                *op,
                parts.0.clone_in(alloc)?,
                parts.1.clone_in(alloc)?,
            )?,
            Expr::Choose(test, parts) => Expr::choose(
                alloc,
                test.clone_in(alloc)?,
                parts.0.clone_in(alloc)?,
                parts.1.clone_in(alloc)?,
            )?,
            Expr::Member(parts) => {
                Expr::member(alloc, parts.0.clone_in(alloc)?, parts.1.shared()?)?
            }
            Expr::Index(of, at) => Expr::Index(of.boxed(alloc)?, at.boxed(alloc)?),
            Expr::Length(of) => Expr::Length(of.boxed(alloc)?),
        })
    }

    #[cycle(clone)]
    fn boxed(&self, alloc: Global) -> Result<Box<Expr>, Memory>
        ensures { IfOk result (λ e. expr_of e.value ≡ expr_of self.now) }
    {
        Ok(Box::new(alloc, self.clone_in(alloc)?)?)
    }
}

#[cycle(clone)]
fn clone_all(exprs: &[Expr], alloc: Global) -> Result<Vec<Expr>, Memory>
    ensures { IfOk result (λ copies. map expr_of copies.items ≡ map expr_of exprs.now) }
{
    let mut copies = Vec::new(alloc);
    for expr in exprs {
        copies.push(expr.clone_in(alloc)?)?;
    }
    Ok(copies)
}
