// Expressions.
ghost use Rattle.std.specs.Prelude.{◌≡◌, IfOk};
ghost use Rattle.glsl_ast.specs.Tree.{build};
ghost use Rattle.glsl_ast.specs.View.{name_text, expr_of, exprs_of, type_of};

use crate::{Name, TypeName};
use out_of_memory::Memory;
use std::alloc::Global;

/// A literal: `5`, `5u`, `0x00000005` or `true` (GLSL 4.60, section 4.1.3).
#[derive(Clone, Copy, Debug, PartialEq, Eq)]
pub enum Literal {
    Int(u32),
    Uint(u32),
    Hex(u32),
    Truth(bool),
}

/// An operator with two operands (GLSL 4.60, section 5.1).
#[derive(Clone, Copy, Debug, PartialEq, Eq)]
pub enum BinOp {
    Add,
    Sub,
    Mul,
    Div,
    Rem,
    Shl,
    Shr,
    And,
    Or,
    Xor,
    Less,
    LessEqual,
    Greater,
    GreaterEqual,
    Equal,
    NotEqual,
    Both,
    Either,
}

/// An expression (GLSL 4.60, chapter 5). `Build` is a constructor, `Not` is `!`, `Flip` is `~`, `Choose` is `?:` and
/// `Length` is `.length()`.
//
// What takes more than two boxes is boxed whole, and so are the operands of an operator: most expressions are names, literals and
// operations, and each takes the room of the largest.
#[derive(Drop)]
pub enum Expr {
    Literal(Literal),
    Name(Name),
    Build(Box<(TypeName, Vec<Expr>)>),
    Call(Box<(Name, Vec<Expr>)>),
    Not(Box<Expr>),
    Flip(Box<Expr>),
    Binary(BinOp, Box<(Expr, Expr)>),
    Choose(Box<Expr>, Box<(Expr, Expr)>),
    Member(Box<(Expr, Name)>),
    Index(Box<Expr>, Box<Expr>),
    Length(Box<Expr>),
}

impl Expr {
    /// A constructor of these arguments (GLSL 4.60, section 5.4). There is an error only where there is no memory for it.
    #[tactic(auto, using(crate::proofs::Views::expr_rows))]
    pub fn build(alloc: Global, ty: TypeName, args: Vec<Expr>) -> Result<Expr, Memory>
        ensures { IfOk result (λ e. expr_of e ≡ build (type_of ty) (exprs_of args.items)) }
    {
        Ok(Expr::Build(Box::new(alloc, (ty, args))?))
    }

    /// A call with these arguments (GLSL 4.60, section 5.11). There is an error only where there is no memory for it.
    #[inline(always)]
    #[tactic(auto, using(crate::proofs::Views::expr_rows))]
    pub fn call(alloc: Global, name: Name, args: Vec<Expr>) -> Result<Expr, Memory>
        ensures { IfOk result (λ e. expr_of e ≡ Rattle.glsl_ast.specs.Tree.Expr.call (name_text name) (exprs_of args.items)) }
    {
        Ok(Expr::Call(Box::new(alloc, (name, args))?))
    }

    /// An operator over two expressions (GLSL 4.60, section 5.1). There is an error only where there is no memory for it.
    #[inline(always)]
    #[tactic(auto, using(crate::proofs::Views::expr_rows))]
    pub fn binary(alloc: Global, op: BinOp, left: Expr, right: Expr) -> Result<Expr, Memory>
        ensures { IfOk result (λ e. expr_of e ≡ Rattle.glsl_ast.specs.Tree.binary op (expr_of left) (expr_of right)) }
    {
        Ok(Expr::Binary(op, Box::new(alloc, (left, right))?))
    }

    /// One of two expressions, by a test (GLSL 4.60, section 5.9). There is an error only where there is no memory for it.
    #[tactic(auto, using(crate::proofs::Views::expr_rows))]
    pub fn choose(alloc: Global, test: Expr, yes: Expr, no: Expr) -> Result<Expr, Memory>
        ensures { IfOk result (λ e. expr_of e ≡ Rattle.glsl_ast.specs.Tree.choose (expr_of test) (expr_of yes) (expr_of no)) }
    {
        Ok(Expr::Choose(Box::new(alloc, test)?, Box::new(alloc, (yes, no))?))
    }

    /// A member or a component of an expression (GLSL 4.60, sections 5.5 and 5.7). There is an error only where there is no memory for
    /// it.
    #[inline(always)]
    #[tactic(auto, using(crate::proofs::Views::expr_rows))]
    pub fn member(alloc: Global, of: Expr, name: Name) -> Result<Expr, Memory>
        ensures { IfOk result (λ e. expr_of e ≡ Rattle.glsl_ast.specs.Tree.Expr.member (expr_of of) (name_text name)) }
    {
        Ok(Expr::Member(Box::new(alloc, (of, name))?))
    }
}
