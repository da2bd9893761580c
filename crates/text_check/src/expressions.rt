// Expressions.
ghost use Rattle.std.specs.Prelude.{◌≡◌, option_map};
ghost use Rattle.glsl_ast.specs.View.{expr_of, exprs_of};
ghost use Rattle.text_check.specs.Parts as test;
ghost use Rattle.text_check.specs.Words.{declares};

use crate::names::{Structs, is_free, is_name};
use crate::types::{is_literal, is_type};
use glsl_ast::Expr;

/// Whether the expression is in the grammar, where these structs are declared. Most are names.
#[cycle(expression)]
#[inline(always)]
#[tactic(auto, using(glsl_ast::proofs::Views::expr_rows))]
pub fn is_expr(structs: &Structs, expr: &Expr) -> bool
    ensures { result ≡ test.is_expr (declares structs.now) (expr_of expr.now) }
{
    match expr {
        Expr::Name(name) => is_free(structs, name),
        _ => is_tree(structs, expr),
    }
}

/// Whether the expression, and each that stands in it, is in the grammar.
#[cycle(expression)]
#[tactic(auto, using(glsl_ast::proofs::Views::expr_rows))]
fn is_tree(structs: &Structs, expr: &Expr) -> bool
    ensures { result ≡ test.is_expr (declares structs.now) (expr_of expr.now) }
{
    match expr {
        Expr::Literal(literal) => is_literal(*literal),
        Expr::Name(name) => is_free(structs, name),
        Expr::Build(parts) => is_type(structs, &parts.0) && are_exprs(structs, &parts.1),
        Expr::Call(parts) => is_free(structs, &parts.0) && are_exprs(structs, &parts.1),
        Expr::Not(of) | Expr::Flip(of) | Expr::Length(of) => is_expr(structs, of),
        Expr::Binary(_, parts) => is_expr(structs, &parts.0) && is_expr(structs, &parts.1),
        Expr::Choose(test, parts) => {
            is_expr(structs, test) && is_expr(structs, &parts.0) && is_expr(structs, &parts.1)
        }
        Expr::Member(parts) => is_expr(structs, &parts.0) && is_name(&parts.1),
        Expr::Index(of, at) => is_expr(structs, of) && is_expr(structs, at),
    }
}

/// Whether each of the expressions is in the grammar.
#[inline(always)]
#[cycle(expression)]
pub fn are_exprs(structs: &Structs, exprs: &[Expr]) -> bool
    ensures { result ≡ test.are_exprs (declares structs.now) (exprs_of exprs.now) }
{
    for expr in exprs {
        if !is_expr(structs, expr) {
            return false;
        }
    }
    true
}

/// Whether the expression, if there is one, is in the grammar.
#[inline(always)]
pub fn is_value(structs: &Structs, value: &Option<Expr>) -> bool
    ensures { result ≡ test.is_value (declares structs.now) (option_map expr_of value.now) }
{
    match value {
        None => true,
        Some(value) => is_expr(structs, value),
    }
}
