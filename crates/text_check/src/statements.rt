// Statements.
ghost use Rattle.std.specs.Prelude.{◌≡◌, ◌&&◌, option_map};
ghost use Rattle.std.specs.List.{list_all};
ghost use Rattle.glsl_ast.specs.Tree as tree;
ghost use Rattle.glsl_ast.specs.View.{name_text, type_of, expr_of, step_of, lvalue_of, stmt_of, stmts_of, arms_of};
ghost use Rattle.glsl_grammar.specs.Scopes.{has_arms};
ghost use Rattle.text_check.specs.Statements as test;
ghost use Rattle.text_check.specs.Words.{declares};

use crate::expressions::{are_exprs, is_expr, is_value};
use crate::names::{Structs, is_free, is_name};
use crate::types::{is_literal, is_type};
use glsl_ast::{Arm, Expr, LStep, LValue, Label, Name, Stmt, TypeName};

fn is_step(structs: &Structs, step: &LStep) -> bool
    ensures { result ≡ test.is_step (declares structs.now) (step_of step.now) }
{
    match step {
        LStep::Member(name) => is_name(name),
        LStep::Index(at) => is_expr(structs, at),
    }
}

fn are_steps(structs: &Structs, steps: &[LStep]) -> bool
    ensures { result ≡ list_all (λ s. test.is_step (declares structs.now) (step_of s)) steps.now }
{
    steps.iter().all(|step| is_step(structs, step))
}

#[tactic(auto, using(crate::proofs::Lists::list_rules))]
fn is_lvalue(structs: &Structs, place: &LValue) -> bool
    ensures { result ≡ test.is_lvalue (declares structs.now) (lvalue_of place.now) }
{
    is_free(structs, &place.name) && are_steps(structs, &place.steps)
}

fn is_declaration(structs: &Structs, ty: &TypeName, name: &Name, value: &Option<Expr>) -> bool
    ensures { result ≡ test.is_stmt (declares structs.now) (tree.declare (type_of ty.now) (name_text name.now) (option_map expr_of value.now)) }
{
    is_type(structs, ty) && is_name(name) && is_value(structs, value)
}

fn is_label(label: Label) -> bool
    ensures { result ≡ test.is_label label }
{
    match label {
        Label::Case(literal) => is_literal(literal),
        Label::Default => true,
    }
}

fn each_label(labels: &[Label]) -> bool
    ensures { result ≡ list_all test.is_label labels.now }
{
    labels.iter().all(|label| is_label(*label))
}

/// Whether there are labels, and each is in the grammar.
fn are_labels(labels: &[Label]) -> bool
    ensures { result ≡ (test.has_some labels.now && list_all test.is_label labels.now) }
{
    !labels.is_empty() && each_label(labels)
}

/// Whether the statement is in the grammar, where these structs are declared.
#[cycle(statement)]
#[tactic(auto, using(glsl_ast::proofs::Views::stmt_rows))]
fn is_stmt(structs: &Structs, stmt: &Stmt) -> bool
    ensures { result ≡ test.is_stmt (declares structs.now) (stmt_of stmt.now) }
{
    match stmt {
        Stmt::Declare(ty, name, value) => is_declaration(structs, ty, name, value),
        Stmt::Assign(place, value) => is_lvalue(structs, place) && is_expr(structs, value),
        Stmt::Call(name, args) => is_free(structs, name) && are_exprs(structs, args),
        Stmt::If(test, yes, None) => is_expr(structs, test) && are_stmts(structs, yes),
        Stmt::If(test, yes, Some(no)) => {
            is_expr(structs, test) && are_stmts(structs, yes) && are_stmts(structs, no)
        }
        Stmt::For(body) => are_stmts(structs, body),
        Stmt::Switch(on, arms) => is_expr(structs, on) && are_arms(structs, arms),
        Stmt::Break | Stmt::Continue => true,
        Stmt::Return(value) => is_value(structs, value),
    }
}

/// Whether each of the statements is in the grammar.
#[cycle(statement)]
pub fn are_stmts(structs: &Structs, body: &[Stmt]) -> bool
    ensures { result ≡ test.are_stmts (declares structs.now) (stmts_of body.now) }
{
    for stmt in body {
        if !is_stmt(structs, stmt) {
            return false;
        }
    }
    true
}

/// Whether there are groups, and each is in the grammar.
#[cycle(statement)]
fn are_arms(structs: &Structs, arms: &[Arm]) -> bool
    ensures { result ≡ (has_arms (arms_of arms.now) && test.are_arms (declares structs.now) (arms_of arms.now)) }
{
    for arm in arms {
        if !(are_labels(&arm.labels) && are_stmts(structs, &arm.body)) {
            return false;
        }
    }
    !arms.is_empty()
}
