// Statements.
ghost use Rattle.std.specs.Prelude.{◌++◌, suc, map, option_map};
ghost use Rattle.glsl_ast.specs.Tree as tree;
ghost use Rattle.glsl_ast.specs.View.{name_text, type_of, expr_of, step_of, lvalue_of, stmt_of, stmts_of, arms_of};
ghost use Rattle.glsl_grammar.specs.Layout.{expr_text, indent_text, type_text, steps_text, lvalue_text, start_text, result_text, label_text, labels_text, stmt_text, body_text, arms_text};
ghost use Rattle.glsl_grammar.specs.Marks.{mark_text};
ghost use Rattle.glsl_print.specs.Level.{level_of};
ghost use Rattle.glsl_print.specs.Parts.{step_text, value_text, inner_text, if_text, else_text, body_of};
ghost use Rattle.glsl_print.specs.Printed.{Goes};

use crate::expressions::{print_args, print_part, print_value};
use crate::level::Level;
use crate::page::Page;
use crate::types::{print_literal, print_type};
use cc_outside::Sink;
use glsl_ast::{Arm, Expr, LStep, LValue, Label, Name, Stmt, TypeName};
use glsl_grammar::Mark;

// Prints four blanks for each level.
fn indent<K: Sink>(level: &Level, sink: &mut K, page: &mut Page)
    ensures { Goes K.written K.faults K.wants sink.old page.old (indent_text (level_of level.now)) sink.new page.new }
{
    match level {
        Level::Top(levels) => page.put_levels(*levels, sink),
        Level::Under(levels, outer) => {
            page.put_levels(*levels, sink);
            indent(outer, sink, page);
        }
    }
}

fn print_step<K: Sink>(step: &LStep, sink: &mut K, page: &mut Page)
    ensures { Goes K.written K.faults K.wants sink.old page.old (step_text (step_of step.now)) sink.new page.new }
{
    match step {
        LStep::Member(name) => {
            page.put_mark(Mark::Dot, sink);
            page.put(name.as_bytes(), sink);
        }
        LStep::Index(at) => {
            page.put_mark(Mark::BracketOpen, sink);
            print_part(at, Mark::BracketClose, sink, page);
        }
    }
}

fn print_steps<K: Sink>(steps: &[LStep], sink: &mut K, page: &mut Page)
    ensures { Goes K.written K.faults K.wants sink.old page.old (steps_text (map step_of steps.now)) sink.new page.new }
{
    for step in steps {
        print_step(step, sink, page);
    }
}

fn print_assign<K: Sink>(place: &LValue, value: &Expr, sink: &mut K, page: &mut Page)
    ensures { Goes K.written K.faults K.wants sink.old page.old (lvalue_text (lvalue_of place.now) ++ value_text Mark.Equals (expr_of value.now)) sink.new page.new }
{
    page.put(place.name.as_bytes(), sink);
    print_steps(&place.steps, sink, page);
    print_value(Mark::Equals, value, sink, page);
}

// Prints the value that a declaration begins with, and the end of the line.
fn print_start<K: Sink>(value: &Option<Expr>, sink: &mut K, page: &mut Page)
    ensures { Goes K.written K.faults K.wants sink.old page.old (start_text (option_map expr_of value.now)) sink.new page.new }
{
    match value {
        None => page.put_mark(Mark::End, sink),
        Some(value) => print_value(Mark::Equals, value, sink, page),
    }
}

fn print_declare<K: Sink>(
    ty: &TypeName,
    name: &Name,
    value: &Option<Expr>,
    sink: &mut K,
    page: &mut Page,
)
    ensures { Goes K.written K.faults K.wants sink.old page.old (type_text (type_of ty.now) ++ (mark_text Mark.Space ++ (name_text name.now ++ start_text (option_map expr_of value.now)))) sink.new page.new }
{
    print_type(ty, sink, page);
    page.put_mark(Mark::Space, sink);
    page.put(name.as_bytes(), sink);
    print_start(value, sink, page);
}

fn print_return<K: Sink>(value: &Option<Expr>, sink: &mut K, page: &mut Page)
    ensures { Goes K.written K.faults K.wants sink.old page.old (result_text (option_map expr_of value.now)) sink.new page.new }
{
    match value {
        None => page.put_mark(Mark::ReturnVoid, sink),
        Some(value) => print_value(Mark::Return, value, sink, page),
    }
}

fn print_label<K: Sink>(label: Label, sink: &mut K, page: &mut Page)
    ensures { Goes K.written K.faults K.wants sink.old page.old (label_text label) sink.new page.new }
{
    match label {
        Label::Case(literal) => {
            page.put_mark(Mark::Case, sink);
            print_literal(literal, sink, page);
            page.put_mark(Mark::Colon, sink);
        }
        Label::Default => page.put_mark(Mark::Default, sink),
    }
}

fn print_labels<K: Sink>(labels: &[Label], sink: &mut K, page: &mut Page)
    ensures { Goes K.written K.faults K.wants sink.old page.old (labels_text labels.now) sink.new page.new }
{
    for label in labels {
        print_label(*label, sink, page);
    }
}

/// Prints a statement.
#[cycle(statement)]
#[tactic(auto, using(glsl_ast::proofs::Views::stmt_rows))]
fn print_stmt<K: Sink>(stmt: &Stmt, level: &Level, sink: &mut K, page: &mut Page)
    ensures { Goes K.written K.faults K.wants sink.old page.old (stmt_text (level_of level.now) (stmt_of stmt.now)) sink.new page.new }
{
    indent(level, sink, page);
    match stmt {
        Stmt::Declare(ty, name, value) => print_declare(ty, name, value, sink, page),
        Stmt::Assign(place, value) => print_assign(place, value, sink, page),
        Stmt::Call(name, args) => {
            page.put(name.as_bytes(), sink);
            print_args(args, sink, page);
            page.put_mark(Mark::End, sink);
        }
        Stmt::If(test, yes, no) => print_if(test, yes, no, level, sink, page),
        Stmt::For(body) => {
            page.put_mark(Mark::For, sink);
            print_inner(body, level, sink, page);
        }
        Stmt::Switch(on, arms) => print_switch(on, arms, level, sink, page),
        Stmt::Break => page.put_mark(Mark::Break, sink),
        Stmt::Continue => page.put_mark(Mark::Continue, sink),
        Stmt::Return(value) => print_return(value, sink, page),
    }
}

#[cycle(statement)]
fn print_if<K: Sink>(
    test: &Expr,
    yes: &[Stmt],
    no: &Option<Vec<Stmt>>,
    level: &Level,
    sink: &mut K,
    page: &mut Page,
)
    ensures { Goes K.written K.faults K.wants sink.old page.old (if_text (level_of level.now) (expr_of test.now) (stmts_of yes.now) (option_map body_of no.now)) sink.new page.new }
{
    page.put_mark(Mark::If, sink);
    print_part(test, Mark::BodyOpen, sink, page);
    print_body(yes, &level.deeper(), sink, page);
    indent(level, sink, page);
    print_else(no, level, sink, page);
}

// Prints what stands behind the first part of an `if`.
#[cycle(statement)]
fn print_else<K: Sink>(no: &Option<Vec<Stmt>>, level: &Level, sink: &mut K, page: &mut Page)
    ensures { Goes K.written K.faults K.wants sink.old page.old (else_text (level_of level.now) (option_map body_of no.now)) sink.new page.new }
{
    match no {
        None => page.put_mark(Mark::BodyClose, sink),
        Some(no) => {
            page.put_mark(Mark::Else, sink);
            print_inner(no, level, sink, page);
        }
    }
}

// Prints the statements of a body one level deeper, and the closing brace.
#[cycle(statement)]
fn print_inner<K: Sink>(body: &[Stmt], level: &Level, sink: &mut K, page: &mut Page)
    ensures { Goes K.written K.faults K.wants sink.old page.old (inner_text (level_of level.now) (stmts_of body.now)) sink.new page.new }
{
    print_body(body, &level.deeper(), sink, page);
    indent(level, sink, page);
    page.put_mark(Mark::BodyClose, sink);
}

#[cycle(statement)]
fn print_switch<K: Sink>(on: &Expr, arms: &[Arm], level: &Level, sink: &mut K, page: &mut Page)
    ensures { Goes K.written K.faults K.wants sink.old page.old (mark_text Mark.Switch ++ (expr_text (expr_of on.now) ++ (mark_text Mark.BodyOpen ++ (arms_text (suc (level_of level.now)) (arms_of arms.now) ++ (indent_text (level_of level.now) ++ mark_text Mark.BodyClose))))) sink.new page.new }
{
    page.put_mark(Mark::Switch, sink);
    print_part(on, Mark::BodyOpen, sink, page);
    print_arms(arms, &level.deeper(), sink, page);
    indent(level, sink, page);
    page.put_mark(Mark::BodyClose, sink);
}

#[cycle(statement)]
fn print_arms<K: Sink>(arms: &[Arm], level: &Level, sink: &mut K, page: &mut Page)
    ensures { Goes K.written K.faults K.wants sink.old page.old (arms_text (level_of level.now) (arms_of arms.now)) sink.new page.new }
{
    for arm in arms {
        indent(level, sink, page);
        print_labels(&arm.labels, sink, page);
        page.put_mark(Mark::ArmOpen, sink);
        print_inner(&arm.body, level, sink, page);
    }
}

/// Prints the statements of a body.
#[cycle(statement)]
pub fn print_body<K: Sink>(body: &[Stmt], level: &Level, sink: &mut K, page: &mut Page)
    ensures { Goes K.written K.faults K.wants sink.old page.old (body_text (level_of level.now) (stmts_of body.now)) sink.new page.new }
{
    for stmt in body {
        print_stmt(stmt, level, sink, page);
    }
}
