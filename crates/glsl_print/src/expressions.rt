// Expressions.
ghost use Rattle.std.specs.Prelude.{◌≡◌, ◌++◌};
ghost use Rattle.glsl_ast.specs.View.{expr_of, exprs_of};
ghost use Rattle.glsl_grammar.specs.Layout.{op_mark as mark_of, expr_text, operand_text, args_text};
ghost use Rattle.glsl_grammar.specs.Levels.{unary_level};
ghost use Rattle.glsl_grammar.specs.Marks.{mark_text};
ghost use Rattle.glsl_print.specs.Parts.{separator_text, text_unless, value_text};
ghost use Rattle.glsl_print.specs.Printed.{Goes};

use crate::page::Page;
use crate::precedence::{ANY, CONDITION, SUFFIXED, UNARY, expr_level, op_level, right_level};
use crate::types::{print_literal, print_type};
use cc_outside::Sink;
use glsl_ast::{BinOp, Expr};
use glsl_grammar::Mark;

fn op_mark(op: BinOp) -> Mark
    ensures { result ≡ mark_of op }
{
    match op {
        BinOp::Add => Mark::Add,
        BinOp::Sub => Mark::Sub,
        BinOp::Mul => Mark::Mul,
        BinOp::Div => Mark::Div,
        BinOp::Rem => Mark::Rem,
        BinOp::Shl => Mark::Shl,
        BinOp::Shr => Mark::Shr,
        BinOp::And => Mark::And,
        BinOp::Or => Mark::Or,
        BinOp::Xor => Mark::Xor,
        BinOp::Less => Mark::Less,
        BinOp::LessEqual => Mark::LessEqual,
        BinOp::Greater => Mark::Greater,
        BinOp::GreaterEqual => Mark::GreaterEqual,
        BinOp::Equal => Mark::Equal,
        BinOp::NotEqual => Mark::NotEqual,
        BinOp::Both => Mark::Both,
        BinOp::Either => Mark::Either,
    }
}

/// Prints an expression.
#[cycle(expression)]
#[inline(always)]
pub fn print_expr<K: Sink>(expr: &Expr, sink: &mut K, page: &mut Page)
    ensures { Goes K.written K.faults K.wants sink.old page.old (expr_text (expr_of expr.now)) sink.new page.new }
{
    print_operand(expr, ANY, sink, page);
}

/// Prints an expression where those up to a level stand bare, and others in parentheses. Most are names.
#[cycle(expression)]
#[inline(always)]
fn print_operand<K: Sink>(expr: &Expr, loosest: u8, sink: &mut K, page: &mut Page)
    ensures { Goes K.written K.faults K.wants sink.old page.old (operand_text loosest (expr_of expr.now)) sink.new page.new }
{
    match expr {
        Expr::Name(name) => page.put(name.as_bytes(), sink),
        _ => print_placed(expr, loosest, sink, page),
    }
}

#[cycle(expression)]
fn print_placed<K: Sink>(expr: &Expr, loosest: u8, sink: &mut K, page: &mut Page)
    ensures { Goes K.written K.faults K.wants sink.old page.old (operand_text loosest (expr_of expr.now)) sink.new page.new }
{
    let bare = expr_level(expr) <= loosest;
    put_unless(bare, Mark::Open, sink, page);
    print_tree(expr, sink, page);
    put_unless(bare, Mark::Close, sink, page);
}

#[inline(always)]
fn put_unless<K: Sink>(bare: bool, mark: Mark, sink: &mut K, page: &mut Page)
    ensures { Goes K.written K.faults K.wants sink.old page.old (text_unless bare mark) sink.new page.new }
{
    if !bare {
        page.put_mark(mark, sink);
    }
}

/// Prints an expression with those that stand in it.
#[cycle(expression)]
#[inline(always)]
#[tactic(auto, using(glsl_ast::proofs::Views::expr_rows))]
fn print_tree<K: Sink>(expr: &Expr, sink: &mut K, page: &mut Page)
    ensures { Goes K.written K.faults K.wants sink.old page.old (expr_text (expr_of expr.now)) sink.new page.new }
{
    match expr {
        Expr::Literal(literal) => print_literal(*literal, sink, page),
        Expr::Name(name) => page.put(name.as_bytes(), sink),
        Expr::Build(parts) => {
            print_type(&parts.0, sink, page);
            print_args(&parts.1, sink, page);
        }
        Expr::Call(parts) => {
            page.put(parts.0.as_bytes(), sink);
            print_args(&parts.1, sink, page);
        }
        Expr::Not(of) => print_signed(Mark::Not, of, sink, page),
        Expr::Flip(of) => print_signed(Mark::Flip, of, sink, page),
        Expr::Binary(op, parts) => {
            print_left(&parts.0, op_level(*op), op_mark(*op), sink, page);
            print_operand(&parts.1, right_level(*op), sink, page);
        }
        Expr::Choose(test, parts) => {
            print_left(test, CONDITION, Mark::Question, sink, page);
            print_part(&parts.0, Mark::Otherwise, sink, page);
            print_expr(&parts.1, sink, page);
        }
        Expr::Member(parts) => {
            print_left(&parts.0, SUFFIXED, Mark::Dot, sink, page);
            page.put(parts.1.as_bytes(), sink);
        }
        Expr::Index(of, at) => {
            print_left(of, SUFFIXED, Mark::BracketOpen, sink, page);
            print_part(at, Mark::BracketClose, sink, page);
        }
        Expr::Length(of) => print_left(of, SUFFIXED, Mark::Length, sink, page),
    }
}

/// Prints an expression, and what follows it.
#[cycle(expression)]
#[inline(always)]
pub fn print_part<K: Sink>(expr: &Expr, after: Mark, sink: &mut K, page: &mut Page)
    ensures { Goes K.written K.faults K.wants sink.old page.old (expr_text (expr_of expr.now) ++ mark_text after) sink.new page.new }
{
    print_expr(expr, sink, page);
    page.put_mark(after, sink);
}

// Prints an operand, and what follows it.
#[cycle(expression)]
#[inline(always)]
fn print_left<K: Sink>(expr: &Expr, loosest: u8, after: Mark, sink: &mut K, page: &mut Page)
    ensures { Goes K.written K.faults K.wants sink.old page.old (operand_text loosest (expr_of expr.now) ++ mark_text after) sink.new page.new }
{
    print_operand(expr, loosest, sink, page);
    page.put_mark(after, sink);
}

#[cycle(expression)]
#[inline(always)]
fn print_signed<K: Sink>(sign: Mark, of: &Expr, sink: &mut K, page: &mut Page)
    ensures { Goes K.written K.faults K.wants sink.old page.old (mark_text sign ++ operand_text unary_level (expr_of of.now)) sink.new page.new }
{
    page.put_mark(sign, sink);
    print_operand(of, UNARY, sink, page);
}

/// Prints arguments in parentheses.
#[inline(always)]
#[cycle(expression)]
pub fn print_args<K: Sink>(args: &[Expr], sink: &mut K, page: &mut Page)
    ensures { Goes K.written K.faults K.wants sink.old page.old (mark_text Mark.Open ++ args_text (exprs_of args.now)) sink.new page.new }
{
    page.put_mark(Mark::Open, sink);
    for (i, arg) in args.iter().enumerate() {
        print_separator(i, sink, page);
        print_expr(arg, sink, page);
    }
    page.put_mark(Mark::Close, sink);
}

// Prints what stands before the part at this index of a list.
pub fn print_separator<K: Sink>(i: usize, sink: &mut K, page: &mut Page)
    ensures { Goes K.written K.faults K.wants sink.old page.old (separator_text i) sink.new page.new }
{
    if i > 0 {
        page.put_mark(Mark::Comma, sink);
    }
}

/// Prints a value behind a fixed piece, and the end of the line.
#[inline(always)]
pub fn print_value<K: Sink>(mark: Mark, value: &Expr, sink: &mut K, page: &mut Page)
    ensures { Goes K.written K.faults K.wants sink.old page.old (value_text mark (expr_of value.now)) sink.new page.new }
{
    page.put_mark(mark, sink);
    print_part(value, Mark::End, sink, page);
}
