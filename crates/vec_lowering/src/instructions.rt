// The expression of an instruction, by its opcode.
ghost use Rattle.std.specs.Prelude.{◌≡◌, ◌+◌, ◌≤◌, IfOk, map};
ghost use Rattle.spv_types.specs.View.{tree_of};
ghost use Rattle.few_law.specs.Few.{HasFewMembers};
ghost use Rattle.glsl_ast.specs.View.{expr_of};
ghost use Rattle.vec_lowering.specs.Named.{naming_of};
ghost use Rattle.glsl_ast.specs.Height.{height};
ghost use Rattle.vec_lowering.specs.Composite.{argument_of};
ghost use Rattle.vec_lowering.specs.Depth.{depth, deepest_argument, highest_argument};
ghost use Rattle.vec_lowering.specs.Lowered as lowered;

use crate::components::on_basic;
use crate::composites::{construct, extract, index, next_arg, shuffle};
use crate::copies::copy;
use glsl_ast::Expr;
use int_lowering::{Arg, basic_type, literal, operation};
use name_alloc::Names;
use op_semantics::Operation;
use spv_module::Shape;
use spv_ops::Op;
use spv_words::Memory;
use std::alloc::Global;

/// A component of a vector by an index that is computed.
fn extract_at(alloc: Global, args: Vec<Arg>) -> Result<Expr, Memory>
    ensures { IfOk result (λ e. expr_of e ≡ lowered.extracted_at (map argument_of args.items)) }
{
    let mut args = args.into_iter();
    let vector = next_arg(&mut args);
    let at = next_arg(&mut args);
    index(alloc, vector.expr, at.expr)
}

/// The part of the first operand that the literals lead to.
fn extract_first(
    alloc: Global,
    names: &Names,
    literals: &[u32],
    args: Vec<Arg>,
) -> Result<Expr, Memory>
    ensures { IfOk result (λ e. expr_of e ≡ lowered.extracted_from (naming_of names.now) literals.now (map argument_of args.items)) }
{
    let Arg { expr, shape, .. } = next_arg(&mut args.into_iter());
    extract(alloc, names, &shape, literals, expr)
}

fn shuffle_two(
    alloc: Global,
    names: &Names,
    shape: &Shape,
    picks: &[u32],
    args: Vec<Arg>,
) -> Result<Expr, Memory>
    ensures { IfOk result (λ e. expr_of e ≡ lowered.shuffled_of (naming_of names.now) (tree_of shape.now) picks.now (map argument_of args.items)) }
{
    let mut args = args.into_iter();
    let a = next_arg(&mut args);
    let b = next_arg(&mut args);
    shuffle(alloc, names, shape, picks, &a, &b)
}

fn copy_first(alloc: Global, names: &Names, shape: &Shape, args: Vec<Arg>) -> Result<Expr, Memory>
    requires { HasFewMembers (tree_of shape.now) }
    ensures { IfOk result (λ e. expr_of e ≡ lowered.copied_from (naming_of names.now) (tree_of shape.now) (map argument_of args.items)) }
{
    let Arg {
        expr,
        shape: from,
        ..
    } = next_arg(&mut args.into_iter());
    copy(alloc, names, shape, &from, expr)
}

/// An operation with a result of a basic type.
#[inline(always)]
#[tactic(auto, using(crate::proofs::Parts::operands_of))]
fn on_arguments(
    alloc: Global,
    operation: Operation,
    shape: &Shape,
    operands: Vec<Arg>,
) -> Result<Expr, Memory>
    ensures { IfOk result (λ e. expr_of e ≡ lowered.on_arguments operation (tree_of shape.now) (map argument_of operands.items)) }
{
    on_basic(alloc, operation, basic_type(shape), operands)
}

/// OpCopyLogical, OpCopyObject or OpBitcast.
fn copy_by(
    alloc: Global,
    op: Op,
    shape: &Shape,
    operands: Vec<Arg>,
    names: &Names,
) -> Result<Expr, Memory>
    requires { HasFewMembers (tree_of shape.now) }
    ensures { IfOk result (λ e. expr_of e ≡ lowered.copy_by (naming_of names.now) op (tree_of shape.now) (map argument_of operands.items)) }
{
    if op == Op::CopyLogical {
        copy_first(alloc, names, shape, operands)
    } else {
        on_arguments(alloc, Operation::Copy, shape, operands)
    }
}

/// The expression of an operation, from the shape of its result, its literals and its operands.
#[inline(always)]
fn write_operation(
    alloc: Global,
    op: Op,
    operation: Operation,
    shape: &Shape,
    operands: Vec<Arg>,
    extra: &[u32],
    names: &Names,
) -> Result<Expr, Memory>
    requires { HasFewMembers (tree_of shape.now) }
    ensures { IfOk result (λ e. expr_of e ≡ lowered.written (naming_of names.now) op operation (tree_of shape.now) extra.now (map argument_of operands.items)) }
{
    match operation {
        Operation::CompositeConstruct => construct(alloc, names, shape, operands),
        Operation::CompositeExtract => extract_first(alloc, names, extra, operands),
        Operation::VectorExtractDynamic => extract_at(alloc, operands),
        Operation::VectorShuffle => shuffle_two(alloc, names, shape, extra, operands),
        Operation::Copy => copy_by(alloc, op, shape, operands, names),
        Operation::Unary(_)
        | Operation::Binary(_)
        | Operation::Comparison(_)
        | Operation::Logical(_)
        | Operation::LogicalNot
        | Operation::Clamp(_)
        | Operation::BitFieldInsert
        | Operation::BitFieldSExtract
        | Operation::BitFieldUExtract
        | Operation::Any
        | Operation::All
        | Operation::Select
        | Operation::Undef
        | Operation::VectorInsertDynamic
        | Operation::CompositeInsert => on_arguments(alloc, operation, shape, operands),
    }
}

/// The expression of an operation with a result of this shape, which may be a vector, an array or a struct: what `lower` says of
/// scalars; on vectors GLSL's operators, and else a constructor of the components (GLSL 4.60, sections 5.4 and 5.9);
/// OpCompositeConstruct, OpVectorShuffle and OpCopyLogical as constructors; OpCompositeExtract and OpVectorExtractDynamic as
/// selections; OpSelect by one bool of any shape.
///
/// `op` is the opcode, `ext`, of OpExtInst, the number in GLSL.std.450 (`NOT_EXTENDED` of another), and `extra` the literals of the instruction. A struct and
/// a member have the names of their keys. An operand that is not there counts as `0u`, and of an opcode that is none of these
/// operations the expression is a zero. A struct in the shape has fewer than 2^32 members. There is an error only for want of memory.
#[inline(always)]
pub fn lower_vector(
    alloc: Global,
    op: Op,
    ext: u32,
    shape: Shape,
    operands: Vec<Arg>,
    extra: &[u32],
    names: &Names,
) -> Result<Expr, Memory>
    requires { HasFewMembers (tree_of shape) }
    ensures lowered { IfOk result (λ e. expr_of e ≡ lowered.lowered_vector (naming_of names.now) op ext (tree_of shape) extra.now (map argument_of operands.items)) }
    ensures height { IfOk result (λ e. depth (tree_of shape) ≤ 15 → deepest_argument (map argument_of operands.items) ≤ 15 → height (expr_of e) ≤ 40 + highest_argument (map argument_of operands.items)) }
{
    match operation(op, ext) {
        None => Ok(literal(basic_type(&shape).elem, 0)),
        Some(operation) => write_operation(alloc, op, operation, &shape, operands, extra, names),
    }
}
