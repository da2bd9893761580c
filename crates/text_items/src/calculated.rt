// The expressions of calculated constants (SPIR-V 1.6, OpSpecConstantOp).
ghost use Rattle.std.specs.Prelude.{◌≡◌, IfOk, drop, map};
ghost use Rattle.std.specs.List.{All};
ghost use Rattle.std.specs.Option.{option_copied};
ghost use Rattle.glsl_ast.specs.View.{expr_of};
ghost use Rattle.few_law.specs.Short.{HasFewArgs};
ghost use Rattle.profile_rules.specs.Constants.{inner_operands as inner_operands_of, inner_literals as inner_literals_of};
ghost use Rattle.name_alloc.specs.Lookup.{name_in};
ghost use Rattle.vec_lowering.specs.Composite.{argument_of};
ghost use Rattle.constant_text.specs.Named.{id_names};
ghost use Rattle.text_items.specs.Names.{is_number as is_number_type, literal_word as literal_word_of, operand_by, operand as operand_of, calculated_by as calculated_by_opcode, calculated as calculated_of};

use crate::shapes::shape_at;
use constant_text::{Reading, Readings, scalar_type};
use glsl_ast::{Expr, Literal};
use int_lowering::{Arg, basic_type, literal};
use name_alloc::Names;
use op_semantics::NOT_EXTENDED;
use spv_module::{Elem, Id, Inst, Shape};
use spv_ops::{Op, inner_op};
use spv_words::Memory;
use std::alloc::Global;
use vec_lowering::lower_vector;

fn is_number(ty: Option<Elem>) -> bool
    ensures { result ≡ is_number_type ty }
{
    matches!(ty, Some(Elem::Int | Elem::Uint))
}

/// The word of a scalar integer constant that is written as a literal.
fn literal_word(readings: &Readings, inst: &Inst) -> Option<u32>
    ensures { result ≡ literal_word_of readings.now inst.now }
{
    if inst.op.is_constant()
        && matches!(readings.reading(inst), Reading::Plain)
        && is_number(scalar_type(readings.module(), inst.ty))
    {
        Some(readings.word(inst))
    } else {
        None
    }
}

/// An operand; `0u` where there is none.
fn operand_at(
    alloc: Global,
    readings: &Readings,
    names: &Names,
    inst: Option<&Inst>,
) -> Result<Arg, Memory>
    ensures { IfOk result (λ a. argument_of a ≡ operand_by readings.now (id_names names.now) (option_copied inst.entry)) }
{
    match inst {
        None => Ok(Arg {
            expr: Expr::Literal(Literal::Uint(0)),
            shape: Shape::Uint,
            word: None,
        }),
        Some(inst) => Ok(Arg {
            expr: readings.constant_expr(alloc, names, inst)?,
            shape: shape_at(alloc, readings.module(), inst.ty)?,
            word: literal_word(readings, inst),
        }),
    }
}

/// The operand with an id.
fn operand(alloc: Global, readings: &Readings, names: &Names, id: u32) -> Result<Arg, Memory>
    ensures { IfOk result (λ a. argument_of a ≡ operand_of readings.now (id_names names.now) id) }
{
    let inst = readings.module().global(Id(id));
    operand_at(alloc, readings, names, inst)
}

fn operands(
    alloc: Global,
    readings: &Readings,
    names: &Names,
    ids: &[u32],
) -> Result<Vec<Arg>, Memory>
    ensures { IfOk result (λ args. map argument_of args.items ≡ map (operand_of readings.now (id_names names.now)) ids.now) }
{
    let mut args = Vec::new(alloc);
    for id in ids {
        args.push(operand(alloc, readings, names, *id)?)?;
    }
    Ok(args)
}

/// The words behind the opcode.
fn behind_opcode(inst: &Inst) -> &[u32]
    ensures { result.now ≡ drop 1 inst.now.args }
{
    inst.args.as_slice().get(1..).unwrap_or(&[])
}

/// Of the words behind the opcode, those that are operands.
fn inner_operands(op: Op, words: &[u32]) -> &[u32]
    ensures { result.now ≡ inner_operands_of op words.now }
{
    op.operands().ids(words)
}

/// Those that are literals.
fn inner_literals(op: Op, words: &[u32]) -> &[u32]
    ensures { result.now ≡ inner_literals_of op words.now }
{
    op.operands().literals(words)
}

/// The expression of the operation with an opcode, from those of its operands.
fn calculated_by(
    alloc: Global,
    readings: &Readings,
    names: &Names,
    inst: &Inst,
    op: Op,
) -> Result<Expr, Memory>
    requires { All HasFewArgs readings.now.of.globals }
    ensures { IfOk result (λ e. expr_of e ≡ calculated_by_opcode readings.now (name_in names.now) (id_names names.now) inst.now (drop 1 inst.now.args) op) }
{
    let words = behind_opcode(inst);
    let ids = inner_operands(op, words);
    let literals = inner_literals(op, words);
    let args = operands(alloc, readings, names, ids)?;
    let shape = shape_at(alloc, readings.module(), inst.ty)?;
    lower_vector(alloc, op, NOT_EXTENDED, shape, args, literals, names)
}

/// The expression of a calculated constant. Where there is no operation, it is a zero.
pub fn calculated(
    alloc: Global,
    readings: &Readings,
    names: &Names,
    inst: &Inst,
) -> Result<Expr, Memory>
    requires { All HasFewArgs readings.now.of.globals }
    ensures { IfOk result (λ e. expr_of e ≡ calculated_of readings.now names.now inst.now) }
{
    match inner_op(inst.operand(0)) {
        Some(op) => calculated_by(alloc, readings, names, inst, op),
        None => {
            let shape = shape_at(alloc, readings.module(), inst.ty)?;
            Ok(literal(basic_type(&shape).elem, 0))
        }
    }
}
