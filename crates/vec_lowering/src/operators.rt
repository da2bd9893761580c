// The operations on scalars and vectors that are one operator.
ghost use Rattle.std.specs.Prelude.{◌≡◌, ◌∷◌, []};
ghost use Rattle.op_semantics.specs.Value.{not_extended, operation_of as operation_by};
ghost use Rattle.vec_lowering.specs.Operators as operators;

use int_lowering::{BasicType, Operator, arithmetic_operator, comparison_operator, operation};
use op_semantics::{NOT_EXTENDED, Operation};
use spv_ops::Op;

/// The operator that an operation is written with, by the type of its result.
#[inline(always)]
fn operator_of(operation: Operation, ty: BasicType) -> Option<Operator>
    ensures { result ≡ operators.operator_of operation ty }
{
    match operation {
        Operation::Binary(op) => arithmetic_operator(op, ty.elem),
        Operation::Comparison(op) => match ty.size {
            Some(_) => None,
            None => comparison_operator(op),
        },
        _ => None,
    }
}

/// The operator that `lower_vector` writes an instruction on two operands with, by its opcode and the type of its result: that of
/// OpIAdd to OpIMul, OpUDiv, OpUMod, a shift, a bitwise operation, or of scalars a comparison by order. There is none exactly of
/// any other instruction.
#[inline(always)]
pub fn operator(op: Op, ty: BasicType) -> Option<Operator>
    ensures { result ≡ operators.operator_if_any (operation_by op (not_extended ∷ [])) ty }
{
    operator_of(operation(op, NOT_EXTENDED)?, ty)
}
