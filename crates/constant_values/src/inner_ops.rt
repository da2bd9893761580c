// The operations inside OpSpecConstantOps.
ghost use Rattle.std.specs.Prelude.{◌≡◌};
ghost use Rattle.profile_rules.specs.Constants.{is_flat as is_flat_tree, gives_parts as gives_parts_of, inner_operands as inner_operands_of, inner_literals as inner_literals_of};
ghost use Rattle.spv_types.specs.View.{tree_of};

use spv_module::Shape;
use spv_ops::Op;

/// Whether the result may be an array or a struct.
pub fn gives_parts(op: Op) -> bool
    ensures { result ≡ gives_parts_of op }
{
    matches!(op, Op::CompositeExtract | Op::Select)
}

/// A scalar or a vector.
#[tactic(auto, using(spv_types::proofs::Views::shape_rows))]
pub fn is_flat(shape: &Shape) -> bool
    ensures { result ≡ is_flat_tree (tree_of shape.now) }
{
    match shape {
        Shape::Bool | Shape::Int | Shape::Uint | Shape::Vector(_, _) => true,
        Shape::Array(_, _) | Shape::Runtime(_) | Shape::Struct(_, _) => false,
    }
}

/// Of the words behind the opcode, those that are operands.
pub fn inner_operands(op: Op, words: &[u32]) -> &[u32]
    ensures { result.now ≡ inner_operands_of op words.now }
{
    op.operands().ids(words)
}

/// Of the words behind the opcode, those that are literals.
pub fn inner_literals(op: Op, words: &[u32]) -> &[u32]
    ensures { result.now ≡ inner_literals_of op words.now }
{
    op.operands().literals(words)
}
