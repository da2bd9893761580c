// Scalar types.
ghost use Rattle.std.specs.Prelude.{◌≡◌, List, option_and_then};
ghost use Rattle.spv_module.specs.declared.inst.Inst.{Inst as InstOf};
ghost use Rattle.spv_types.specs.Types.{type_tree, tree_at, elem_of};

use spv_module::{Elem, Id, Inst, Module};
use spv_ops::Op;

/// The scalar type that an instruction declares.
#[inline(always)]
#[tactic(auto, unfolding(spv_types::specs::Types::kind))]
pub(crate) fn scalar(inst: &Inst) -> Option<Elem>
    ensures { (gs : List InstOf) → result ≡ option_and_then elem_of (tree_at gs inst.now) }
{
    match (inst.op, inst.operand(0), inst.operand(1)) {
        (Op::TypeBool, _, _) => Some(Elem::Bool),
        (Op::TypeInt, 32, 0) => Some(Elem::Uint),
        (Op::TypeInt, 32, 1) => Some(Elem::Int),
        _ => None,
    }
}

/// The scalar type with this id: bool, or an integer of 32 bits (SPIR-V 1.6, OpTypeBool and OpTypeInt).
#[inline(always)]
pub fn scalar_type(module: &Module, ty: u32) -> Option<Elem>
    ensures { result ≡ option_and_then elem_of (type_tree «module».now.globals ty) }
{
    scalar(module.global(Id(ty))?)
}
