// The types to which indexes lead.
ghost use Rattle.std.specs.Prelude.{◌≡◌, drop, option_and_then};
ghost use Rattle.spv_index.specs.Steps.{constant_word as constant_word_of, is_struct as is_struct_in, step_type as step_type_in};

use spv_module::{Id, Inst, Module};
use spv_ops::Op;

/// The operands behind the first: the indexes of a chain, the arguments of a call.
pub fn behind_first(inst: &Inst) -> &[u32]
    ensures { result.now ≡ drop 1 inst.now.args }
{
    inst.args.as_slice().get(1..).unwrap_or(&[])
}

/// The word of the OpConstant with this id, and `None` exactly where no OpConstant has it.
pub fn constant_word(module: &Module, id: u32) -> Option<u32>
    ensures { result ≡ constant_word_of «module».now.globals id }
{
    let inst = module.global(Id(id))?;
    if inst.op == Op::Constant {
        Some(inst.operand(0))
    } else {
        None
    }
}

/// Whether this is the id of a struct type.
pub fn is_struct(module: &Module, ty: u32) -> bool
    ensures { result ≡ is_struct_in «module».now.globals ty }
{
    module
        .global(Id(ty))
        .map_or(false, |inst| inst.op == Op::TypeStruct)
}

/// The type to which an index into a type leads.
#[inline(always)]
fn step_type(module: &Module, index: u32, ty: u32) -> Option<u32>
    ensures { result ≡ step_type_in «module».now.globals index ty }
{
    let inst = module.global(Id(ty))?;
    match inst.op {
        Op::TypeStruct => {
            let member = constant_word(module, index)?;
            inst.args.as_slice().get(member as usize).copied()
        }
        Op::TypeVector | Op::TypeArray | Op::TypeRuntimeArray => Some(inst.operand(0)),
        _ => None,
    }
}

/// The type to which an index leads from a type, where there is one: that of a struct's member, of an
/// array's element, of a vector's component (SPIR-V 1.6, "Memory Instructions", OpAccessChain).
#[inline(always)]
pub fn next_type(module: &Module, index: u32, ty: Option<u32>) -> Option<u32>
    ensures { result ≡ option_and_then (step_type_in «module».now.globals index) ty }
{
    match ty {
        None => None,
        Some(ty) => step_type(module, index, ty),
    }
}
