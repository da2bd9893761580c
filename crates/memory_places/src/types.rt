// The types to which indexes lead, how many bytes lie before the part at an index, and which indexes are allowed.
ghost use Rattle.std.specs.Prelude.{◌≡◌, ◌*◌, false, min, unwrap_or, option_map, option_and_then};
ghost use Rattle.std.specs.Option.{option_map_or};
ghost use Rattle.spv_ops.specs.Enumerants.{decoration_number};
ghost use Rattle.spv_module.specs.Held.{global};
ghost use Rattle.spv_decor.specs.Rows.{value_of};
ghost use Rattle.spv_types.specs.Types.{type_tree};
ghost use Rattle.spv_types.specs.View.{value_of as tree_of_value};
ghost use Rattle.spv_index.specs.Pointers.{pointee};
ghost use Rattle.module_semantics.specs.Operands.{as_word};
ghost use Rattle.module_semantics.specs.Setting.{Setting};
ghost use Rattle.module_semantics.specs.Memory as memory;
ghost use Rattle.memory_places.specs.Capped.{most_bytes};
ghost use Rattle.memory_places.specs.Kernel.{bare, bare_with};
ghost use Rattle.memory_places.specs.Types.{is_signed_tree, length_if};

use constant_values::Constants;
use spv_decor::Decor;
use spv_index::pointer;
use spv_module::{Id, Inst, Module, Value};
use spv_ops::{Decoration, Op};

/// The type of the part at an index: a struct has a type for each member, an array and a vector one for all.
fn part_by(inst: &Inst, index: u32) -> u32
    ensures { result ≡ memory.part_by inst.now.op inst.now.args index }
{
    match inst.op {
        Op::TypeStruct => inst.operand(index as usize),
        _ => inst.operand(0),
    }
}

pub fn part_type(module: &Module, ty: u32, index: u32) -> u32
    ensures { result ≡ memory.part_type (bare «module».now) ty index }
{
    match module.global(Id(ty)) {
        None => 0,
        Some(inst) => part_by(inst, index),
    }
}

/// The literal of a decoration of an id, and 0 where it has none.
pub fn literal(decor: &Decor, decoration: Decoration, id: u32) -> u32
    ensures { result ≡ unwrap_or (value_of decor.now id (decoration_number decoration)) 0 }
{
    decor.value(Id(id), decoration.number()).unwrap_or(0)
}

pub fn member_offset(decor: &Decor, id: u32, member: u32) -> u32
    ensures { (s : Setting) → s.of.heads ≡ decor.now → result ≡ memory.member_offset s id member }
{
    decor
        .member_value(Id(id), member, Decoration::Offset.number())
        .unwrap_or(0)
}

pub fn array_stride(decor: &Decor, id: u32) -> u32
    ensures { (s : Setting) → s.of.heads ≡ decor.now → result ≡ memory.array_stride s id }
{
    literal(decor, Decoration::ArrayStride, id)
}

fn strides(index: u32, stride: u32) -> u64
    ensures { result ≡ min most_bytes (index * stride) }
{
    u64::from(index).saturating_mul(u64::from(stride))
}

/// How many bytes the part at an index lies behind the first byte of the whole (SPIR-V 1.6, section 3.20, "Offset", "ArrayStride"); a component of a
/// vector has four.
fn bytes_by(decor: &Decor, inst: &Inst, index: u32) -> u64
    ensures { (s : Setting) → s.of.heads ≡ decor.now → result ≡ min most_bytes (memory.bytes_by s inst.now index inst.now.op) }
{
    match inst.op {
        Op::TypeStruct => u64::from(member_offset(decor, inst.result, index)),
        Op::TypeArray | Op::TypeRuntimeArray => strides(index, array_stride(decor, inst.result)),
        Op::TypeVector => u64::from(index) * 4,
        _ => 0,
    }
}

pub fn part_bytes(module: &Module, decor: &Decor, ty: u32, index: u32) -> u64
    requires { decor.now ≡ «module».now.heads }
    ensures { result ≡ min most_bytes (memory.part_bytes (bare «module».now) ty index) }
{
    match module.global(Id(ty)) {
        None => 0,
        Some(inst) => bytes_by(decor, inst, index),
    }
}

/// The type of a variable, without its pointer.
pub fn variable_type(module: &Module, v: &Inst) -> u32
    ensures { result ≡ unwrap_or (pointee «module».now.globals v.now.ty) 0 }
{
    match pointer(module, Id(v.ty)) {
        None => 0,
        Some(pointer) => pointer.pointee.0,
    }
}

/// Whether this is an OpTypeInt of 32 bits with a sign.
#[tactic(auto, using(crate::proofs::Signed::signed_type))]
fn is_signed(module: &Module, ty: u32) -> bool
    ensures { result ≡ is_signed_tree (type_tree «module».now.globals ty) }
{
    match module.global(Id(ty)) {
        None => false,
        Some(inst) => inst.is_sint(),
    }
}

fn word_of(value: Option<&Value>) -> Option<u32>
    ensures { result ≡ as_word (option_map (λ v. tree_of_value v.now) value.entry) }
{
    match value {
        None => None,
        Some(value) => word_in(value),
    }
}

/// The word of a value that is one.
pub fn word_in(value: &Value) -> Option<u32>
    ensures { result ≡ as_word (Some (tree_of_value value.now)) }
{
    match value {
        Value::Word(word) => Some(*word),
        Value::Bool(_) | Value::Many(_) => None,
    }
}

/// The word, unless it is below zero as a number with a sign.
fn length_by(is_signed: bool, word: u32) -> Option<u32>
    ensures { result ≡ length_if is_signed word }
{
    if is_signed && word >= 0x8000_0000 {
        None
    } else {
        Some(word)
    }
}

/// The type of a value of the module, and 0 where it has none.
fn value_type(module: &Module, id: u32) -> u32
    ensures { result ≡ option_map_or (λ g. g.ty) (global «module».now.globals id) 0 }
{
    match module.global(Id(id)) {
        None => 0,
        Some(inst) => inst.ty,
    }
}

/// Whether the constant is an integer with a sign.
fn is_signed_value(module: &Module, id: u32) -> bool
    ensures { result ≡ is_signed_tree (option_and_then (λ g. type_tree «module».now.globals g.ty) (global «module».now.globals id)) }
{
    match module.global(Id(id)) {
        None => false,
        Some(inst) => is_signed(module, inst.ty),
    }
}

/// The length of an array: the word of its constant, where that has a value and is not below zero.
fn array_length(module: &Module, values: &Constants, id: u32) -> Option<u32>
    ensures { result ≡ memory.array_length (bare_with «module».now values.now) id }
{
    match word_of(values.get(Id(id))) {
        None => None,
        Some(word) => length_by(is_signed_value(module, id), word),
    }
}

/// Whether an index is below the number of parts of a type; any index may lead into a runtime array.
fn is_part(module: &Module, values: &Constants, inst: &Inst, index: u32) -> bool
    ensures { result ≡ memory.is_among (memory.parts_by (bare_with «module».now values.now) inst.now.op inst.now.args) index }
{
    match inst.op {
        Op::TypeVector => index < inst.operand(1),
        Op::TypeArray => index < array_length(module, values, inst.operand(1)).unwrap_or(0),
        Op::TypeStruct => (index as usize) < inst.args.as_slice().len(),
        Op::TypeRuntimeArray => true,
        _ => false,
    }
}

fn leads_into(module: &Module, values: &Constants, ty: u32, index: u32) -> bool
    ensures { result ≡ option_map_or (λ g. memory.is_among (memory.parts_by (bare_with «module».now values.now) g.op g.args) index) (global «module».now.globals ty) false }
{
    match module.global(Id(ty)) {
        None => false,
        Some(inst) => is_part(module, values, inst, index),
    }
}

/// Whether the type allows the index: it is read with a sign, so it is below 2 ^ 31, and it is below the number of parts (SPIR-V 1.6,
/// OpAccessChain, "Indexes").
fn is_allowed(module: &Module, values: &Constants, ty: u32, index: u32) -> bool
    ensures { result ≡ memory.is_allowed (bare_with «module».now values.now) ty index }
{
    index < 0x8000_0000 && leads_into(module, values, ty, index)
}

/// The type to which indexes lead.
#[tactic(auto, using(crate::proofs::Along::type_rules))]
pub fn type_along(module: &Module, ty: u32, indexes: &[u32]) -> u32
    ensures { result ≡ memory.type_along (bare «module».now) ty indexes.now }
{
    let mut part = ty;
    for index in indexes {
        part = part_type(module, part, *index);
    }
    part
}

/// Whether each of the indexes is allowed by the type to which those before it lead.
#[tactic(auto, using(crate::proofs::Along::allowed_rules))]
pub fn are_allowed(module: &Module, values: &Constants, ty: u32, indexes: &[u32]) -> bool
    ensures { result ≡ memory.are_allowed (bare_with «module».now values.now) ty indexes.now }
{
    let mut part = ty;
    for index in indexes {
        if !is_allowed(module, values, part, *index) {
            return false;
        }
        part = part_type(module, part, *index);
    }
    true
}

/// How many bytes the part to which indexes lead lies behind the first byte of the whole, up to the greatest number of 64 bits.
#[tactic(auto, using(crate::proofs::Along::byte_rules))]
pub fn bytes_along(module: &Module, decor: &Decor, ty: u32, indexes: &[u32]) -> u64
    requires { decor.now ≡ «module».now.heads }
    ensures { result ≡ min most_bytes (memory.bytes_along (bare «module».now) ty indexes.now) }
{
    let mut part = ty;
    let mut bytes = 0u64;
    for index in indexes {
        bytes = bytes.saturating_add(part_bytes(module, decor, part, *index));
        part = part_type(module, part, *index);
    }
    bytes
}
