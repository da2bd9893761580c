// Generated modules.
ghost use Rattle.std.specs.Prelude.{◌≡◌, ◌≤◌, IfOk, OnOk, ◌++◌};
ghost use Rattle.spv_words.specs.Words.{octets_of};
ghost use Rattle.module_gen.specs.Generated.{generated, frame, pieces_from};

use crate::Builder;
use crate::ids::{
    ARRAY, BLOCK, BOOL, BUFFER, BUFFER_BLOCK, BUFFER_UINT, EIGHT, ENTRY, FIRST_BLOCK,
    FUNCTION_TYPE, INDEX, INDEX_POINTER, INPUT_UINT, INPUT_VECTOR, INVOCATION, ONE, UINT, VECTOR,
    VOID, ZERO,
};
use crate::pieces::put_piece;
use crate::rows::put_rows;
use spv_ops::{BuiltIn, Capability, Decoration, ExecutionMode, ExecutionModel, Op, StorageClass};
use spv_words::Memory;
use std::alloc::Global;

const VERSION: u32 = 0x00010300;

const INPUT: u32 = StorageClass::Input as u32;

const STORAGE_BUFFER: u32 = StorageClass::StorageBuffer as u32;

/// From the capability to the index of the element on which the pieces work.
const FRAME: [(Op, &[u32]); 30] = [
    (Op::Capability, &[Capability::Shader as u32]),
    // Logical, GLSL450
    (Op::MemoryModel, &[0, 1]),
    // "main"
    (
        Op::EntryPoint,
        &[
            ExecutionModel::GLCompute as u32,
            ENTRY,
            0x6E69616D,
            0,
            INVOCATION,
        ],
    ),
    (
        Op::ExecutionMode,
        &[ENTRY, ExecutionMode::LocalSize as u32, 64, 1, 1],
    ),
    (
        Op::Decorate,
        &[
            INVOCATION,
            Decoration::BuiltIn as u32,
            BuiltIn::GlobalInvocationId as u32,
        ],
    ),
    (Op::Decorate, &[BLOCK, Decoration::Block as u32]),
    (
        Op::MemberDecorate,
        &[BLOCK, 0, Decoration::Offset as u32, 0],
    ),
    (Op::Decorate, &[ARRAY, Decoration::ArrayStride as u32, 4]),
    (Op::Decorate, &[BUFFER, Decoration::DescriptorSet as u32, 0]),
    (Op::Decorate, &[BUFFER, Decoration::Binding as u32, 0]),
    (Op::TypeVoid, &[VOID]),
    (Op::TypeFunction, &[FUNCTION_TYPE, VOID]),
    (Op::TypeInt, &[UINT, 32, 0]),
    (Op::TypeVector, &[VECTOR, UINT, 3]),
    (Op::TypePointer, &[INPUT_VECTOR, INPUT, VECTOR]),
    (Op::Variable, &[INPUT_VECTOR, INVOCATION, INPUT]),
    (Op::TypePointer, &[INPUT_UINT, INPUT, UINT]),
    (Op::TypeRuntimeArray, &[ARRAY, UINT]),
    (Op::TypeStruct, &[BLOCK, ARRAY]),
    (Op::TypePointer, &[BUFFER_BLOCK, STORAGE_BUFFER, BLOCK]),
    (Op::Variable, &[BUFFER_BLOCK, BUFFER, STORAGE_BUFFER]),
    (Op::TypePointer, &[BUFFER_UINT, STORAGE_BUFFER, UINT]),
    (Op::Constant, &[UINT, ZERO, 0]),
    (Op::Constant, &[UINT, ONE, 1]),
    (Op::TypeBool, &[BOOL]),
    (Op::Constant, &[UINT, EIGHT, 8]),
    (Op::Function, &[VOID, ENTRY, 0, FUNCTION_TYPE]),
    (Op::Label, &[FIRST_BLOCK]),
    (
        Op::AccessChain,
        &[INPUT_UINT, INDEX_POINTER, INVOCATION, ZERO],
    ),
    (Op::Load, &[UINT, INDEX, INDEX_POINTER]),
];

#[tactic(auto, unfolding(crate::specs::Generated::frame))]
fn put_frame(builder: &mut Builder) -> Result<(), Memory>
    ensures { OnOk result (builder.new ≡ record builder.old { insts = builder.old.insts ++ frame }) }
{
    put_rows(builder, &FRAME)
}

/// Puts the pieces 1 to n, the first of which begins in the frame's block.
fn put_pieces(builder: &mut Builder, n: u32) -> Result<(), Memory>
    requires { n ≤ 1000 }
    ensures { OnOk result (builder.new ≡ record builder.old { insts = builder.old.insts ++ pieces_from n 1 16 }) }
{
    let mut block = FIRST_BLOCK;
    for number in 1..n + 1 {
        block = put_piece(builder, number, block)?;
    }
    Ok(())
}

/// The bytes of a compute shader of `n` pieces (SPIR-V 1.6, sections 2.3 and 2.4; the version word says 1.3), each word's
/// lowest-order octet first. Their number grows linearly with `n`. Piece after piece, an invocation works on its element of
/// a storage buffer of `uint`: by turns it adds 1, adds 1 where the element is below 8, and adds each number below 8 in a
/// loop. `Memory` is answered only for want of memory.
pub fn generate(alloc: Global, n: u32) -> Result<Vec<u8>, Memory>
    requires positive { 1 ≤ n }
    requires small { n ≤ 1000 }
    ensures { IfOk result (λ bytes. bytes.items ≡ octets_of (generated n)) }
{
    let mut builder = Builder::new(alloc, VERSION)?;
    put_frame(&mut builder)?;
    put_pieces(&mut builder, n)?;
    put_rows(&mut builder, &[(Op::Return, &[]), (Op::FunctionEnd, &[])])?;
    builder.finish(32 + 16 * n)
}
