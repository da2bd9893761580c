// Kinds of instructions.
ghost use Rattle.std.specs.Prelude.{◌≡◌};
ghost use Rattle.expr_forward.specs.Kinds.{kind_in, kind_of, operation_of, operation_kind_of};

use spv_ops::{AtomicOp, Op, OpGroup};

/// How the value of an operation is written: OpUndef, OpCopyObject, OpArrayLength, OpCompositeExtract,
/// OpCompositeConstruct, OpCopyLogical, OpExtInst, and any other, which is on scalars and vectors. What is
/// no such operation has a variable.
#[derive(Clone, Copy, Debug, PartialEq, Eq)]
pub enum OperationKind {
    Undef,
    CopyObject,
    ArrayLength,
    CompositeExtract,
    CompositeConstruct,
    CopyLogical,
    Extended,
    Plain,
    Other,
}

/// What is written for an instruction: a read or a write of memory; a call; an atomic operation; a barrier;
/// the captured indexes of a chain; a copy of a composite with another part; the value of an operation; or
/// nothing, as for OpVariable, OpPhi, merge instructions and terminators.
#[derive(Clone, Copy, Debug)]
pub enum InstKind {
    Load,
    Store,
    Call,
    Atomic(AtomicOp),
    ControlBarrier,
    MemoryBarrier,
    Chain,
    CompositeInsert,
    VectorInsertDynamic,
    Value(OperationKind),
    Silent,
}

impl InstKind {
    /// The kind of instruction of an opcode (SPIR-V 1.6, section 3.49).
    #[inline(always)]
    #[tactic(auto, unfolding(crate::specs::Kinds::kind_of))]
    pub(crate) fn of(op: Op) -> InstKind
        ensures { result ≡ kind_of op }
    {
        InstKind::of_group(op.group())
    }

    #[inline(always)]
    fn of_group(group: OpGroup) -> InstKind
        ensures { result ≡ kind_in group }
    {
        match group {
            OpGroup::Load => InstKind::Load,
            OpGroup::Store => InstKind::Store,
            OpGroup::Call => InstKind::Call,
            OpGroup::Atomic(op) => InstKind::Atomic(op),
            OpGroup::ControlBarrier => InstKind::ControlBarrier,
            OpGroup::MemoryBarrier => InstKind::MemoryBarrier,
            OpGroup::Chain => InstKind::Chain,
            OpGroup::CompositeInsert => InstKind::CompositeInsert,
            OpGroup::VectorInsertDynamic => InstKind::VectorInsertDynamic,
            OpGroup::Variable | OpGroup::Phi | OpGroup::Merge | OpGroup::Terminator(_) => {
                InstKind::Silent
            }
            // these stand in no block
            OpGroup::Debug | OpGroup::Head | OpGroup::Type | OpGroup::Function => InstKind::Silent,
            OpGroup::Truth | OpGroup::Number | OpGroup::Composite | OpGroup::AnyConstant => {
                InstKind::Silent
            }
            OpGroup::Undef => InstKind::Value(OperationKind::Undef),
            OpGroup::ArrayLength => InstKind::Value(OperationKind::ArrayLength),
            OpGroup::CopyObject => InstKind::Value(OperationKind::CopyObject),
            OpGroup::CopyLogical => InstKind::Value(OperationKind::CopyLogical),
            OpGroup::CompositeConstruct => InstKind::Value(OperationKind::CompositeConstruct),
            OpGroup::CompositeExtract => InstKind::Value(OperationKind::CompositeExtract),
            OpGroup::Extended => InstKind::Value(OperationKind::Extended),
            // on scalars and vectors
            OpGroup::Arithmetic | OpGroup::Comparison | OpGroup::Logical | OpGroup::Select => {
                InstKind::Value(OperationKind::Plain)
            }
            OpGroup::BitFieldInsert | OpGroup::BitFieldExtract | OpGroup::BitOperation => {
                InstKind::Value(OperationKind::Plain)
            }
            OpGroup::Bitcast
            | OpGroup::AnyOrAll
            | OpGroup::VectorExtractDynamic
            | OpGroup::VectorShuffle => InstKind::Value(OperationKind::Plain),
        }
    }

    #[inline(always)]
    fn operation(self) -> OperationKind
        ensures { result ≡ operation_of self }
    {
        match self {
            InstKind::Value(kind) => kind,
            _ => OperationKind::Other,
        }
    }
}

impl OperationKind {
    /// The kind of operation of an opcode.
    #[inline(always)]
    #[tactic(auto, unfolding(crate::specs::Kinds::operation_kind_of))]
    pub(crate) fn of(op: Op) -> OperationKind
        ensures { result ≡ operation_kind_of op }
    {
        InstKind::of(op).operation()
    }
}
