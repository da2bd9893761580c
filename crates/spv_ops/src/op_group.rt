// The opcodes in groups, of which most questions ask the same.
ghost use Rattle.std.specs.Prelude.{◌≡◌};
ghost use Rattle.spv_ops.specs.OpGroups.{group_of, class_in, takes_of, takes_in, takes_at_end, is_inner_group};
ghost use Rattle.spv_ops.specs.Shape.{class_of};

use crate::Op;

/// A group of opcodes. Each opcode is in one, so that a match on groups names all of them.
#[derive(Clone, Copy, Debug)]
pub enum OpGroup {
    /// Names, sources and lines.
    Debug,
    /// What stands before the types: capabilities, entry points, modes, decorations.
    Head,
    /// OpTypeVoid to OpTypeFunction.
    Type,
    /// OpConstantTrue, OpConstantFalse, OpSpecConstantTrue, OpSpecConstantFalse.
    Truth,
    /// OpConstant, OpSpecConstant.
    Number,
    /// OpConstantComposite, OpSpecConstantComposite.
    Composite,
    /// OpConstantNull, OpSpecConstantOp.
    AnyConstant,
    Undef,
    /// OpFunction, OpFunctionParameter, OpFunctionEnd, OpLabel.
    Function,
    Variable,
    Load,
    Store,
    /// OpAccessChain, OpInBoundsAccessChain.
    Chain,
    ArrayLength,
    CopyObject,
    CopyLogical,
    Bitcast,
    VectorExtractDynamic,
    VectorInsertDynamic,
    VectorShuffle,
    CompositeConstruct,
    CompositeExtract,
    CompositeInsert,
    /// OpSNegate to OpSMod, the shifts, the bitwise operations.
    Arithmetic,
    /// OpIEqual to OpSLessThanEqual.
    Comparison,
    /// OpLogicalEqual to OpLogicalNot.
    Logical,
    /// OpAny, OpAll.
    AnyOrAll,
    Select,
    BitFieldInsert,
    /// OpBitFieldSExtract, OpBitFieldUExtract.
    BitFieldExtract,
    /// OpBitReverse, OpBitCount.
    BitOperation,
    /// OpExtInst.
    Extended,
    Atomic(AtomicOp),
    ControlBarrier,
    MemoryBarrier,
    /// OpFunctionCall.
    Call,
    Phi,
    /// OpLoopMerge, OpSelectionMerge.
    Merge,
    Terminator(Terminator),
}

/// An atomic instruction, by its name without `OpAtomic` (SPIR-V 1.6, section 3.49.18).
#[derive(Clone, Copy, Debug)]
pub enum AtomicOp {
    Load,
    Store,
    Exchange,
    CompareExchange,
    IIncrement,
    IDecrement,
    IAdd,
    ISub,
    SMin,
    UMin,
    SMax,
    UMax,
    And,
    Or,
    Xor,
}

/// An instruction that ends a block (SPIR-V 1.6, section 2.2.5).
#[derive(Clone, Copy, Debug)]
pub enum Terminator {
    Branch,
    BranchConditional,
    Switch,
    Return,
    ReturnValue,
    Unreachable,
}

/// What the operands that are ids have to name.
#[derive(Clone, Copy, Debug)]
pub enum Takes {
    Values,
    Types,
    /// A type, and then constants.
    TypeAndConstants,
    Constants,
    Labels,
    /// A value, and then labels.
    ValueAndLabels,
    /// A value, a label, and so on.
    ValuesWithLabels,
    /// An imported set of instructions, and then values.
    ImportAndValues,
    /// A function, and then values.
    FunctionAndValues,
}

impl Terminator {
    /// What its operands that are ids have to name.
    fn takes(self) -> Takes
        ensures { result ≡ takes_at_end self }
    {
        match self {
            Terminator::Branch => Takes::Labels,
            Terminator::BranchConditional | Terminator::Switch => Takes::ValueAndLabels,
            Terminator::Return | Terminator::ReturnValue | Terminator::Unreachable => Takes::Values,
        }
    }
}

impl OpGroup {
    /// Its opcodes may stand inside OpSpecConstantOp.
    pub fn is_inner(self) -> bool
        ensures { result ≡ is_inner_group self }
    {
        matches!(
            self,
            OpGroup::VectorShuffle
                | OpGroup::CompositeExtract
                | OpGroup::Arithmetic
                | OpGroup::Logical
                | OpGroup::Comparison
                | OpGroup::Select
        )
    }

    /// What the operands that are ids have to name, of each opcode of the group but OpTypeArray.
    fn takes(self) -> Takes
        ensures { result ≡ takes_in self }
    {
        match self {
            OpGroup::Type => Takes::Types,
            OpGroup::Composite | OpGroup::AnyConstant | OpGroup::Variable => Takes::Constants,
            OpGroup::Extended => Takes::ImportAndValues,
            OpGroup::Call => Takes::FunctionAndValues,
            OpGroup::Phi => Takes::ValuesWithLabels,
            OpGroup::Merge => Takes::Labels,
            OpGroup::Terminator(exit) => exit.takes(),
            OpGroup::Debug | OpGroup::Head | OpGroup::Truth | OpGroup::Number => Takes::Values,
            OpGroup::Undef | OpGroup::Function | OpGroup::Load | OpGroup::Store => Takes::Values,
            OpGroup::Chain | OpGroup::ArrayLength | OpGroup::Atomic(_) => Takes::Values,
            OpGroup::ControlBarrier | OpGroup::MemoryBarrier => Takes::Values,
            OpGroup::CopyObject
            | OpGroup::CopyLogical
            | OpGroup::Bitcast
            | OpGroup::VectorExtractDynamic
            | OpGroup::VectorInsertDynamic
            | OpGroup::VectorShuffle
            | OpGroup::CompositeConstruct
            | OpGroup::CompositeExtract
            | OpGroup::CompositeInsert
            | OpGroup::Arithmetic
            | OpGroup::Comparison
            | OpGroup::Logical
            | OpGroup::AnyOrAll
            | OpGroup::Select
            | OpGroup::BitFieldInsert
            | OpGroup::BitFieldExtract
            | OpGroup::BitOperation => Takes::Values,
        }
    }
}

impl Op {
    /// The group of the opcode.
    #[inline(always)]
    #[tactic(auto, using(crate::proofs::Grouped::class_of_group))]
    pub fn group(self) -> OpGroup
        ensures group { result ≡ group_of self }
        ensures class { class_in result ≡ class_of self }
    {
        grouped(self)
    }

    /// What the operands that are ids have to name, in an instruction behind the head of a module.
    #[inline(always)]
    #[tactic(auto, unfolding(crate::specs::OpGroups::takes_of))]
    pub fn takes(self) -> Takes
        ensures { result ≡ takes_of self }
    {
        match self {
            Op::TypeArray => Takes::TypeAndConstants,
            op => op.group().takes(),
        }
    }
}

#[inline(always)]
#[tactic(auto, unfolding(crate::specs::OpGroups::group_of))]
fn grouped(op: Op) -> OpGroup
    ensures { result ≡ group_of op }
{
    match op {
        Op::Nop
        | Op::SourceContinued
        | Op::Source
        | Op::SourceExtension
        | Op::Name
        | Op::MemberName
        | Op::String
        | Op::Line
        | Op::NoLine
        | Op::ModuleProcessed => OpGroup::Debug,
        Op::Extension
        | Op::ExtInstImport
        | Op::MemoryModel
        | Op::EntryPoint
        | Op::ExecutionMode
        | Op::Capability
        | Op::Decorate
        | Op::MemberDecorate
        | Op::ExecutionModeId => OpGroup::Head,
        Op::TypeVoid
        | Op::TypeBool
        | Op::TypeInt
        | Op::TypeVector
        | Op::TypeArray
        | Op::TypeRuntimeArray
        | Op::TypeStruct
        | Op::TypePointer
        | Op::TypeFunction => OpGroup::Type,
        Op::ConstantTrue | Op::ConstantFalse | Op::SpecConstantTrue | Op::SpecConstantFalse =>
            OpGroup::Truth,
        Op::Constant | Op::SpecConstant => OpGroup::Number,
        Op::ConstantComposite | Op::SpecConstantComposite => OpGroup::Composite,
        Op::ConstantNull | Op::SpecConstantOp => OpGroup::AnyConstant,
        Op::Undef => OpGroup::Undef,
        Op::Function | Op::FunctionParameter | Op::FunctionEnd | Op::Label => OpGroup::Function,
        Op::Variable => OpGroup::Variable,
        Op::Load => OpGroup::Load,
        Op::Store => OpGroup::Store,
        Op::AccessChain | Op::InBoundsAccessChain => OpGroup::Chain,
        Op::ArrayLength => OpGroup::ArrayLength,
        Op::CopyObject => OpGroup::CopyObject,
        Op::CopyLogical => OpGroup::CopyLogical,
        Op::Bitcast => OpGroup::Bitcast,
        Op::VectorExtractDynamic => OpGroup::VectorExtractDynamic,
        Op::VectorInsertDynamic => OpGroup::VectorInsertDynamic,
        Op::VectorShuffle => OpGroup::VectorShuffle,
        Op::CompositeConstruct => OpGroup::CompositeConstruct,
        Op::CompositeExtract => OpGroup::CompositeExtract,
        Op::CompositeInsert => OpGroup::CompositeInsert,
        Op::SNegate
        | Op::IAdd
        | Op::ISub
        | Op::IMul
        | Op::UDiv
        | Op::SDiv
        | Op::UMod
        | Op::SRem
        | Op::SMod
        | Op::ShiftRightLogical
        | Op::ShiftRightArithmetic
        | Op::ShiftLeftLogical
        | Op::BitwiseOr
        | Op::BitwiseXor
        | Op::BitwiseAnd
        | Op::Not => OpGroup::Arithmetic,
        Op::IEqual
        | Op::INotEqual
        | Op::UGreaterThan
        | Op::SGreaterThan
        | Op::UGreaterThanEqual
        | Op::SGreaterThanEqual
        | Op::ULessThan
        | Op::SLessThan
        | Op::ULessThanEqual
        | Op::SLessThanEqual => OpGroup::Comparison,
        Op::LogicalEqual | Op::LogicalNotEqual | Op::LogicalOr | Op::LogicalAnd | Op::LogicalNot =>
            OpGroup::Logical,
        Op::Any | Op::All => OpGroup::AnyOrAll,
        Op::Select => OpGroup::Select,
        Op::BitFieldInsert => OpGroup::BitFieldInsert,
        Op::BitFieldSExtract | Op::BitFieldUExtract => OpGroup::BitFieldExtract,
        Op::BitReverse | Op::BitCount => OpGroup::BitOperation,
        Op::ExtInst => OpGroup::Extended,
        Op::AtomicLoad => OpGroup::Atomic(AtomicOp::Load),
        Op::AtomicStore => OpGroup::Atomic(AtomicOp::Store),
        Op::AtomicExchange => OpGroup::Atomic(AtomicOp::Exchange),
        Op::AtomicCompareExchange => OpGroup::Atomic(AtomicOp::CompareExchange),
        Op::AtomicIIncrement => OpGroup::Atomic(AtomicOp::IIncrement),
        Op::AtomicIDecrement => OpGroup::Atomic(AtomicOp::IDecrement),
        Op::AtomicIAdd => OpGroup::Atomic(AtomicOp::IAdd),
        Op::AtomicISub => OpGroup::Atomic(AtomicOp::ISub),
        Op::AtomicSMin => OpGroup::Atomic(AtomicOp::SMin),
        Op::AtomicUMin => OpGroup::Atomic(AtomicOp::UMin),
        Op::AtomicSMax => OpGroup::Atomic(AtomicOp::SMax),
        Op::AtomicUMax => OpGroup::Atomic(AtomicOp::UMax),
        Op::AtomicAnd => OpGroup::Atomic(AtomicOp::And),
        Op::AtomicOr => OpGroup::Atomic(AtomicOp::Or),
        Op::AtomicXor => OpGroup::Atomic(AtomicOp::Xor),
        Op::ControlBarrier => OpGroup::ControlBarrier,
        Op::MemoryBarrier => OpGroup::MemoryBarrier,
        Op::FunctionCall => OpGroup::Call,
        Op::Phi => OpGroup::Phi,
        Op::LoopMerge | Op::SelectionMerge => OpGroup::Merge,
        Op::Branch => OpGroup::Terminator(Terminator::Branch),
        Op::BranchConditional => OpGroup::Terminator(Terminator::BranchConditional),
        Op::Switch => OpGroup::Terminator(Terminator::Switch),
        Op::Return => OpGroup::Terminator(Terminator::Return),
        Op::ReturnValue => OpGroup::Terminator(Terminator::ReturnValue),
        Op::Unreachable => OpGroup::Terminator(Terminator::Unreachable),
    }
}
