// Atomic instructions.
ghost use Rattle.std.specs.Prelude.{◌≡◌};
ghost use Rattle.group_items.specs.Events.{operation_of};
ghost use Rattle.module_semantics.specs.Setting.{Setting};
ghost use Rattle.module_semantics.specs.State.{Frame};
ghost use Rattle.module_semantics.specs.Operands.{word_at};
ghost use Rattle.module_semantics.specs.Steps.{atomic_operation as atomic_operation_of, atomic_operands as atomic_operands_of};
ghost use Rattle.step_events.specs.Asked.{asked};

use group_items::RmwKind;
use spv_module::Inst;
use spv_ops::AtomicOp;

/// The operation of an atomic instruction: a load adds 0, a store exchanges, an increment adds 1, a
/// decrement the greatest word, and a difference the negated operand (SPIR-V 1.6, section "Atomic
/// Instructions").
pub fn atomic_kind(op: AtomicOp) -> RmwKind
    ensures { operation_of result ≡ atomic_operation_of op }
{
    match op {
        AtomicOp::Load
        | AtomicOp::IIncrement
        | AtomicOp::IDecrement
        | AtomicOp::IAdd
        | AtomicOp::ISub => RmwKind::Add,
        AtomicOp::Store | AtomicOp::Exchange => RmwKind::Exchange,
        AtomicOp::CompareExchange => RmwKind::CompSwap,
        AtomicOp::SMin => RmwKind::SMin,
        AtomicOp::UMin => RmwKind::UMin,
        AtomicOp::SMax => RmwKind::SMax,
        AtomicOp::UMax => RmwKind::UMax,
        AtomicOp::And => RmwKind::And,
        AtomicOp::Or => RmwKind::Or,
        AtomicOp::Xor => RmwKind::Xor,
    }
}

/// Where the operands of an atomic's event come from: a word that is known; the word of an id; that
/// word negated; the words of two ids, of which the first is compared.
#[derive(Clone, Copy)]
pub enum AtomicOperands {
    Known(u32),
    Word(u32),
    Negated(u32),
    Compared(u32, u32),
}

/// Where the operands of an atomic instruction come from.
pub fn atomic_operands(op: AtomicOp, inst: &Inst) -> AtomicOperands
    ensures { (s : Setting) (f : Frame) → asked result (word_at s f) ≡ atomic_operands_of op s f inst.now }
{
    let word = AtomicOperands::Word(inst.operand(3));
    match op {
        AtomicOp::Load => AtomicOperands::Known(0),
        AtomicOp::IIncrement => AtomicOperands::Known(1),
        AtomicOp::IDecrement => AtomicOperands::Known(u32::MAX),
        AtomicOp::ISub => AtomicOperands::Negated(inst.operand(3)),
        AtomicOp::CompareExchange => AtomicOperands::Compared(inst.operand(5), inst.operand(4)),
        AtomicOp::Store | AtomicOp::Exchange | AtomicOp::IAdd => word,
        AtomicOp::SMin | AtomicOp::UMin | AtomicOp::SMax | AtomicOp::UMax => word,
        AtomicOp::And | AtomicOp::Or | AtomicOp::Xor => word,
    }
}
