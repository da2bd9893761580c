// Atomic instructions (GLSL 4.60, section 8.11).
ghost use Rattle.std.specs.Prelude.{◌≡◌, ◌++◌, IfOk, OnOk, map};
ghost use Rattle.glsl_ast.specs.Tree.{binary};
ghost use Rattle.glsl_ast.specs.declared.expressions.BinOp.TheVariants.{Sub};
ghost use Rattle.glsl_ast.specs.View.{expr_of, stmt_of};
ghost use Rattle.expr_forward.specs.Context.{scope_of};
ghost use Rattle.expr_forward.specs.Statements.{atomic_name as atomic_name_of, atomic_arguments as atomic_arguments_of, atomic_operand as atomic_operand_of, atomic_text, atomic_value, compares as compares_by, has_result as has_result_by, word_at_place as word_at_place_of, word_by as word_by_of};

use crate::Context;
use crate::block::BlockContext;
use constant_text::scalar_type;
use glsl_ast::{BinOp, Expr, Name, Stmt};
use int_lowering::literal;
use spv_module::{Elem, Id, Inst};
use spv_ops::AtomicOp;
use spv_words::Memory;
use std::alloc::Global;

/// The function of an atomic instruction, which GLSL has once for numbers with and without a sign.
fn atomic_name(op: AtomicOp) -> &'static str
    ensures { result.now ≡ atomic_name_of op }
{
    match op {
        AtomicOp::Load | AtomicOp::IIncrement | AtomicOp::IDecrement => "atomicAdd",
        AtomicOp::IAdd | AtomicOp::ISub => "atomicAdd",
        AtomicOp::Store | AtomicOp::Exchange => "atomicExchange",
        AtomicOp::CompareExchange => "atomicCompSwap",
        AtomicOp::SMin | AtomicOp::UMin => "atomicMin",
        AtomicOp::SMax | AtomicOp::UMax => "atomicMax",
        AtomicOp::And => "atomicAnd",
        AtomicOp::Or => "atomicOr",
        AtomicOp::Xor => "atomicXor",
    }
}

/// Whether an atomic instruction has a comparator.
fn compares(op: AtomicOp) -> bool
    ensures { result ≡ compares_by op }
{
    matches!(op, AtomicOp::CompareExchange)
}

/// Whether one has a result.
fn has_result(op: AtomicOp) -> bool
    ensures { result ≡ has_result_by op }
{
    !matches!(op, AtomicOp::Store)
}

impl Context<'_, '_> {
    /// A literal in the type of what a pointer points to.
    #[tactic(auto, unfolding(crate::specs::Statements::word_by))]
    fn word_by(&self, pointer: Id, word: u32) -> Expr
        ensures { expr_of result ≡ word_by_of (scope_of self.now) pointer.0 word }
    {
        let ty = scalar_type(self.module(), self.pointee(pointer));
        literal(ty.unwrap_or(Elem::Uint), word)
    }
}

impl BlockContext<'_, '_, '_> {
    /// The operand of an atomic subtraction, negated.
    #[tactic(auto, using(glsl_ast::proofs::Views::expr_rows))]
    fn negated(&self, inst: &Inst) -> Result<Expr, Memory>
        ensures { IfOk result (λ e. expr_of e ≡ binary Sub (word_at_place_of (scope_of self.now.context.now) inst.now 0) (atomic_value (scope_of self.now.context.now) self.now.block inst.now)) }
    {
        let zero = self.context.word_by(Id(inst.operand(0)), 0);
        let value = self.value(Id(inst.operand(3)))?;
        Expr::binary(self.alloc, BinOp::Sub, zero, value)
    }

    /// What stands behind the place, and behind the comparator where there is one, in the call of an atomic function.
    fn atomic_operand(&self, inst: &Inst, op: AtomicOp) -> Result<Expr, Memory>
        ensures { IfOk result (λ e. expr_of e ≡ atomic_operand_of (scope_of self.now.context.now) self.now.block inst.now op) }
    {
        let place = Id(inst.operand(0));
        match op {
            AtomicOp::Load => Ok(self.context.word_by(place, 0)),
            AtomicOp::IIncrement => Ok(self.context.word_by(place, 1)),
            AtomicOp::IDecrement => Ok(self.context.word_by(place, u32::MAX)),
            AtomicOp::ISub => self.negated(inst),
            AtomicOp::CompareExchange => self.value(Id(inst.operand(4))),
            AtomicOp::Store | AtomicOp::Exchange | AtomicOp::IAdd => {
                self.value(Id(inst.operand(3)))
            }
            AtomicOp::SMin | AtomicOp::UMin | AtomicOp::SMax | AtomicOp::UMax => {
                self.value(Id(inst.operand(3)))
            }
            AtomicOp::And | AtomicOp::Or | AtomicOp::Xor => self.value(Id(inst.operand(3))),
        }
    }

    /// The arguments of the call of an atomic function.
    fn atomic_arguments(&self, inst: &Inst, op: AtomicOp) -> Result<Vec<Expr>, Memory>
        ensures { IfOk result (λ list. map expr_of list.items ≡ atomic_arguments_of (scope_of self.now.context.now) self.now.block inst.now op) }
    {
        let place = Id(inst.operand(0));
        let mut args = Vec::new(self.alloc);
        args.push(self.context.place_expr(self.alloc, self.block, place)?)?;
        if compares(op) {
            args.push(self.value(Id(inst.operand(5)))?)?;
        }
        args.push(self.atomic_operand(inst, op)?)?;
        Ok(args)
    }

    #[inline(never)]
    #[tactic(auto, using(glsl_ast::proofs::Views::stmt_rows, glsl_ast::proofs::Views::expr_rows))]
    pub fn add_atomic(&self, into: &mut Vec<Stmt>, inst: &Inst, op: AtomicOp) -> Result<(), Memory>
        ensures { OnOk result (map stmt_of into.new.items ≡ map stmt_of into.old.items ++ atomic_text (scope_of self.now.context.now) self.now.block inst.now op) }
    {
        let function = Name::from_str(self.alloc, atomic_name(op))?;
        let args = self.atomic_arguments(inst, op)?;
        if has_result(op) {
            return self.add_result(into, inst, Expr::call(self.alloc, function, args)?);
        }
        into.push(Stmt::Call(function, args))?;
        Ok(())
    }
}
