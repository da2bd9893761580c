// Calls of functions (GLSL 4.60, section 6.1.1).
ghost use Rattle.std.specs.Prelude.{◌≡◌, ◌++◌, IfOk, OnOk, map};
ghost use Rattle.glsl_ast.specs.View.{expr_of, stmt_of};
ghost use Rattle.expr_forward.specs.Context.{scope_of};
ghost use Rattle.expr_forward.specs.Statements.{call_argument as call_argument_of, call_text, is_void as is_void_of, is_void_in};

use crate::Context;
use crate::block::BlockContext;
use crate::operands::after_one;
use glsl_ast::{Expr, Stmt};
use name_alloc::Key;
use spv_module::{Id, Inst, Module};
use spv_ops::Op;
use spv_words::Memory;
use std::alloc::Global;

/// Whether a type of a module is OpTypeVoid.
fn is_void_type(module: &Module, ty: u32) -> bool
    ensures { result ≡ is_void_in «module».now.globals ty }
{
    module
        .global(Id(ty))
        .map_or(false, |inst| inst.op == Op::TypeVoid)
}

impl Context<'_, '_> {
    /// Whether a type is OpTypeVoid.
    pub fn is_void(&self, ty: u32) -> bool
        ensures { result ≡ is_void_of (scope_of self.now) ty }
    {
        is_void_type(self.module(), ty)
    }
}

impl BlockContext<'_, '_, '_> {
    /// An argument of a call: a pointer is written as its place.
    fn call_argument(&self, id: Id) -> Result<Expr, Memory>
        ensures { IfOk result (λ e. expr_of e ≡ call_argument_of (scope_of self.now.context.now) self.now.block id.0) }
    {
        if self.context.is_pointer(id) {
            self.context.place_expr(self.alloc, self.block, id)
        } else {
            self.value(id)
        }
    }

    fn call_arguments(&self, ids: &[u32]) -> Result<Vec<Expr>, Memory>
        ensures { IfOk result (λ list. map expr_of list.items ≡ map (call_argument_of (scope_of self.now.context.now) self.now.block) ids.now) }
    {
        let mut args = Vec::with_capacity(self.alloc, ids.len())?;
        for id in ids {
            args.push(self.call_argument(Id(*id))?)?;
        }
        Ok(args)
    }

    #[inline(never)]
    #[tactic(auto, using(glsl_ast::proofs::Views::stmt_rows, glsl_ast::proofs::Views::expr_rows))]
    pub fn add_function_call(&self, into: &mut Vec<Stmt>, inst: &Inst) -> Result<(), Memory>
        ensures { OnOk result (map stmt_of into.new.items ≡ map stmt_of into.old.items ++ call_text (scope_of self.now.context.now) self.now.block inst.now) }
    {
        let callee = self.context.name(self.alloc, Key::Id(Id(inst.operand(0))))?;
        let args = self.call_arguments(after_one(inst.args.as_slice()))?;
        if self.context.is_void(inst.ty) {
            into.push(Stmt::Call(callee, args))?;
            return Ok(());
        }
        self.add_result(into, inst, Expr::call(self.alloc, callee, args)?)
    }
}
