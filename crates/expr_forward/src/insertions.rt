// Copies of composites with another part.
ghost use Rattle.std.specs.Prelude.{◌≡◌, ◌++◌, OnOk, map};
ghost use Rattle.glsl_ast.specs.View.{step_of, stmt_of};
ghost use Rattle.expr_forward.specs.Context.{scope_of};
ghost use Rattle.expr_forward.specs.Statements.{insert_text, inst_text};
ghost use Rattle.expr_forward.specs.declared.kinds.InstKind.TheVariants as kind;

use crate::block::BlockContext;
use crate::operands::after_two;
use glsl_ast::{LStep, Stmt};
use spv_module::{Id, Inst};
use spv_words::Memory;
use std::alloc::Global;

impl BlockContext<'_, '_, '_> {
    /// Adds a copy of a composite and an assignment to a part of it.
    fn add_insertion(
        &self,
        into: &mut Vec<Stmt>,
        inst: &Inst,
        composite: Id,
        steps: Vec<LStep>,
        object: Id,
    ) -> Result<(), Memory>
        ensures { OnOk result (map stmt_of into.new.items ≡ map stmt_of into.old.items ++ insert_text (scope_of self.now.context.now) self.now.block inst.now composite.0 (map step_of steps.items) object.0) }
    {
        let copy = self.value(composite)?;
        self.add_result(into, inst, copy)?;
        let part = self.value(object)?;
        self.add_assignment(into, inst, steps, part)
    }

    /// OpCompositeInsert.
    #[inline(never)]
    pub fn add_composite_insert(&self, into: &mut Vec<Stmt>, inst: &Inst) -> Result<(), Memory>
        ensures { OnOk result (map stmt_of into.new.items ≡ map stmt_of into.old.items ++ inst_text (scope_of self.now.context.now) self.now.block inst.now kind.CompositeInsert) }
    {
        if !self.context.has_variable(inst) {
            return Ok(());
        }
        let literals = after_two(inst.args.as_slice());
        let steps = self.context.part_steps(self.alloc, inst.ty, literals)?;
        let object = Id(inst.operand(0));
        self.add_insertion(into, inst, Id(inst.operand(1)), steps, object)
    }

    /// OpVectorInsertDynamic.
    #[inline(never)]
    pub fn add_vector_insert(&self, into: &mut Vec<Stmt>, inst: &Inst) -> Result<(), Memory>
        ensures { OnOk result (map stmt_of into.new.items ≡ map stmt_of into.old.items ++ inst_text (scope_of self.now.context.now) self.now.block inst.now kind.VectorInsertDynamic) }
    {
        if !self.context.has_variable(inst) {
            return Ok(());
        }
        let alloc = self.alloc;
        let index = self.value(Id(inst.operand(2)))?;
        let steps = vec![in alloc; LStep::Index(index)]?;
        let object = Id(inst.operand(1));
        self.add_insertion(into, inst, Id(inst.operand(0)), steps, object)
    }
}
