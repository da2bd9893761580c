// The statements of a block, an instruction after the other.
ghost use Rattle.std.specs.Prelude.{◌≡◌, ◌++◌, ◌∷◌, [], IfOk, OnOk, flat_map, map};
ghost use Rattle.std.specs.List.{All};
ghost use Rattle.glsl_ast.specs.View.{stmt_of};
ghost use Rattle.few_law.specs.Short.{HasFewArgs};
ghost use Rattle.expr_forward.specs.Context.{scope_of};
ghost use Rattle.expr_forward.specs.Statements.{block_text as block_text_of, capture, captured_of, chain_text, insts_at as insts_at_of, inst_text, kind_of, set_value};
ghost use Rattle.expr_forward.specs.declared.kinds.InstKind.TheVariants as kind;

use crate::block::BlockContext;
use crate::{Context, InstKind};
use access_paths::captured_indexes;
use glsl_ast::{LValue, Stmt};
use name_alloc::Key;
use spv_module::{Id, Inst};
use spv_words::Memory;
use std::alloc::Global;

// Of more room than this, what is not used is never touched.
const FEW: usize = 64;

// A list with fewer statements gets room for no more than those that are known to come.
const SHORT: usize = 8;

/// Makes room for so many statements behind those of a list, and for one with which a block ends. There is an error only where
/// there is no memory for it.
#[inline(always)]
pub fn reserve(into: &mut Vec<Stmt>, count: usize) -> Result<(), Memory>
    ensures { into.new.items ≡ into.old.items }
{
    if count == 0 {
        return Ok(());
    }
    let more = count.saturating_add(1);
    if into.len() < SHORT {
        into.reserve_exact(more)?;
    } else {
        into.reserve(more)?;
    }
    Ok(())
}

impl Context<'_, '_> {
    /// About how many statements an instruction has.
    fn room_for(&self, inst: &Inst) -> usize {
        match InstKind::of(inst.op) {
            InstKind::Chain | InstKind::Silent => 0,
            InstKind::Store | InstKind::ControlBarrier | InstKind::MemoryBarrier => 1,
            InstKind::CompositeInsert | InstKind::VectorInsertDynamic => 2,
            InstKind::Load | InstKind::Call | InstKind::Atomic(_) | InstKind::Value(_) => {
                if self.has_variable(inst) { 1 } else { 0 }
            }
        }
    }

    /// About how many statements a block has.
    fn room(&self, insts: &[Inst]) -> usize {
        if insts.len() > FEW {
            return insts.len();
        }
        let mut count: usize = 0;
        for inst in insts {
            count = count.saturating_add(self.room_for(inst));
        }
        count
    }

    /// The indexes of a chain that other blocks read from variables, each with its number among the indexes. There is an error
    /// only for want of memory.
    pub fn captured(&self, alloc: Global, inst: &Inst) -> Result<Vec<(u32, Id)>, Memory>
        requires { HasFewArgs inst.now }
        ensures { IfOk result (λ list. map (λ n. (n.0, n.1.0)) list.items ≡ captured_of (scope_of self.now) inst.now) }
    {
        if inst.op.is_chain() && self.plan.carried(Id(inst.result)) {
            captured_indexes(alloc, self.module(), inst)
        } else {
            Ok(Vec::new(alloc))
        }
    }

    /// The instructions of the block at a place, and none where there is no block.
    fn insts_at(&self, block: usize) -> &[Inst]
        ensures insts { result.now ≡ insts_at_of (scope_of self.now) block }
        ensures few { All HasFewArgs result.now }
    {
        match self.locals.function().blocks.as_slice().get(block) {
            None => &[],
            Some(found) => found.insts.as_slice(),
        }
    }

    /// Adds the statements of the block at a place, before its terminator (GLSL 4.60, chapter 6). There is an error only for want
    /// of memory.
    pub fn add_block(&self, alloc: Global, block: usize, into: &mut Vec<Stmt>) -> Result<(), Memory>
        ensures { OnOk result (map stmt_of into.new.items ≡ map stmt_of into.old.items ++ block_text_of (scope_of self.now) block) }
    {
        let insts = self.insts_at(block);
        reserve(into, self.room(insts))?;
        self.at(alloc, block).add_insts(into, insts)
    }

    /// The statements of the block at a place, before its terminator. There is an error only for want of memory.
    pub fn block_text(&self, alloc: Global, block: usize) -> Result<Vec<Stmt>, Memory>
        ensures { IfOk result (λ list. map stmt_of list.items ≡ block_text_of (scope_of self.now) block) }
    {
        let mut list = Vec::new(alloc);
        self.add_block(alloc, block, &mut list)?;
        Ok(list)
    }
}

impl BlockContext<'_, '_, '_> {
    #[inline(never)]
    fn add_load(&self, into: &mut Vec<Stmt>, inst: &Inst) -> Result<(), Memory>
        ensures { OnOk result (map stmt_of into.new.items ≡ map stmt_of into.old.items ++ inst_text (scope_of self.now.context.now) self.now.block inst.now kind.Load) }
    {
        let pointer = Id(inst.operand(0));
        let place = self.context.place_expr(self.alloc, self.block, pointer)?;
        self.add_result(into, inst, place)
    }

    #[inline(never)]
    #[tactic(auto, using(glsl_ast::proofs::Views::stmt_rows))]
    fn add_store(&self, into: &mut Vec<Stmt>, inst: &Inst) -> Result<(), Memory>
        ensures { OnOk result (map stmt_of into.new.items ≡ map stmt_of into.old.items ++ inst_text (scope_of self.now.context.now) self.now.block inst.now kind.Store) }
    {
        let pointer = Id(inst.operand(0));
        let place = self.context.place_text(self.alloc, self.block, pointer)?;
        let value = self.value(Id(inst.operand(1)))?;
        into.push(Stmt::Assign(place, value))?;
        Ok(())
    }

    /// Adds the value of an operation, where it has a variable.
    #[inline(always)]
    fn add_value(&self, into: &mut Vec<Stmt>, inst: &Inst) -> Result<(), Memory>
        ensures { OnOk result (map stmt_of into.new.items ≡ map stmt_of into.old.items ++ set_value (scope_of self.now.context.now) self.now.block inst.now) }
    {
        if !self.context.has_variable(inst) {
            return Ok(());
        }
        let value = self.expression(inst)?;
        self.add_result(into, inst, value)
    }

    /// Adds what captures an index of a chain.
    #[tactic(auto, using(glsl_ast::proofs::Views::stmt_rows))]
    fn add_capture(
        &self,
        into: &mut Vec<Stmt>,
        inst: &Inst,
        number: u32,
        index: Id,
    ) -> Result<(), Memory>
        ensures { OnOk result (map stmt_of into.new.items ≡ map stmt_of into.old.items ++ capture (scope_of self.now.context.now) inst.now (number, index.0) ∷ []) }
    {
        let key = Key::Captured(Id(inst.result), number);
        let name = self.context.name(self.alloc, key)?;
        let steps = Vec::new(self.alloc);
        let index = self.context.index_expr(self.alloc, index)?;
        into.push(Stmt::Assign(LValue { name, steps }, index))?;
        Ok(())
    }

    #[inline(never)]
    fn add_captures(&self, into: &mut Vec<Stmt>, inst: &Inst) -> Result<(), Memory>
        requires { HasFewArgs inst.now }
        ensures { OnOk result (map stmt_of into.new.items ≡ map stmt_of into.old.items ++ chain_text (scope_of self.now.context.now) inst.now) }
    {
        for (number, index) in self.context.captured(self.alloc, inst)? {
            self.add_capture(into, inst, number, index)?;
        }
        Ok(())
    }

    /// Adds the statements of an instruction. A value without a variable has none.
    #[inline(always)]
    fn add_inst(&self, into: &mut Vec<Stmt>, inst: &Inst) -> Result<(), Memory>
        requires { HasFewArgs inst.now }
        ensures { OnOk result (map stmt_of into.new.items ≡ map stmt_of into.old.items ++ inst_text (scope_of self.now.context.now) self.now.block inst.now (kind_of inst.now.op)) }
    {
        match InstKind::of(inst.op) {
            InstKind::Load => self.add_load(into, inst),
            InstKind::Store => self.add_store(into, inst),
            InstKind::Call => self.add_function_call(into, inst),
            InstKind::Atomic(kind) => self.add_atomic(into, inst, kind),
            InstKind::ControlBarrier => self.add_control_barrier(into, inst),
            InstKind::MemoryBarrier => self.add_memory_barrier(into, inst),
            InstKind::Chain => self.add_captures(into, inst),
            InstKind::CompositeInsert => self.add_composite_insert(into, inst),
            InstKind::VectorInsertDynamic => self.add_vector_insert(into, inst),
            InstKind::Value(_) => self.add_value(into, inst),
            InstKind::Silent => Ok(()),
        }
    }

    fn add_insts(&self, into: &mut Vec<Stmt>, insts: &[Inst]) -> Result<(), Memory>
        requires { All HasFewArgs insts.now }
        ensures { OnOk result (map stmt_of into.new.items ≡ map stmt_of into.old.items ++ flat_map (λ i. inst_text (scope_of self.now.context.now) self.now.block i (kind_of i.op)) insts.now) }
    {
        for inst in insts {
            self.add_inst(into, inst)?;
        }
        Ok(())
    }
}
