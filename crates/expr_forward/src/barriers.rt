// Barriers (GLSL 4.60, sections 8.16 and 8.17).
ghost use Rattle.std.specs.Prelude.{◌≡◌, ◌++◌, OnOk, map};
ghost use Rattle.glsl_ast.specs.View.{stmt_of};
ghost use Rattle.expr_forward.specs.Context.{scope_of};
ghost use Rattle.expr_forward.specs.Statements.{bare_call, control_barrier_text, memory_barrier, memory_barrier_text, semantics as semantics_of};

use crate::Context;
use crate::block::BlockContext;
use glsl_ast::{Name, Stmt};
use spv_module::{Id, Inst};
use spv_words::Memory;
use std::alloc::Global;

/// Adds a call of a function without arguments.
#[tactic(auto, using(glsl_ast::proofs::Views::stmt_rows))]
fn add_call(alloc: Global, into: &mut Vec<Stmt>, function: &str) -> Result<(), Memory>
    ensures { OnOk result (map stmt_of into.new.items ≡ map stmt_of into.old.items ++ bare_call function.now) }
{
    let function = Name::from_str(alloc, function)?;
    into.push(Stmt::Call(function, Vec::new(alloc)))?;
    Ok(())
}

/// Adds the barriers for the bits UniformMemory and WorkgroupMemory of memory semantics (SPIR-V 1.6, section 3.32).
fn add_memory_barriers(alloc: Global, into: &mut Vec<Stmt>, semantics: u32) -> Result<(), Memory>
    ensures { OnOk result (map stmt_of into.new.items ≡ map stmt_of into.old.items ++ memory_barrier semantics) }
{
    if semantics & 0x40 != 0 {
        add_call(alloc, into, "memoryBarrierBuffer")?;
    }
    if semantics & 0x100 != 0 {
        add_call(alloc, into, "memoryBarrierShared")?;
    }
    Ok(())
}

impl Context<'_, '_> {
    /// The word of a constant, and 0 of what has none.
    fn semantics(&self, id: Id) -> u32
        ensures { result ≡ semantics_of (scope_of self.now) id.0 }
    {
        self.word_at(id).unwrap_or(0)
    }
}

impl BlockContext<'_, '_, '_> {
    #[inline(never)]
    pub fn add_memory_barrier(&self, into: &mut Vec<Stmt>, inst: &Inst) -> Result<(), Memory>
        ensures { OnOk result (map stmt_of into.new.items ≡ map stmt_of into.old.items ++ memory_barrier_text (scope_of self.now.context.now) inst.now) }
    {
        let semantics = self.context.semantics(Id(inst.operand(1)));
        add_memory_barriers(self.alloc, into, semantics)
    }

    #[inline(never)]
    pub fn add_control_barrier(&self, into: &mut Vec<Stmt>, inst: &Inst) -> Result<(), Memory>
        ensures { OnOk result (map stmt_of into.new.items ≡ map stmt_of into.old.items ++ control_barrier_text (scope_of self.now.context.now) inst.now) }
    {
        let semantics = self.context.semantics(Id(inst.operand(2)));
        add_memory_barriers(self.alloc, into, semantics)?;
        add_call(self.alloc, into, "barrier")
    }
}
