// What stands at the top of a function: its variables, the values that are declared there, and captured indexes.
ghost use Rattle.std.specs.Prelude.{◌≡◌, ◌++◌, IfOk, OnOk, map};
ghost use Rattle.std.specs.List.{All};
ghost use Rattle.few_law.specs.Short.{HasFewArgs, IsShortBlock};
ghost use Rattle.glsl_ast.specs.View.{stmt_of};
ghost use Rattle.expr_forward.specs.Context.{scope_of};
ghost use Rattle.function_plan.specs.Planned.{is_captured as is_captured_inst};
ghost use Rattle.profile_rules.specs.Places.{is_variable as is_variable_inst};
ghost use Rattle.function_text.specs.Functions.{variable_text as text_of_variable, variables_text, is_hoisted as is_hoisted_form, hoisted_texts, index_of, captured_text, captured_texts_of, captured_texts, kind_texts, in_blocks, top_text};

use crate::scope::PlannedFunction;
use function_plan::is_captured;
use glsl_ast::Stmt;
use hoist_plan::Form;
use name_alloc::Key;
use spv_module::{Block, Id, Inst};
use spv_ops::Op;
use spv_words::Memory;
use std::alloc::Global;

/// What is declared at the top of a function: a variable, a value that other blocks need, or a captured index.
#[derive(Clone, Copy)]
enum TopKind {
    Variable,
    Hoisted,
    Captured,
}

/// Whether a result is declared at the top of its function.
pub fn is_hoisted(form: Form) -> bool
    ensures { result ≡ is_hoisted_form form }
{
    matches!(form, Form::Hoisted)
}

/// OpVariable.
fn is_variable(inst: &Inst) -> bool
    ensures { result ≡ is_variable_inst inst.now }
{
    inst.op == Op::Variable
}

impl PlannedFunction<'_, '_> {
    /// The declaration of a variable of a function.
    fn variable_text(&self, alloc: Global, inst: &Inst) -> Result<Stmt, Memory>
        ensures { IfOk result (λ s. stmt_of s ≡ text_of_variable (scope_of self.now.context) inst.now) }
    {
        let ty = self.pointee(inst.ty);
        let value = self.initial(alloc, inst)?;
        self.declared(alloc, ty, Key::Id(Id(inst.result)), Some(value))
    }

    /// Appends the declarations of the variables among instructions.
    fn add_variables(&self, insts: &[Inst], out: &mut Vec<Stmt>) -> Result<(), Memory>
        ensures { OnOk result (map stmt_of out.new.items ≡ map stmt_of out.old.items ++ variables_text (scope_of self.now.context) insts.now) }
    {
        let alloc = *out.allocator();
        for inst in insts {
            if is_variable(inst) {
                out.push(self.variable_text(alloc, inst)?)?;
            }
        }
        Ok(())
    }

    /// Whether a result is declared at the top.
    fn is_hoisted(&self, id: Id) -> bool
        ensures { result ≡ is_hoisted_form ((scope_of self.now.context).form id.0) }
    {
        is_hoisted(self.plan().naming.of(id))
    }

    /// Appends the declarations of the results of instructions that are declared at the top.
    fn add_hoisted(&self, insts: &[Inst], out: &mut Vec<Stmt>) -> Result<(), Memory>
        ensures { OnOk result (map stmt_of out.new.items ≡ map stmt_of out.old.items ++ hoisted_texts (scope_of self.now.context) insts.now) }
    {
        let alloc = *out.allocator();
        for inst in insts {
            let id = Id(inst.result);
            if self.is_hoisted(id) {
                out.push(self.declared(alloc, inst.ty, Key::Id(id), None)?)?;
            }
        }
        Ok(())
    }

    /// The declaration of a captured index of a chain.
    fn index_text(&self, alloc: Global, chain: &Inst, index: (u32, Id)) -> Result<Stmt, Memory>
        ensures { IfOk result (λ s. stmt_of s ≡ captured_text (scope_of self.now.context) chain.now (index_of index)) }
    {
        let ty = self.type_of(index.1);
        let key = Key::Captured(Id(chain.result), index.0);
        self.declared(alloc, ty, key, None)
    }

    /// Whether an instruction is a chain whose indexes other blocks read from variables.
    fn is_captured(&self, inst: &Inst) -> bool
        ensures { result ≡ is_captured_inst (scope_of self.now.context).carried inst.now }
    {
        is_captured(&self.plan().naming, inst)
    }

    /// Appends the declarations of these captured indexes of a chain.
    fn add_indexes(
        &self,
        chain: &Inst,
        indexes: &[(u32, Id)],
        out: &mut Vec<Stmt>,
    ) -> Result<(), Memory>
        ensures { OnOk result (map stmt_of out.new.items ≡ map stmt_of out.old.items ++ map (captured_text (scope_of self.now.context) chain.now) (map index_of indexes.now)) }
    {
        let alloc = *out.allocator();
        for index in indexes {
            out.push(self.index_text(alloc, chain, *index)?)?;
        }
        Ok(())
    }

    /// Appends the declarations of the captured indexes of a chain.
    fn add_captured_of(&self, chain: &Inst, out: &mut Vec<Stmt>) -> Result<(), Memory>
        requires { HasFewArgs chain.now }
        ensures { OnOk result (map stmt_of out.new.items ≡ map stmt_of out.old.items ++ captured_texts_of (scope_of self.now.context) chain.now) }
    {
        if !self.is_captured(chain) {
            return Ok(());
        }
        let indexes = self.captured(*out.allocator(), chain)?;
        self.add_indexes(chain, indexes.as_slice(), out)?;
        Ok(())
    }

    /// Appends the declarations of the captured indexes of the chains among instructions.
    fn add_captured(&self, insts: &[Inst], out: &mut Vec<Stmt>) -> Result<(), Memory>
        requires { All HasFewArgs insts.now }
        ensures { OnOk result (map stmt_of out.new.items ≡ map stmt_of out.old.items ++ captured_texts (scope_of self.now.context) insts.now) }
    {
        for inst in insts {
            self.add_captured_of(inst, out)?;
        }
        Ok(())
    }

    /// Appends the declarations of one kind among instructions.
    fn add_kind(&self, kind: TopKind, insts: &[Inst], out: &mut Vec<Stmt>) -> Result<(), Memory>
        requires { All HasFewArgs insts.now }
        ensures { OnOk result (map stmt_of out.new.items ≡ map stmt_of out.old.items ++ kind_texts (scope_of self.now.context) kind insts.now) }
    {
        match kind {
            TopKind::Variable => self.add_variables(insts, out),
            TopKind::Hoisted => self.add_hoisted(insts, out),
            TopKind::Captured => self.add_captured(insts, out),
        }
    }

    /// Appends the declarations of one kind in blocks.
    fn add_in_blocks(
        &self,
        kind: TopKind,
        blocks: &[Block],
        out: &mut Vec<Stmt>,
    ) -> Result<(), Memory>
        requires { All IsShortBlock blocks.now }
        ensures { OnOk result (map stmt_of out.new.items ≡ map stmt_of out.old.items ++ in_blocks (kind_texts (scope_of self.now.context) kind) blocks.now) }
    {
        for block in blocks {
            self.add_kind(kind, block.insts.as_slice(), out)?;
        }
        Ok(())
    }

    /// Appends what stands at the top of a function with these blocks: its variables, each with its initializer or its zero; the
    /// values that other blocks need, without a value; and the captured indexes of its chains. Each comes in the order of the
    /// function.
    pub fn add_top(&self, blocks: &[Block], out: &mut Vec<Stmt>) -> Result<(), Memory>
        requires { All IsShortBlock blocks.now }
        ensures { OnOk result (map stmt_of out.new.items ≡ map stmt_of out.old.items ++ top_text (scope_of self.now.context) blocks.now) }
    {
        self.add_in_blocks(TopKind::Variable, blocks, out)?;
        self.add_in_blocks(TopKind::Hoisted, blocks, out)?;
        self.add_in_blocks(TopKind::Captured, blocks, out)?;
        Ok(())
    }
}
