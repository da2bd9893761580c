// What is written of a function's blocks and edges.
ghost use Rattle.std.specs.Prelude.{◌≡◌, IfOk, option_map};
ghost use Rattle.std.specs.Option.{option_copied};
ghost use Rattle.glsl_ast.specs.Tree.{name as name_tree};
ghost use Rattle.glsl_ast.specs.View.{name_text, expr_of, stmt_of};
ghost use Rattle.name_alloc.specs.declared.claims.Key.TheVariants.{Id as IdKey, Spare as SpareKey};
ghost use Rattle.text_rules.specs.Claims.{label as label_at};
ghost use Rattle.spv_module.specs.Lists.{id as id_of};
ghost use Rattle.expr_forward.specs.Context.{key_text, scope_of};
ghost use Rattle.expr_forward.specs.Values.{variable as name_expr};
ghost use Rattle.function_text.specs.Functions.{source_expr, set_variable as variable_set, terminator_at, first_operand as operand_of, returned as returned_in, case_by, when, saved_text, move_text as text_of_move};
ghost use Rattle.function_text.specs.State.{plan_in};

use crate::scope::PlannedFunction;
use block_graph::terminator;
use constant_text::int_literal;
use control_text::{BlockText, Edge};
use expr_forward::reserve;
use function_plan::{again_at, fell_at, leave_at, target};
use glsl_ast::{Expr, LValue, Literal, Name, Stmt};
use name_alloc::Key;
use phi_copies::{Move, Src, Var};
use spv_module::{Elem, Function, Id, Inst};
use spv_ops::Op;
use spv_words::Memory;
use std::alloc::Global;

/// The terminator of a block.
fn terminator_of(function: &Function, block: usize) -> Option<&Inst>
    ensures { option_copied result ≡ terminator_at function.now block }
{
    terminator(function.blocks.as_slice().get(block)?)
}

/// The first operand of a terminator: the condition of OpBranchConditional, the selector of OpSwitch, the value of
/// OpReturnValue.
fn first_operand(function: &Function, block: usize) -> u32
    ensures { result ≡ operand_of function.now block }
{
    terminator_of(function, block).map_or(0, |inst| inst.operand(0))
}

/// The value of an OpReturnValue.
fn returned(function: &Function, block: usize) -> Option<u32>
    ensures { result ≡ returned_in function.now block }
{
    match terminator_of(function, block) {
        Some(inst) if inst.op == Op::ReturnValue => Some(inst.operand(0)),
        Some(_) | None => None,
    }
}

/// The label of a block.
fn label(function: &Function, block: usize) -> Id
    ensures { result ≡ id_of (label_at function.now block) }
{
    match function.blocks.as_slice().get(block) {
        Some(block) => block.label,
        None => Id(0),
    }
}

/// The literal of a case in the type of its selector.
fn case_literal(ty: Option<Elem>, word: u32) -> Literal
    ensures { result ≡ case_by ty word }
{
    match ty {
        Some(Elem::Int) => int_literal(word),
        Some(Elem::Bool | Elem::Uint) | None => Literal::Uint(word),
    }
}

impl PlannedFunction<'_, '_> {
    /// The variable of a phi, or of what a phi is given.
    #[inline(always)]
    fn variable(&self, alloc: Global, variable: Var) -> Result<Name, Memory>
        ensures { IfOk result (λ n. name_text n ≡ key_text self.now.context.names (IdKey (id_of variable.0))) }
    {
        self.name(alloc, Key::Id(Id(variable.0)))
    }

    #[tactic(auto, using(glsl_ast::proofs::Views::expr_rows))]
    fn variable_expr(&self, alloc: Global, variable: Var) -> Result<Expr, Memory>
        ensures { IfOk result (λ e. expr_of e ≡ name_expr (scope_of self.now.context) variable.0) }
    {
        Ok(Expr::Name(self.variable(alloc, variable)?))
    }

    /// What a move gives.
    fn source(&self, alloc: Global, source: Src) -> Result<Expr, Memory>
        ensures { IfOk result (λ e. expr_of e ≡ source_expr (scope_of self.now.context) source) }
    {
        match source {
            Src::Var(variable) => self.variable_expr(alloc, variable),
            Src::Constant(id) => self.constant(alloc, id),
        }
    }

    /// An assignment to the variable of a phi.
    #[inline(always)]
    #[tactic(auto, using(glsl_ast::proofs::Views::stmt_rows))]
    fn set_variable(&self, alloc: Global, variable: Var, value: Expr) -> Result<Stmt, Memory>
        ensures { IfOk result (λ s. stmt_of s ≡ variable_set (scope_of self.now.context) variable (expr_of value)) }
    {
        let place = LValue {
            name: self.variable(alloc, variable)?,
            steps: Vec::new(alloc),
        };
        Ok(Stmt::Assign(place, value))
    }

    /// The key of a spare of an edge.
    fn spare(&self, from: usize, to: usize, number: u32) -> Key
        ensures { result ≡ SpareKey (id_of (label_at self.now.context.function from)) (id_of (label_at self.now.context.function to)) number }
    {
        let function = self.plan().function();
        Key::Spare(label(function, from), label(function, to), number)
    }

    /// A spare of an edge as an expression.
    #[tactic(auto, using(glsl_ast::proofs::Views::expr_rows))]
    fn spare_expr(&self, alloc: Global, from: usize, to: usize, number: u32) -> Result<Expr, Memory>
        ensures { IfOk result (λ e. expr_of e ≡ name_tree (key_text self.now.context.names (SpareKey (id_of (label_at self.now.context.function from)) (id_of (label_at self.now.context.function to)) number))) }
    {
        Ok(Expr::Name(self.name(alloc, self.spare(from, to, number))?))
    }

    /// The declaration of a spare of an edge, with the value of a variable.
    fn saved(
        &self,
        alloc: Global,
        from: usize,
        to: usize,
        number: u32,
        variable: Var,
    ) -> Result<Stmt, Memory>
        ensures { IfOk result (λ s. stmt_of s ≡ saved_text (plan_in self.now.context self.now.plan.now) from to number variable) }
    {
        let ty = self.type_of(Id(variable.0));
        let value = self.variable_expr(alloc, variable)?;
        self.declared(alloc, ty, self.spare(from, to, number), Some(value))
    }

    /// The statement of a move of an edge.
    fn move_text(&self, alloc: Global, from: usize, to: usize, step: Move) -> Result<Stmt, Memory>
        ensures { IfOk result (λ s. stmt_of s ≡ text_of_move (plan_in self.now.context self.now.plan.now) from to step) }
    {
        match step {
            Move::Set(variable, source) => {
                let value = self.source(alloc, source)?;
                self.set_variable(alloc, variable, value)
            }
            Move::Save(number, variable) => self.saved(alloc, from, to, number, variable),
            Move::Restore(variable, number) => {
                let spare = self.spare_expr(alloc, from, to, number)?;
                self.set_variable(alloc, variable, spare)
            }
        }
    }

    /// The name of a flag, where it is needed.
    #[inline(always)]
    fn flag(&self, needed: bool, key: Key) -> Option<&str>
        ensures { option_map (λ s. s.now) result ≡ when needed (key_text self.now.context.names key) }
    {
        if needed {
            Some(self.given(key).unwrap_or(""))
        } else {
            None
        }
    }
}

impl BlockText for PlannedFunction<'_, '_> {
    ghost use Rattle.function_text.specs.Functions.{blocks_of};
    ghost use Rattle.function_text.specs.State.{plan_in};

    ghost blocks = { λ p. blocks_of (plan_in p.context p.plan.now) };

    fn statements(&self, alloc: Global, block: usize, out: &mut Vec<Stmt>) -> Result<(), Memory> {
        self.context().add_block(alloc, block, out)
    }

    fn condition(&self, alloc: Global, block: usize) -> Result<Expr, Memory> {
        let id = first_operand(self.plan().function(), block);
        self.context().value(alloc, block, Id(id))
    }

    fn case(&self, header: usize, word: u32) -> Literal {
        let id = first_operand(self.plan().function(), header);
        case_literal(self.elem(Id(id)), word)
    }

    fn value(&self, alloc: Global, block: usize) -> Result<Option<Expr>, Memory> {
        match returned(self.plan().function(), block) {
            None => Ok(None),
            Some(id) => Ok(Some(self.context().value(alloc, block, Id(id))?)),
        }
    }

    fn target(&self, block: usize, number: usize) -> usize {
        target(self.plan().nodes.as_slice(), block, number)
    }

    fn copies(&self, alloc: Global, edge: Edge, out: &mut Vec<Stmt>) -> Result<(), Memory> {
        let Edge { from, to } = edge;
        let moves = self.plan().moves_of(from, to);
        reserve(out, moves.len())?;
        for step in moves {
            out.push(self.move_text(alloc, from, to, *step)?)?;
        }
        Ok(())
    }

    fn again(&self, header: usize) -> Option<&str> {
        let needed = again_at(&self.plan().flags, header);
        self.flag(needed, Key::Again(label(self.plan().function(), header)))
    }

    fn leave(&self, header: usize) -> Option<&str> {
        let needed = leave_at(&self.plan().flags, header);
        self.flag(needed, Key::Leave(label(self.plan().function(), header)))
    }

    fn fell(&self, target: usize) -> Option<&str> {
        let needed = fell_at(&self.plan().flags, target);
        self.flag(needed, Key::Fell(label(self.plan().function(), target)))
    }

    fn order(&self, header: usize) -> &[usize] {
        self.plan().order_of(header)
    }
}
