// The variables of results.
ghost use Rattle.std.specs.Prelude.{◌≡◌, ◌++◌, ◌∷◌, [], OnOk, Some, map};
ghost use Rattle.spv_module.specs.Lists.{id};
ghost use Rattle.name_alloc.specs.declared.claims.Key.TheVariants.{Id as IdKey};
ghost use Rattle.glsl_ast.specs.Tree.{assign, declare, lvalue};
ghost use Rattle.glsl_ast.specs.View.{expr_of, step_of, stmt_of};
ghost use Rattle.text_rules.specs.Declarations.{type_at};
ghost use Rattle.expr_forward.specs.Context.{all_names, key_text, scope_of};
ghost use Rattle.expr_forward.specs.Statements.{is_variable_form as is_variable_form_of, set};

use crate::Context;
use crate::block::BlockContext;
use glsl_ast::{Expr, LStep, LValue, Stmt};
use hoist_plan::Form;
use name_alloc::Key;
use spv_module::{Id, Inst};
use spv_words::Memory;
use std::alloc::Global;

fn is_variable_form(form: Form) -> bool
    ensures { result ≡ is_variable_form_of form }
{
    matches!(form, Form::Local | Form::Hoisted)
}

impl Context<'_, '_> {
    /// Whether the result of an instruction has a variable.
    pub(crate) fn has_variable(&self, inst: &Inst) -> bool
        ensures { result ≡ is_variable_form_of ((scope_of self.now).form inst.now.result) }
    {
        is_variable_form(self.form(Id(inst.result)))
    }
}

impl BlockContext<'_, '_, '_> {
    /// Adds an assignment to the variable of a result, or to a part of it.
    #[tactic(auto, using(glsl_ast::proofs::Views::stmt_rows))]
    pub fn add_assignment(
        &self,
        into: &mut Vec<Stmt>,
        inst: &Inst,
        steps: Vec<LStep>,
        expr: Expr,
    ) -> Result<(), Memory>
        ensures { OnOk result (map stmt_of into.new.items ≡ map stmt_of into.old.items ++ assign (lvalue (key_text self.now.context.now.names (IdKey (id inst.now.result))) (map step_of steps.items)) (expr_of expr) ∷ []) }
    {
        let name = self.context.name(self.alloc, Key::Id(Id(inst.result)))?;
        into.push(Stmt::Assign(LValue { name, steps }, expr))?;
        Ok(())
    }

    /// Adds the declaration of the variable of a result, with its value.
    #[tactic(auto, using(glsl_ast::proofs::Views::stmt_rows))]
    fn add_declaration(&self, into: &mut Vec<Stmt>, inst: &Inst, expr: Expr) -> Result<(), Memory>
        ensures { OnOk result (map stmt_of into.new.items ≡ map stmt_of into.old.items ++ declare (type_at self.now.context.now.source (all_names self.now.context.now.names) inst.now.ty) (key_text self.now.context.now.names (IdKey (id inst.now.result))) (Some (expr_of expr)) ∷ []) }
    {
        let ty = self.context.type_name_of(self.alloc, inst.ty)?;
        let name = self.context.name(self.alloc, Key::Id(Id(inst.result)))?;
        into.push(Stmt::Declare(ty, name, Some(expr)))?;
        Ok(())
    }

    /// Adds what gives a result its value: its variable is declared here, or was declared at the top of the function.
    pub fn add_result(&self, into: &mut Vec<Stmt>, inst: &Inst, expr: Expr) -> Result<(), Memory>
        ensures { OnOk result (map stmt_of into.new.items ≡ map stmt_of into.old.items ++ set (scope_of self.now.context.now) inst.now (expr_of expr)) }
    {
        match self.context.form(Id(inst.result)) {
            Form::Local => self.add_declaration(into, inst, expr),
            Form::Hoisted => self.add_assignment(into, inst, Vec::new(self.alloc), expr),
            Form::Gone | Form::Forwarded => Ok(()),
        }
    }
}
