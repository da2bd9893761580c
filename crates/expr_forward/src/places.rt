// How pointers are written: the name of what they lead from, and their steps (GLSL 4.60, sections 5.5 to 5.7).
ghost use Rattle.std.specs.Prelude.{◌≡◌, ◌∷◌, [], IfOk, map, unwrap_or};
ghost use Rattle.profile_rules.specs.MemoryRules.{pointee_of};
ghost use Rattle.glsl_ast.specs.View.{name_text, expr_of, lvalue_of, step_of};
ghost use Rattle.expr_forward.specs.Paths.{name_in, base_text, place_text as place_text_of, place_expr as place_expr_of, further as further_of, steps_text};
ghost use Rattle.expr_forward.specs.Context.{setting_of};

use crate::Context;
use access_paths::Step;
use glsl_ast::{Expr, LStep, LValue, Name};
use name_alloc::Key;
use spv_module::Id;
use spv_words::Memory;
use std::alloc::Global;

/// The name that an expression is, and nothing of another.
#[tactic(auto, using(glsl_ast::proofs::Views::expr_rows))]
fn name_of(alloc: Global, expr: &Expr) -> Result<Name, Memory>
    ensures { IfOk result (λ w. name_text w ≡ name_in (expr_of expr.now)) }
{
    match expr {
        Expr::Name(name) => Ok(name.shared()?),
        _ => Ok(Name::from_str(alloc, "")?),
    }
}

/// What a step leads to.
#[tactic(auto, using(glsl_ast::proofs::Views::expr_rows))]
pub(crate) fn further(alloc: Global, of: Expr, step: LStep) -> Result<Expr, Memory>
    ensures { IfOk result (λ e. expr_of e ≡ further_of (expr_of of) (step_of step ∷ [])) }
{
    match step {
        LStep::Member(name) => Expr::member(alloc, of, name),
        LStep::Index(index) => Ok(Expr::Index(Box::new(alloc, of)?, Box::new(alloc, index)?)),
    }
}

/// What steps lead to.
#[inline(always)]
#[tactic(auto, using(crate::proofs::Further::further_rules))]
pub(crate) fn walked(alloc: Global, from: Expr, steps: Vec<LStep>) -> Result<Expr, Memory>
    ensures { IfOk result (λ e. expr_of e ≡ further_of (expr_of from) (map step_of steps.items)) }
{
    if steps.is_empty() {
        return Ok(from);
    }
    let mut expr = from;
    for step in steps {
        expr = further(alloc, expr, step)?;
    }
    Ok(expr)
}

impl Context<'_, '_> {
    /// The name of what a path leads from: that of what is built in, else its own.
    #[inline(always)]
    fn base_name(&self, alloc: Global, id: Id) -> Result<Name, Memory>
        ensures { IfOk result (λ w. name_text w ≡ base_text (setting_of self.now) id.0) }
    {
        match self.globals.of(id) {
            Some(expr) => name_of(alloc, expr),
            None => self.name(alloc, Key::Id(id)),
        }
    }

    /// The steps of a path from what a value points to.
    #[inline(always)]
    fn steps_from(&self, alloc: Global, base: Id, steps: &[Step]) -> Result<Vec<LStep>, Memory>
        ensures { IfOk result (λ list. map step_of list.items ≡ steps_text (setting_of self.now) (unwrap_or (pointee_of self.now.source.of.globals self.now.function base.0) 0) steps.now) }
    {
        if steps.is_empty() {
            return Ok(Vec::new(alloc));
        }
        self.steps(alloc, self.pointee(base), steps)
    }

    /// A pointer as the left side of an assignment, in the block at a place (GLSL 4.60, section 5.8). There is an error only for
    /// want of memory.
    #[inline(always)]
    pub fn place_text(&self, alloc: Global, block: usize, pointer: Id) -> Result<LValue, Memory>
        ensures { IfOk result (λ l. lvalue_of l ≡ place_text_of (setting_of self.now) block pointer.0) }
    {
        let path = self.paths.path(alloc, block, pointer)?;
        Ok(LValue {
            name: self.base_name(alloc, path.base)?,
            steps: self.steps_from(alloc, path.base, &path.steps)?,
        })
    }

    /// A pointer as an expression, in the block at a place. There is an error only for want of memory.
    #[inline(always)]
    #[tactic(auto, using(glsl_ast::proofs::Views::expr_rows))]
    pub fn place_expr(&self, alloc: Global, block: usize, pointer: Id) -> Result<Expr, Memory>
        ensures { IfOk result (λ e. expr_of e ≡ place_expr_of (setting_of self.now) block pointer.0) }
    {
        let LValue { name, steps } = self.place_text(alloc, block, pointer)?;
        walked(alloc, Expr::Name(name), steps)
    }
}
