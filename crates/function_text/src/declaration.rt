// The declaration of a function by its plan.
ghost use Rattle.std.specs.Prelude.{◌≡◌, IfOk};
ghost use Rattle.std.specs.List.{All};
ghost use Rattle.few_law.specs.Short.{HasFewArgs};
ghost use Rattle.glsl_ast.specs.View.{decl_of};
ghost use Rattle.function_text.specs.State.{decl_with};

use crate::scope::PlannedFunction;
use constant_text::Readings;
use expr_forward::Globals;
use function_plan::FunctionPlan;
use glsl_ast::Decl;
use name_alloc::Names;
use spv_words::Memory;
use std::alloc::Global;

/// The declaration of a function by its plan. There is an error only for want of memory.
pub fn function_decl<'a, 'b>(
    alloc: Global,
    readings: &'a Readings<'b>,
    names: &'a Names,
    globals: &'a Globals,
    plan: &'a FunctionPlan<'b>,
) -> Result<Decl, Memory>
    requires { All HasFewArgs readings.now.of.globals }
    ensures { IfOk result (λ d. decl_of d ≡ decl_with readings.now names.now globals.now plan.now) }
{
    let function = PlannedFunction::of(alloc, readings, names, globals, plan)?;
    function.decl(alloc)
}
