// Functions (GLSL 4.60, section 6.1).
ghost use Rattle.std.specs.Prelude.{◌≡◌, ◌++◌, IfOk, OnOk, map, option_map};
ghost use Rattle.glsl_ast.specs.View.{decl_of, param_of, stmt_of, type_of as type_name_of};
ghost use Rattle.few_law.specs.Short.{IsShort};
ghost use Rattle.structure_recover.specs.View.{region_of};
ghost use Rattle.control_text.specs.Statements.{function_text as text_of_function};
ghost use Rattle.expr_forward.specs.Context.{scope_of};
ghost use Rattle.function_text.specs.Functions.{function_key as key_of_function, param_text as text_of_param, result_type_at, blocks_of, body_text as text_of_body, function_decl};
ghost use Rattle.function_text.specs.State.{plan_in};

use crate::scope::PlannedFunction;
use control_text::function_text;
use glsl_ast::{Decl, Param, Stmt, TypeName};
use name_alloc::Key;
use spv_module::{Function, Id};
use spv_words::Memory;
use std::alloc::Global;

/// The key of a function's name: that of the entry point is `main`.
fn function_key(entry: Id, function: Id) -> Key
    ensures { result ≡ key_of_function entry.0 function }
{
    if function.0 == entry.0 {
        Key::Main
    } else {
        Key::Id(function)
    }
}

impl PlannedFunction<'_, '_> {
    /// A parameter; one that is a pointer is `inout`.
    fn param_text(&self, alloc: Global, param: (Id, Id)) -> Result<Param, Memory>
        ensures { IfOk result (λ p. param_of p ≡ text_of_param (scope_of self.now.context) param) }
    {
        let ty = self.pointee(param.1.0);
        Ok(Param {
            inout: self.is_pointer(param.1.0),
            ty: self.type_name(alloc, ty)?,
            name: self.name(alloc, Key::Id(param.0))?,
        })
    }

    /// The parameters of a function.
    fn params_text(&self, alloc: Global, params: &[(Id, Id)]) -> Result<Vec<Param>, Memory>
        ensures { IfOk result (λ list. map param_of list.items ≡ map (text_of_param (scope_of self.now.context)) params.now) }
    {
        let mut list = Vec::with_capacity(alloc, params.len())?;
        for param in params {
            list.push(self.param_text(alloc, *param)?)?;
        }
        Ok(list)
    }

    /// The type of a function's result, where it has one.
    fn result_type(&self, alloc: Global, ty: Id) -> Result<Option<TypeName>, Memory>
        ensures { IfOk result (λ t. option_map type_name_of t ≡ result_type_at (scope_of self.now.context) ty.0) }
    {
        if self.is_void(ty) {
            return Ok(None);
        }
        Ok(Some(self.type_name(alloc, ty.0)?))
    }

    /// Appends the statements of a function's control flow.
    fn add_flow(&self, alloc: Global, body: &mut Vec<Stmt>) -> Result<(), Memory>
        ensures { OnOk result (map stmt_of body.new.items ≡ map stmt_of body.old.items ++ text_of_function (blocks_of (plan_in self.now.context self.now.plan.now)) (region_of self.now.plan.now.region)) }
    {
        function_text(alloc, &self.plan().region, self, body)?;
        Ok(())
    }

    /// The statements of a function: what stands at its top, and its control flow.
    fn body_text(&self, alloc: Global, function: &Function) -> Result<Vec<Stmt>, Memory>
        requires function { function.now ≡ self.now.context.function }
        requires short { IsShort function.now }
        ensures { IfOk result (λ body. map stmt_of body.items ≡ text_of_body (plan_in self.now.context self.now.plan.now)) }
    {
        let mut body = Vec::new(alloc);
        self.add_top(function.blocks.as_slice(), &mut body)?;
        self.add_flow(alloc, &mut body)?;
        Ok(body)
    }

    /// The declaration of the function. There is an error only for want of memory.
    pub fn decl(&self, alloc: Global) -> Result<Decl, Memory>
        ensures { IfOk result (λ d. decl_of d ≡ function_decl (plan_in self.now.context self.now.plan.now)) }
    {
        let function = self.plan().function();
        Ok(Decl::Function {
            result: self.result_type(alloc, function.result)?,
            name: self.name(alloc, function_key(self.entry(), function.id))?,
            params: self.params_text(alloc, function.params.as_slice())?,
            body: self.body_text(alloc, function)?,
        })
    }
}
