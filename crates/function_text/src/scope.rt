// Where a function is written.
ghost use Rattle.std.specs.Prelude.{◌≡◌, IfOk, is_some, map, option_map};
ghost use Rattle.std.specs.List.{All};
ghost use Rattle.spv_index.specs.Pointers.{pointee as pointee_of};
ghost use Rattle.few_law.specs.Short.{HasFewArgs};
ghost use Rattle.name_alloc.specs.Lookup.{name_in};
ghost use Rattle.glsl_ast.specs.Tree.{declare};
ghost use Rattle.glsl_ast.specs.View.{name_text, expr_of, stmt_of, type_of as type_name_of_code};
ghost use Rattle.text_rules.specs.Declarations.{initial as initial_of, pointee_at as pointee_at_of, type_at};
ghost use Rattle.expr_forward.specs.Context.{all_names, key_text, scope_of};
ghost use Rattle.expr_forward.specs.Scope.{type_of as type_in_scope};
ghost use Rattle.expr_forward.specs.Statements.{captured_of, is_void as is_void_type};
ghost use Rattle.function_text.specs.Functions.{constant_text, elem_at, index_of};

use constant_text::{Readings, name, scalar_type};
use expr_forward::{Context, Globals};
use function_plan::FunctionPlan;
use glsl_ast::{Expr, Name, Stmt, TypeName};
use name_alloc::{Key, Names};
use spv_index::pointer;
use spv_module::{Elem, Id, Inst, Module};
use spv_words::Memory;
use std::alloc::Global;
use text_items::{initial, pointee_at};

/// A function with its plan, and what is known where it is written.
#[derive(Drop)]
pub struct PlannedFunction<'a, 'b> {
    readings: &'a Readings<'b>,
    names: &'a Names,
    globals: &'a Globals,
    plan: &'a FunctionPlan<'b>,
    context: Context<'a, 'b>,
    ghost source_is: { context.source ≡ readings.now },
    ghost function_is: { context.function ≡ plan.now.locals },
    ghost names_are: { context.names ≡ names.now },
    ghost globals_are: { context.globals ≡ globals.now },
    ghost naming_is: { context.plan ≡ plan.now.naming },
}

impl<'a, 'b> PlannedFunction<'a, 'b> {
    /// A function of the module of the readings with its plan. There is an error only for want of memory.
    pub fn of(
        alloc: Global,
        readings: &'a Readings<'b>,
        names: &'a Names,
        globals: &'a Globals,
        plan: &'a FunctionPlan<'b>,
    ) -> Result<PlannedFunction<'a, 'b>, Memory>
        requires { All HasFewArgs readings.now.of.globals }
        ensures plan { IfOk result (λ p. p.plan.now ≡ plan.now) }
        ensures context { IfOk result (λ p. p.context ≡ record { source = readings.now; function = plan.now.locals; names = names.now; globals = globals.now; plan = plan.now.naming }) }
    {
        Ok(PlannedFunction {
            readings,
            names,
            globals,
            plan,
            context: Context::of(alloc, readings, &plan.locals, names, globals, &plan.naming)?,
        })
    }

    /// The plan of the function.
    pub fn plan(&self) -> &'a FunctionPlan<'b>
        ensures { result.now ≡ self.now.plan.now }
    {
        self.plan
    }

    /// What the statements of blocks are written by.
    pub fn context(&self) -> &Context<'a, 'b>
        ensures { result.now ≡ self.now.context }
    {
        &self.context
    }

    /// The module of the function.
    pub fn module(&self) -> &'b Module
        ensures { result.now ≡ self.now.context.source.of }
    {
        self.readings.module()
    }

    /// The function of the entry point.
    pub fn entry(&self) -> Id
        ensures { result.0 ≡ self.now.context.source.entry }
    {
        self.readings.entry()
    }

    /// The type of a value, and 0 of an id that is none.
    pub fn type_of(&self, id: Id) -> u32
        ensures { result ≡ type_in_scope (scope_of self.now.context) id.0 }
    {
        self.context.type_of(id)
    }

    /// Whether a type is OpTypeVoid.
    pub fn is_void(&self, ty: Id) -> bool
        ensures { result ≡ is_void_type (scope_of self.now.context) ty.0 }
    {
        self.context.is_void(ty.0)
    }

    /// The scalar type of a value.
    pub fn elem(&self, id: Id) -> Option<Elem>
        ensures { result ≡ elem_at (scope_of self.now.context) (type_in_scope (scope_of self.now.context) id.0) }
    {
        scalar_type(self.readings.module(), self.context.type_of(id))
    }

    /// The name of a key, where it is claimed.
    pub fn given(&self, key: Key) -> Option<&str>
        ensures { option_map (λ n. n.now) result ≡ name_in self.now.context.names key }
    {
        match self.names.of(key) {
            None => None,
            Some(name) => Some(name.as_str()),
        }
    }

    /// The name of a key, to stand in the tree.
    #[inline(always)]
    pub fn name(&self, alloc: Global, key: Key) -> Result<Name, Memory>
        ensures { IfOk result (λ n. name_text n ≡ key_text self.now.context.names key) }
    {
        name(alloc, self.names, key)
    }

    /// The expression of the constant of the module with an id.
    #[tactic(auto, using(glsl_ast::proofs::Views::expr_rows))]
    pub fn constant(&self, alloc: Global, id: Id) -> Result<Expr, Memory>
        ensures { IfOk result (λ e. expr_of e ≡ constant_text (scope_of self.now.context) id.0) }
    {
        match self.globals.of(id) {
            Some(expr) => expr.clone_in(alloc),
            None => Ok(Expr::Name(self.name(alloc, Key::Id(id))?)),
        }
    }

    /// What a variable holds at first: its initializer, or its zero.
    pub fn initial(&self, alloc: Global, inst: &Inst) -> Result<Expr, Memory>
        ensures { IfOk result (λ e. expr_of e ≡ initial_of self.now.context.source (all_names self.now.context.names) inst.now) }
    {
        initial(alloc, self.readings, self.names, inst)
    }

    /// The name of a type.
    pub fn type_name(&self, alloc: Global, ty: u32) -> Result<TypeName, Memory>
        ensures { IfOk result (λ t. type_name_of_code t ≡ type_at self.now.context.source (all_names self.now.context.names) ty) }
    {
        self.context.type_name_of(alloc, ty)
    }

    /// The indexes of a chain that other blocks read from variables, each with its number among the indexes.
    pub fn captured(&self, alloc: Global, chain: &Inst) -> Result<Vec<(u32, Id)>, Memory>
        requires { HasFewArgs chain.now }
        ensures { IfOk result (λ list. map index_of list.items ≡ captured_of (scope_of self.now.context) chain.now) }
    {
        self.context.captured(alloc, chain)
    }

    /// What a pointer type points to.
    fn pointee_if_any(&self, ty: u32) -> Option<u32>
        ensures { result ≡ pointee_of self.now.context.source.of.globals ty }
    {
        pointer(self.readings.module(), Id(ty)).map(|p| p.pointee.0)
    }

    /// Whether a type is that of pointers.
    pub fn is_pointer(&self, ty: u32) -> bool
        ensures { result ≡ is_some (pointee_of self.now.context.source.of.globals ty) }
    {
        self.pointee_if_any(ty).is_some()
    }

    /// What a pointer type points to; another type is its own.
    pub fn pointee(&self, ty: u32) -> u32
        ensures { result ≡ pointee_at_of self.now.context.source ty }
    {
        pointee_at(self.readings.module(), ty)
    }

    /// The declaration of a variable of a type.
    #[inline(always)]
    #[tactic(auto, using(glsl_ast::proofs::Views::stmt_rows))]
    pub fn declared(
        &self,
        alloc: Global,
        ty: u32,
        key: Key,
        value: Option<Expr>,
    ) -> Result<Stmt, Memory>
        ensures { IfOk result (λ s. stmt_of s ≡ declare (type_at self.now.context.source (all_names self.now.context.names) ty) (key_text self.now.context.names key) (option_map expr_of value)) }
    {
        let ty = self.context.type_name_of(alloc, ty)?;
        Ok(Stmt::Declare(ty, self.name(alloc, key)?, value))
    }
}
