// What is known where a function is written.
ghost use Rattle.std.specs.Prelude.{◌≡◌, IfOk, is_some, option_map, unwrap_or};
ghost use Rattle.std.specs.List.{All};
ghost use Rattle.std.specs.Option.{option_copied};
ghost use Rattle.spv_index.specs.Locals.{inst_in, type_in as type_in_of};
ghost use Rattle.profile_rules.specs.MemoryRules.{pointee_of as pointee_in};
ghost use Rattle.hoist_plan.specs.Kept.{form_in};
ghost use Rattle.glsl_ast.specs.View.{name_text, expr_of};
ghost use Rattle.few_law.specs.Short.{HasFewArgs, IsShort};
ghost use Rattle.expr_forward.specs.Context.{key_text};
ghost use Rattle.expr_forward.specs.Globals.{global_in};

use crate::Globals;
use crate::block::BlockContext;
use access_paths::Paths;
use constant_text::{Readings, name};
use glsl_ast::{Expr, Name};
use hoist_plan::{Form, Naming};
use name_alloc::{Key, Names};
use spv_index::{Locals, pointee_of, type_in};
use spv_module::{Id, Inst, Module};
use spv_words::Memory;
use std::alloc::Global;
use std::marker::Model;

/// What is known where a function is written: how constants are read, what the function defines, its pointers' paths, the names,
/// the expressions of constants and built-in variables, and which values have variables. Contracts see all but the paths.
#[derive(Drop)]
pub struct Context<'a, 'b> {
    pub(crate) readings: &'a Readings<'b>,
    pub(crate) locals: &'a Locals<'b>,
    pub(crate) paths: Paths<'b>,
    pub(crate) names: &'a Names,
    pub(crate) globals: &'a Globals,
    pub(crate) plan: &'a Naming,
}

impl<'a, 'b> Model for Context<'a, 'b> {
    ghost use Rattle.expr_forward.specs.Context.{ContextState};

    ghost Value = { ContextState };

    ghost use Rattle.std.specs.Coded.{codes};
    ghost use Rattle.name_alloc.specs.contracts.claims.Names as given_names;
    ghost use Rattle.expr_forward.specs.contracts.globals.Globals as expressions;

    ghost coded = { Prim.hlevel (codes, given_names.the_row.coded, expressions.the_row.coded) };

    ghost use Rattle.std.specs.Prelude.{◌≡◌};
    ghost use Rattle.std.specs.List.{All};
    ghost use Rattle.few_law.specs.Short.{HasFewArgs, IsShort};
    ghost use Rattle.access_paths.specs.State.{paths_of};

    ghost view = { λ c. record { source = c.readings.now; function = c.locals.now; names = c.names.now; globals = c.globals.now; plan = c.plan.now } };

    ghost invariant = { λ c. (c.paths ≡ paths_of c.readings.now.of.globals c.locals.now) × (IsShort c.locals.now × All HasFewArgs c.readings.now.of.globals) };
}

impl<'a, 'b> Context<'a, 'b> {
    /// What is known of a function of the module of the readings. There is an error only for want of memory.
    pub fn of(
        alloc: Global,
        readings: &'a Readings<'b>,
        locals: &'a Locals<'b>,
        names: &'a Names,
        globals: &'a Globals,
        plan: &'a Naming,
    ) -> Result<Context<'a, 'b>, Memory>
        requires few { All HasFewArgs readings.now.of.globals }
        requires short { IsShort locals.now }
        ensures { IfOk result (λ c. c ≡ record { source = readings.now; function = locals.now; names = names.now; globals = globals.now; plan = plan.now }) }
    {
        Ok(Context {
            readings,
            locals,
            paths: Paths::of(alloc, readings.module(), locals)?,
            names,
            globals,
            plan,
        })
    }

    /// What is known in the block at a place.
    #[inline(always)]
    pub(crate) fn at<'c>(&'c self, alloc: Global, block: usize) -> BlockContext<'c, 'a, 'b>
        ensures context { result.context.now ≡ self.now }
        ensures block { result.block ≡ block }
    {
        BlockContext {
            context: self,
            alloc,
            block,
        }
    }

    pub(crate) fn module(&self) -> &'b Module
        ensures { result.now ≡ self.now.source.of }
    {
        self.readings.module()
    }

    pub(crate) fn names(&self) -> &'a Names
        ensures { result.now ≡ self.now.names }
    {
        self.names
    }

    /// The name of a key, to stand in the tree.
    #[inline(always)]
    pub(crate) fn name(&self, alloc: Global, key: Key) -> Result<Name, Memory>
        ensures { IfOk result (λ w. name_text w ≡ key_text self.now.names key) }
    {
        name(alloc, self.names, key)
    }

    /// The expression by which a constant or a built-in variable is read, and `None` of another id.
    #[inline(always)]
    pub(crate) fn global(&self, id: Id) -> Option<&Expr>
        ensures { option_map (λ e. expr_of e.now) result ≡ global_in self.now.globals id.0 }
    {
        self.globals.of(id)
    }

    /// How the value with an id is written.
    #[inline(always)]
    pub(crate) fn form(&self, id: Id) -> Form
        ensures { result ≡ form_in self.now.plan id.0 }
    {
        self.plan.of(id)
    }

    /// The instruction of the function with this result.
    #[inline(always)]
    pub(crate) fn inst(&self, id: Id) -> Option<&'b Inst>
        ensures { option_copied result ≡ inst_in self.now.function id.0 }
    {
        self.locals.inst(id.0)
    }

    /// The type of a value, and 0 of an id that is none.
    #[inline(always)]
    pub fn type_of(&self, id: Id) -> u32
        ensures { result ≡ unwrap_or (type_in_of self.now.source.of.globals self.now.function id.0) 0 }
    {
        type_in(self.module(), self.locals, id.0).unwrap_or(0)
    }

    /// The type of what a value points to, and 0 of one that is no pointer.
    pub fn pointee(&self, id: Id) -> u32
        ensures { result ≡ unwrap_or (pointee_in self.now.source.of.globals self.now.function id.0) 0 }
    {
        pointee_of(self.module(), self.locals, id.0).unwrap_or(0)
    }

    /// Whether a value is a pointer.
    pub(crate) fn is_pointer(&self, id: Id) -> bool
        ensures { result ≡ is_some (pointee_in self.now.source.of.globals self.now.function id.0) }
    {
        pointee_of(self.module(), self.locals, id.0).is_some()
    }
}
