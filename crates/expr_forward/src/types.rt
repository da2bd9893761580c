// The shapes, the names and the zeros of types.
ghost use Rattle.std.specs.Prelude.{◌≡◌, IfOk};
ghost use Rattle.glsl_ast.specs.View.{expr_of, type_of};
ghost use Rattle.spv_types.specs.View.{tree_of};
ghost use Rattle.few_law.specs.Few.{HasFewMembers};
ghost use Rattle.text_rules.specs.Outlines.{basic as basic_of_type};
ghost use Rattle.text_rules.specs.Declarations.{shape_at as shape_at_of, type_at, zero_at};
ghost use Rattle.expr_forward.specs.Context.{all_names};

use crate::Context;
use constant_text::basic_shape;
use glsl_ast::{Expr, TypeName};
use spv_module::{Id, Shape};
use spv_types::judged_shape;
use spv_words::Memory;
use std::alloc::Global;

impl Context<'_, '_> {
    /// The shape of a scalar or vector type, and uint of another type.
    #[inline(always)]
    pub(crate) fn basic_shape(&self, ty: u32) -> Shape
        ensures { tree_of result ≡ basic_of_type self.now.source.of.globals ty }
    {
        basic_shape(self.module(), ty)
    }

    /// The shape of a type, and uint of what has none.
    #[tactic(auto, using(spv_types::proofs::Views::shape_rows))]
    pub(crate) fn shape_at(&self, alloc: Global, ty: u32) -> Result<Shape, Memory>
        ensures shape { IfOk result (λ s. tree_of s ≡ shape_at_of self.now.source ty) }
        ensures few { IfOk result (λ s. HasFewMembers (tree_of s)) }
    {
        match judged_shape(alloc, self.readings.module(), Id(ty))? {
            Some(shape) => Ok(shape),
            None => Ok(Shape::Uint),
        }
    }

    /// The name of a type (GLSL 4.60, section 4.1), and `uint` of what is none. There is an error only for want of memory.
    ///
    /// The cost does not grow with the members of structs.
    #[inline(always)]
    pub fn type_name_of(&self, alloc: Global, ty: u32) -> Result<TypeName, Memory>
        ensures { IfOk result (λ t. type_of t ≡ type_at self.now.source (all_names self.now.names) ty) }
    {
        self.readings.type_name_of(alloc, self.names, ty)
    }

    /// The zero of a type, which lists each part (GLSL 4.60, section 5.4), and `0u` of what is none. There is an error only for
    /// want of memory.
    pub fn zero_of(&self, alloc: Global, ty: u32) -> Result<Expr, Memory>
        ensures { IfOk result (λ e. expr_of e ≡ zero_at self.now.source (all_names self.now.names) ty) }
    {
        let shape = self.shape_at(alloc, ty)?;
        self.readings.zero_expr(alloc, self.names, &shape)
    }
}
