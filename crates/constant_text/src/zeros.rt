// The zeros of types.
ghost use Rattle.std.specs.Prelude.{◌≡◌, IfOk, map, replicate};
ghost use Rattle.glsl_ast.specs.Tree.{build};
ghost use Rattle.glsl_ast.specs.View.{expr_of, exprs_of};
ghost use Rattle.spv_types.specs.View.{tree_of, trees_of};
ghost use Rattle.text_rules.specs.Types.{zero_elem as zero_elem_of, zero_text, zero_texts};
ghost use Rattle.text_rules.specs.Declarations.{spelling};
ghost use Rattle.constant_text.specs.Named.{id_names};
ghost use Rattle.constant_text.specs.Zeros.{array_zeros};

use crate::Readings;
use glsl_ast::{Expr, Literal, TypeName};
use name_alloc::Names;
use spv_module::{Elem, Length, Shape};
use spv_words::Memory;
use std::alloc::Global;

#[tactic(auto, using(glsl_ast::proofs::Views::expr_rows))]
fn zero_elem(elem: Elem) -> Expr
    ensures { expr_of result ≡ zero_elem_of elem }
{
    match elem {
        Elem::Bool => Expr::Literal(Literal::Truth(false)),
        Elem::Int => Expr::Literal(Literal::Int(0)),
        Elem::Uint => Expr::Literal(Literal::Uint(0)),
    }
}

fn zero_elems(alloc: Global, elem: Elem, size: u8) -> Result<Vec<Expr>, Memory>
    ensures { IfOk result (λ exprs. map expr_of exprs.items ≡ replicate size (zero_elem_of elem)) }
{
    let mut exprs = Vec::new(alloc);
    for _ in 0..size {
        exprs.push(zero_elem(elem))?;
    }
    Ok(exprs)
}

impl Readings<'_> {
    /// The zero of a shape: a literal, or a constructor that lists each part (GLSL 4.60, section 5.4). There is an error only for
    /// want of memory.
    #[cycle(zero)]
    #[tactic(auto, using(spv_types::proofs::Views::shape_rows, crate::proofs::Members::array_zero))]
    pub fn zero_expr(&self, alloc: Global, names: &Names, shape: &Shape) -> Result<Expr, Memory>
        ensures { IfOk result (λ e. expr_of e ≡ zero_text (spelling self.now (id_names names.now)) (tree_of shape.now)) }
    {
        match shape {
            Shape::Bool => Ok(zero_elem(Elem::Bool)),
            Shape::Int => Ok(zero_elem(Elem::Int)),
            Shape::Uint => Ok(zero_elem(Elem::Uint)),
            Shape::Vector(elem, size) => {
                let parts = zero_elems(alloc, *elem, *size)?;
                Expr::build(alloc, self.type_name(alloc, names, shape)?, parts)
            }
            Shape::Array(part, length) => {
                let parts = self.zero_array(alloc, names, part, *length)?;
                Expr::build(alloc, self.type_name(alloc, names, shape)?, parts)
            }
            Shape::Runtime(_) => {
                let parts = Vec::new(alloc);
                Expr::build(alloc, self.type_name(alloc, names, shape)?, parts)
            }
            Shape::Struct(_, members) => {
                let parts = self.zero_members(alloc, names, members)?;
                Expr::build(alloc, self.type_name(alloc, names, shape)?, parts)
            }
        }
    }

    #[cycle(zero)]
    fn zero_array(
        &self,
        alloc: Global,
        names: &Names,
        part: &Shape,
        length: Length,
    ) -> Result<Vec<Expr>, Memory>
        ensures { IfOk result (λ exprs. exprs_of exprs.items ≡ array_zeros (spelling self.now (id_names names.now)) (tree_of part.now) length) }
    {
        match length {
            Length::Fixed(length) => self.zero_parts(alloc, names, part, length),
            Length::Spec(_) => Ok(Vec::new(alloc)),
        }
    }

    #[cycle(zero)]
    fn zero_parts(
        &self,
        alloc: Global,
        names: &Names,
        part: &Shape,
        length: u32,
    ) -> Result<Vec<Expr>, Memory>
        ensures { IfOk result (λ exprs. map expr_of exprs.items ≡ replicate length (zero_text (spelling self.now (id_names names.now)) (tree_of part.now))) }
    {
        let mut exprs = Vec::new(alloc);
        for _ in 0..length {
            exprs.push(self.zero_expr(alloc, names, part)?)?;
        }
        Ok(exprs)
    }

    #[cycle(zero)]
    #[tactic(auto, using(crate::proofs::Members::member_rules, spv_types::proofs::Heads::member_smaller))]
    fn zero_members(
        &self,
        alloc: Global,
        names: &Names,
        members: &[Shape],
    ) -> Result<Vec<Expr>, Memory>
        ensures { IfOk result (λ exprs. exprs_of exprs.items ≡ zero_texts (spelling self.now (id_names names.now)) (trees_of members.now)) }
    {
        let mut exprs = Vec::new(alloc);
        for member in members {
            exprs.push(self.zero_expr(alloc, names, member)?)?;
        }
        Ok(exprs)
    }
}
