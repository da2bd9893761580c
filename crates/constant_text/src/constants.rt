// The expressions by which constants are read.
ghost use Rattle.std.specs.Prelude.{◌≡◌, IfOk};
ghost use Rattle.glsl_ast.specs.Tree.{name as name_tree, member as member_tree};
ghost use Rattle.glsl_ast.specs.View.{expr_of};
ghost use Rattle.text_rules.specs.Constants.{axis_text as axis_text_of, group_size_text, constant_expr as constant_expr_of};
ghost use Rattle.constant_text.specs.Named.{id_names};

use crate::Readings;
use crate::names::name;
use glsl_ast::{Expr, Name};
use name_alloc::{Key, Names};
use spv_module::{Id, Inst};
use spv_words::Memory;
use std::alloc::Global;
use text_rules::Reading;

/// The components of a vector of three.
pub(crate) fn axis_text(axis: usize) -> &'static str
    ensures { result.now ≡ axis_text_of axis }
{
    match axis {
        0 => "x",
        1 => "y",
        _ => "z",
    }
}

#[tactic(auto, using(glsl_ast::proofs::Views::expr_rows))]
fn group_size(alloc: Global) -> Result<Expr, Memory>
    ensures { IfOk result (λ e. expr_of e ≡ name_tree group_size_text) }
{
    Ok(Expr::Name(Name::from_str(alloc, "gl_WorkGroupSize")?))
}

#[tactic(auto, using(glsl_ast::proofs::Views::expr_rows))]
fn group_size_part(alloc: Global, axis: usize) -> Result<Expr, Memory>
    ensures { IfOk result (λ e. expr_of e ≡ member_tree (name_tree group_size_text) (axis_text_of axis)) }
{
    let axis = Name::from_str(alloc, axis_text(axis))?;
    Expr::member(alloc, group_size(alloc)?, axis)
}

#[tactic(auto, using(glsl_ast::proofs::Views::expr_rows))]
fn named(alloc: Global, names: &Names, id: Id) -> Result<Expr, Memory>
    ensures { IfOk result (λ e. expr_of e ≡ name_tree (id_names names.now id.0)) }
{
    Ok(Expr::Name(name(alloc, names, Key::Id(id))?))
}

impl Readings<'_> {
    /// The expression by which the constant that an instruction defines is read: its literal, its name, or `gl_WorkGroupSize`
    /// or a component of that (GLSL 4.60, section 7.1.3.1). There is an error only for want of memory.
    #[tactic(auto, using(glsl_ast::proofs::Views::expr_rows))]
    pub fn constant_expr(&self, alloc: Global, names: &Names, inst: &Inst) -> Result<Expr, Memory>
        ensures { IfOk result (λ e. expr_of e ≡ constant_expr_of self.now (id_names names.now) inst.now) }
    {
        match self.reading(inst) {
            Reading::Plain => Ok(Expr::Literal(self.literal(inst))),
            Reading::Named => named(alloc, names, Id(inst.result)),
            Reading::GroupSize => group_size(alloc),
            Reading::GroupSizePart(axis) => group_size_part(alloc, axis),
        }
    }
}
