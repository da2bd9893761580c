// The steps of paths (GLSL 4.60, sections 5.5 to 5.7).
ghost use Rattle.std.specs.Prelude.{◌≡◌, IfOk, map};
ghost use Rattle.glsl_ast.specs.View.{expr_of, step_of};
ghost use Rattle.access_paths.specs.declared.forms.Step.TheVariants.{Index};
ghost use Rattle.expr_forward.specs.Paths.{is_plain as is_plain_of, is_number as is_number_of, literal_word as literal_word_of, word_at as word_at_of, components as components_of, composite_op_in, vector_size as vector_size_of, vector_size_in as vector_size_in_of, index_expr as index_expr_of, captured_text, step_text, step_type as step_type_of, steps_text, part_step as part_step_of, part_type as part_type_of, part_type_by, part_type_in as part_type_in_of, part_steps as part_steps_of};
ghost use Rattle.expr_forward.specs.Context.{setting_of};

use crate::Context;
use access_paths::Step;
use constant_text::{Reading, scalar_type};
use glsl_ast::{Expr, LStep, Literal, Name};
use name_alloc::Key;
use spv_module::{Elem, Id, Inst, Module};
use spv_ops::Op;
use spv_words::Memory;
use std::alloc::Global;
use vec_lowering::axis_text;

/// The type of the part with a number of a composite of the type that an instruction declares.
fn part_operand(inst: &Inst, k: u32) -> u32
    ensures { result ≡ part_type_by k inst.now }
{
    if inst.op == Op::TypeStruct {
        inst.operand(k as usize)
    } else {
        inst.operand(0)
    }
}

/// The same of the type with an id.
fn part_type_in(module: &Module, ty: u32, k: u32) -> u32
    ensures { result ≡ part_type_in_of «module».now.globals ty k }
{
    module
        .global(Id(ty))
        .map_or(0, |inst| part_operand(inst, k))
}

/// The opcode of a composite's type. What is no type counts as an array.
fn composite_op(module: &Module, ty: u32) -> Op
    ensures { result ≡ composite_op_in «module».now.globals ty }
{
    module.global(Id(ty)).map_or(Op::TypeArray, |inst| inst.op)
}

/// The number of components of a vector type, and 0 of another.
fn components(inst: &Inst) -> u32
    ensures { result ≡ components_of inst.now }
{
    if inst.op == Op::TypeVector {
        inst.operand(1)
    } else {
        0
    }
}

/// The same of the type with an id.
fn vector_size_in(module: &Module, ty: u32) -> u32
    ensures { result ≡ vector_size_in_of «module».now.globals ty }
{
    module.global(Id(ty)).map_or(0, |inst| components(inst))
}

fn is_plain(reading: Reading) -> bool
    ensures { result ≡ is_plain_of reading }
{
    matches!(reading, Reading::Plain)
}

fn is_number(ty: Option<Elem>) -> bool
    ensures { result ≡ is_number_of ty }
{
    matches!(ty, Some(Elem::Int | Elem::Uint))
}

impl Context<'_, '_> {
    /// The word of an integer constant that is written as a literal.
    #[inline(always)]
    #[tactic(auto, unfolding(crate::specs::Paths::literal_word))]
    fn literal_word(&self, inst: &Inst) -> Option<u32>
        ensures { result ≡ literal_word_of (setting_of self.now) inst.now }
    {
        let ty = scalar_type(self.module(), inst.ty);
        if inst.op.is_constant() && is_plain(self.readings.reading(inst)) && is_number(ty) {
            Some(self.readings.word(inst))
        } else {
            None
        }
    }

    /// The word of an id that is an integer constant, where it is written as a literal.
    #[inline(always)]
    pub(crate) fn word_at(&self, id: Id) -> Option<u32>
        ensures { result ≡ word_at_of (setting_of self.now) id.0 }
    {
        self.literal_word(self.module().global(id)?)
    }

    /// The number of components of a vector type, and 0 of another.
    fn vector_size(&self, ty: u32) -> u32
        ensures { result ≡ vector_size_of (setting_of self.now) ty }
    {
        vector_size_in(self.module(), ty)
    }

    /// A component of a vector by a literal below its size, and else an element or component by an index.
    fn index_step(&self, alloc: Global, ty: u32, id: Id) -> Result<LStep, Memory>
        ensures { IfOk result (λ s. step_of s ≡ step_text (setting_of self.now) ty (Index id)) }
    {
        let size = self.vector_size(ty);
        match self.word_at(id) {
            Some(k) if k < size => {
                let component = Name::from_str(alloc, axis_text(k))?;
                Ok(LStep::Member(component))
            }
            Some(_) | None => Ok(LStep::Index(self.index_expr(alloc, id)?)),
        }
    }

    #[tactic(auto, using(glsl_ast::proofs::Views::expr_rows))]
    fn captured_step(&self, alloc: Global, chain: Id, number: u32) -> Result<LStep, Memory>
        ensures { IfOk result (λ s. step_of s ≡ captured_text (setting_of self.now) chain number) }
    {
        let name = self.name(alloc, Key::Captured(chain, number))?;
        Ok(LStep::Index(Expr::Name(name)))
    }

    /// A step from a type.
    fn step(&self, alloc: Global, ty: u32, step: Step) -> Result<LStep, Memory>
        ensures { IfOk result (λ s. step_of s ≡ step_text (setting_of self.now) ty step) }
    {
        match step {
            Step::Member(k) => {
                let name = self.name(alloc, Key::Member(Id(ty), k))?;
                Ok(LStep::Member(name))
            }
            Step::Index(id) => self.index_step(alloc, ty, id),
            Step::Captured(chain, number) => self.captured_step(alloc, chain, number),
        }
    }

    /// The type to which a step leads from a type.
    fn step_type(&self, ty: u32, step: Step) -> u32
        ensures { result ≡ step_type_of (setting_of self.now) ty step }
    {
        let part = match step {
            Step::Member(k) => k as usize,
            Step::Index(_) | Step::Captured(_, _) => 0,
        };
        self.module()
            .global(Id(ty))
            .map_or(0, |inst| inst.operand(part))
    }

    /// The steps of a path from a type.
    pub(crate) fn steps(
        &self,
        alloc: Global,
        from: u32,
        steps: &[Step],
    ) -> Result<Vec<LStep>, Memory>
        ensures { IfOk result (λ list. map step_of list.items ≡ steps_text (setting_of self.now) from steps.now) }
    {
        let mut list = Vec::with_capacity(alloc, steps.len())?;
        let mut ty = from;
        for step in steps {
            list.push(self.step(alloc, ty, *step)?)?;
            ty = self.step_type(ty, *step);
        }
        Ok(list)
    }

    /// How an index is read: a constant by its expression, another by the name of its variable.
    #[tactic(auto, using(glsl_ast::proofs::Views::expr_rows))]
    pub fn index_expr(&self, alloc: Global, id: Id) -> Result<Expr, Memory>
        ensures { IfOk result (λ e. expr_of e ≡ index_expr_of (setting_of self.now) id.0) }
    {
        match self.globals.of(id) {
            Some(expr) => expr.clone_in(alloc),
            None => Ok(Expr::Name(self.name(alloc, Key::Id(id))?)),
        }
    }

    /// The step from a composite of a type to the part with a number.
    #[tactic(auto, using(glsl_ast::proofs::Views::expr_rows))]
    pub(crate) fn part_step(&self, alloc: Global, ty: u32, k: u32) -> Result<LStep, Memory>
        ensures { IfOk result (λ s. step_of s ≡ part_step_of (setting_of self.now) ty k) }
    {
        let op = composite_op(self.module(), ty);
        if op == Op::TypeVector {
            let component = Name::from_str(alloc, axis_text(k))?;
            return Ok(LStep::Member(component));
        }
        if op == Op::TypeStruct {
            let name = self.name(alloc, Key::Member(Id(ty), k))?;
            return Ok(LStep::Member(name));
        }
        Ok(LStep::Index(Expr::Literal(Literal::Int(k))))
    }

    /// The type of the part with a number of a composite of a type.
    fn part_type(&self, ty: u32, k: u32) -> u32
        ensures { result ≡ part_type_of (setting_of self.now) ty k }
    {
        part_type_in(self.module(), ty, k)
    }

    /// The steps from a composite of a type to a part, by literals.
    pub(crate) fn part_steps(
        &self,
        alloc: Global,
        from: u32,
        literals: &[u32],
    ) -> Result<Vec<LStep>, Memory>
        ensures { IfOk result (λ list. map step_of list.items ≡ part_steps_of (setting_of self.now) from literals.now) }
    {
        let mut list = Vec::with_capacity(alloc, literals.len())?;
        let mut ty = from;
        for k in literals {
            list.push(self.part_step(alloc, ty, *k)?)?;
            ty = self.part_type(ty, *k);
        }
        Ok(list)
    }
}
