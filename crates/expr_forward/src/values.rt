// How values are written: by the name of a variable, or by the expression of an operation.
ghost use Rattle.std.specs.Prelude.{◌≡◌, ◌∷◌, [], IfOk, map};
ghost use Rattle.glsl_ast.specs.Tree.{build, exprs_in, length_of as length_tree, type_name, uint};
ghost use Rattle.glsl_ast.specs.View.{expr_of};
ghost use Rattle.spv_index.specs.Locals.{inst_in};
ghost use Rattle.op_semantics.specs.Value.{not_extended};
ghost use Rattle.int_lowering.specs.Operand.{as_elem};
ghost use Rattle.int_lowering.specs.Operator.{operated as operated_on, shift_amount};
ghost use Rattle.vec_lowering.specs.Composite.{argument_of};
ghost use Rattle.expr_forward.specs.Context.{basic_in, operand, read_operand, scope_of};
ghost use Rattle.expr_forward.specs.Values.{argument as argument_in, by_form, construction_text, expression as expression_of, extraction_text, forwarded as forwarded_of, length_text, logical_copy_text, operation_text, value as value_of, value_in as value_in_of, variable as variable_of, whole_argument as whole_argument_in};

use crate::block::BlockContext;
use crate::operands::{after_one, after_two, literal_words, value_words};
use crate::places::{further, walked};
use crate::{Context, OperationKind};
use glsl_ast::{Base, Expr, LStep, TypeName};
use hoist_plan::Form;
use int_lowering::{Arg, BasicType, Operator, basic_type, convert, literal, modulo_32};
use name_alloc::Key;
use op_semantics::NOT_EXTENDED;
use spv_module::{Elem, Id, Inst};
use spv_words::Memory;
use std::alloc::Global;
use vec_lowering::{lower_vector, operator};

// A value whose expression would be higher has a variable.
const DEEPEST: u32 = 17;

/// A scalar or vector type, by its id, with the type of its values.
#[derive(Clone, Copy)]
struct Known {
    ty: u32,
    basic: BasicType,
}

/// The number of elements of an array, as a uint.
#[tactic(auto, using(glsl_ast::proofs::Views::expr_rows))]
fn length_of(alloc: Global, array: Expr) -> Result<Expr, Memory>
    ensures { IfOk result (λ e. expr_of e ≡ build (type_name uint []) (exprs_in (length_tree (expr_of array) ∷ []))) }
{
    let ty = TypeName {
        base: Base::Uint,
        extents: Vec::new(alloc),
    };
    let length = Expr::Length(Box::new(alloc, array)?);
    Expr::build(alloc, ty, vec![in alloc; length]?)
}

impl Context<'_, '_> {
    /// The expression of a value in the block at a place (GLSL 4.60, section 5.9): that of a constant, that of an operation where
    /// the value has no variable, and else the variable. There is an error only for want of memory.
    pub fn value(&self, alloc: Global, block: usize, id: Id) -> Result<Expr, Memory>
        ensures { IfOk result (λ e. expr_of e ≡ value_of (scope_of self.now) block id.0) }
    {
        self.at(alloc, block).value(id)
    }
}

impl BlockContext<'_, '_, '_> {
    #[inline(always)]
    #[tactic(auto, using(glsl_ast::proofs::Views::expr_rows))]
    fn variable(&self, id: Id) -> Result<Expr, Memory>
        ensures { IfOk result (λ e. expr_of e ≡ variable_of (scope_of self.now.context.now) id.0) }
    {
        Ok(Expr::Name(self.context.name(self.alloc, Key::Id(id))?))
    }

    /// The expression of a value: that of a constant, that of an operation where the value has no variable, and else the variable.
    pub fn value(&self, id: Id) -> Result<Expr, Memory>
        ensures { IfOk result (λ e. expr_of e ≡ value_of (scope_of self.now.context.now) self.now.block id.0) }
    {
        self.value_in(DEEPEST, id)
    }

    /// The same, where expressions stand so deep in one another at most.
    #[cycle(value)]
    #[tactic(auto, using(crate::proofs::Deep::deep_rules))]
    fn value_in(&self, deep: u32, id: Id) -> Result<Expr, Memory>
        ensures { IfOk result (λ e. expr_of e ≡ value_in_of (scope_of self.now.context.now) self.now.block deep id.0) }
    {
        if deep == 0 {
            return self.variable(id);
        }
        match self.context.global(id) {
            Some(expr) => expr.clone_in(self.alloc),
            None => self.by_form(deep - 1, id),
        }
    }

    #[cycle(value)]
    #[inline(always)]
    fn by_form(&self, deep: u32, id: Id) -> Result<Expr, Memory>
        ensures { IfOk result (λ e. expr_of e ≡ by_form (scope_of self.now.context.now) (value_in_of (scope_of self.now.context.now) self.now.block deep) self.now.block id.0 ((scope_of self.now.context.now).form id.0)) }
    {
        match self.context.form(id) {
            Form::Forwarded => self.forwarded(deep, id),
            Form::Gone | Form::Local | Form::Hoisted => self.variable(id),
        }
    }

    #[cycle(value)]
    #[inline(always)]
    fn forwarded(&self, deep: u32, id: Id) -> Result<Expr, Memory>
        ensures { IfOk result (λ e. expr_of e ≡ forwarded_of (scope_of self.now.context.now) (value_in_of (scope_of self.now.context.now) self.now.block deep) self.now.block id.0 (inst_in self.now.context.now.function id.0)) }
    {
        match self.context.inst(id) {
            None => self.variable(id),
            Some(inst) => self.expression_in(deep, inst),
        }
    }

    /// The expression of an operation.
    #[inline(never)]
    pub fn expression(&self, inst: &Inst) -> Result<Expr, Memory>
        ensures { IfOk result (λ e. expr_of e ≡ expression_of (scope_of self.now.context.now) (value_of (scope_of self.now.context.now) self.now.block) self.now.block inst.now) }
    {
        self.expression_in(DEEPEST, inst)
    }

    #[cycle(value)]
    #[inline(always)]
    fn expression_in(&self, deep: u32, inst: &Inst) -> Result<Expr, Memory>
        ensures { IfOk result (λ e. expr_of e ≡ expression_of (scope_of self.now.context.now) (value_in_of (scope_of self.now.context.now) self.now.block deep) self.now.block inst.now) }
    {
        let args = inst.args.as_slice();
        match OperationKind::of(inst.op) {
            OperationKind::Undef => self.context.zero_of(self.alloc, inst.ty),
            OperationKind::CopyObject => self.value_in(deep, Id(inst.operand(0))),
            OperationKind::ArrayLength => self.array_length(inst),
            OperationKind::CompositeExtract => self.extraction(deep, inst),
            OperationKind::CompositeConstruct => self.construction(deep, inst),
            OperationKind::CopyLogical => self.logical_copy(deep, inst),
            OperationKind::Extended => self.lowered(deep, inst.operand(1), inst, after_two(args)),
            OperationKind::Plain => match args {
                [a, b] => self.on_two(deep, inst, Id(*a), Id(*b)),
                _ => self.lowered(deep, NOT_EXTENDED, inst, args),
            },
            OperationKind::Other => self.variable(Id(inst.result)),
        }
    }

    /// The number of elements of a runtime array, which is a member of a block (GLSL 4.60, section 5.7).
    #[inline(never)]
    #[tactic(auto, using(glsl_ast::proofs::Views::expr_rows))]
    fn array_length(&self, inst: &Inst) -> Result<Expr, Memory>
        ensures { IfOk result (λ e. expr_of e ≡ length_text (scope_of self.now.context.now) self.now.block inst.now) }
    {
        let pointer = Id(inst.operand(0));
        let member = Key::Member(Id(self.context.pointee(pointer)), inst.operand(1));
        let of = self.context.place_expr(self.alloc, self.block, pointer)?;
        let step = LStep::Member(self.context.name(self.alloc, member)?);
        let array = further(self.alloc, of, step)?;
        length_of(self.alloc, array)
    }

    /// A part of a composite, by literals.
    #[cycle(value)]
    #[inline(never)]
    fn extraction(&self, deep: u32, inst: &Inst) -> Result<Expr, Memory>
        ensures { IfOk result (λ e. expr_of e ≡ extraction_text (scope_of self.now.context.now) (value_in_of (scope_of self.now.context.now) self.now.block deep) inst.now) }
    {
        let alloc = self.alloc;
        let composite = Id(inst.operand(0));
        let of = self.value_in(deep, composite)?;
        let ty = self.context.type_of(composite);
        match after_one(inst.args.as_slice()) {
            [k] => further(alloc, of, self.context.part_step(alloc, ty, *k)?),
            literals => walked(alloc, of, self.context.part_steps(alloc, ty, literals)?),
        }
    }

    /// A constructor of the operands (GLSL 4.60, section 5.4).
    #[cycle(value)]
    #[inline(never)]
    #[tactic(auto, using(glsl_ast::proofs::Views::expr_rows))]
    fn construction(&self, deep: u32, inst: &Inst) -> Result<Expr, Memory>
        ensures { IfOk result (λ e. expr_of e ≡ construction_text (scope_of self.now.context.now) (value_in_of (scope_of self.now.context.now) self.now.block deep) inst.now) }
    {
        let parts = self.values(deep, inst.args.as_slice())?;
        let ty = self.context.type_name_of(self.alloc, inst.ty)?;
        Expr::build(self.alloc, ty, parts)
    }

    #[cycle(value)]
    fn values(&self, deep: u32, ids: &[u32]) -> Result<Vec<Expr>, Memory>
        ensures { IfOk result (λ list. map expr_of list.items ≡ map (value_in_of (scope_of self.now.context.now) self.now.block deep) ids.now) }
    {
        let mut list = Vec::with_capacity(self.alloc, ids.len())?;
        for id in ids {
            list.push(self.value_in(deep, Id(*id))?)?;
        }
        Ok(list)
    }

    /// A value as one of a type with other structs.
    #[cycle(value)]
    #[inline(never)]
    fn logical_copy(&self, deep: u32, inst: &Inst) -> Result<Expr, Memory>
        ensures { IfOk result (λ e. expr_of e ≡ logical_copy_text (scope_of self.now.context.now) (value_in_of (scope_of self.now.context.now) self.now.block deep) inst.now) }
    {
        let operands = self.whole_argument(deep, Id(inst.operand(0)))?;
        let shape = self.context.shape_at(self.alloc, inst.ty)?;
        let names = self.context.names();
        lower_vector(
            self.alloc,
            inst.op,
            NOT_EXTENDED,
            shape,
            operands,
            &[],
            names,
        )
    }

    /// An operand of any shape.
    #[cycle(value)]
    fn whole_argument(&self, deep: u32, id: Id) -> Result<Vec<Arg>, Memory>
        ensures { IfOk result (λ args. map argument_of args.items ≡ operand (whole_argument_in (scope_of self.now.context.now) (value_in_of (scope_of self.now.context.now) self.now.block deep) id.0) ∷ []) }
    {
        let alloc = self.alloc;
        let expr = self.value_in(deep, id)?;
        let shape = self.context.shape_at(alloc, self.context.type_of(id))?;
        let word = None;
        Ok(vec![in alloc; Arg { expr, shape, word }]?)
    }

    /// An operation on scalars and vectors, with its number where it is an extended one.
    #[cycle(value)]
    #[inline(always)]
    fn lowered(&self, deep: u32, number: u32, inst: &Inst, args: &[u32]) -> Result<Expr, Memory>
        ensures { IfOk result (λ e. expr_of e ≡ operation_text (scope_of self.now.context.now) (value_in_of (scope_of self.now.context.now) self.now.block deep) number inst.now args.now) }
    {
        let operands = self.arguments(deep, value_words(inst.op, args))?;
        let literals = literal_words(inst.op, args);
        let shape = self.context.basic_shape(inst.ty);
        let names = self.context.names();
        lower_vector(
            self.alloc, inst.op, number, shape, operands, literals, names,
        )
    }

    /// The type of the values of a scalar or vector type, where those of another are known.
    #[inline(always)]
    fn basic_like(&self, ty: u32, known: Known) -> BasicType
        requires { known.basic ≡ basic_in (scope_of self.now.context.now) known.ty }
        ensures { result ≡ basic_in (scope_of self.now.context.now) ty }
    {
        if ty == known.ty {
            known.basic
        } else {
            basic_type(&self.context.basic_shape(ty))
        }
    }

    /// An operation on two operands: their operator, where it is written with one.
    #[cycle(value)]
    #[inline(always)]
    fn on_two(&self, deep: u32, inst: &Inst, a: Id, b: Id) -> Result<Expr, Memory>
        ensures { IfOk result (λ e. expr_of e ≡ operation_text (scope_of self.now.context.now) (value_in_of (scope_of self.now.context.now) self.now.block deep) not_extended inst.now (a.0 ∷ b.0 ∷ [])) }
    {
        let ty = inst.ty;
        let basic = basic_type(&self.context.basic_shape(ty));
        match operator(inst.op, basic) {
            Some(by) => self.operated(deep, by, Known { ty, basic }, a, b),
            None => self.lowered(deep, NOT_EXTENDED, inst, &[a.0, b.0]),
        }
    }

    /// An operator over two operands, as a value of a type.
    #[cycle(value)]
    #[inline(always)]
    fn operated(&self, deep: u32, by: Operator, known: Known, a: Id, b: Id) -> Result<Expr, Memory>
        requires { known.basic ≡ basic_in (scope_of self.now.context.now) known.ty }
        ensures { IfOk result (λ e. expr_of e ≡ operated_on by known.basic (read_operand (scope_of self.now.context.now) (value_in_of (scope_of self.now.context.now) self.now.block deep) a.0) (read_operand (scope_of self.now.context.now) (value_in_of (scope_of self.now.context.now) self.now.block deep) b.0)) }
    {
        let left = self.operand_as(deep, by.elem, known, a)?;
        let right = if by.shifts {
            self.amount(deep, known, b)?
        } else {
            self.operand_as(deep, by.elem, known, b)?
        };
        by.over(self.alloc, known.basic, left, right)
    }

    /// A shift amount: the literal of a constant below 32, else taken modulo 32.
    #[cycle(value)]
    fn amount(&self, deep: u32, known: Known, id: Id) -> Result<Expr, Memory>
        requires { known.basic ≡ basic_in (scope_of self.now.context.now) known.ty }
        ensures { IfOk result (λ e. expr_of e ≡ shift_amount (read_operand (scope_of self.now.context.now) (value_in_of (scope_of self.now.context.now) self.now.block deep) id.0)) }
    {
        match self.context.word_at(id) {
            Some(word) if word < 32 => Ok(literal(Elem::Uint, word)),
            _ => {
                let of = self.operand_as(deep, Elem::Uint, known, id)?;
                modulo_32(self.alloc, of)
            }
        }
    }

    /// An operand as components of a type: the literal of a constant, else its value or a constructor.
    #[cycle(value)]
    fn operand_as(&self, deep: u32, elem: Elem, known: Known, id: Id) -> Result<Expr, Memory>
        requires { known.basic ≡ basic_in (scope_of self.now.context.now) known.ty }
        ensures { IfOk result (λ e. expr_of e ≡ as_elem elem (read_operand (scope_of self.now.context.now) (value_in_of (scope_of self.now.context.now) self.now.block deep) id.0)) }
    {
        match self.context.word_at(id) {
            Some(word) => Ok(literal(elem, word)),
            None => {
                let from = self.basic_like(self.context.type_of(id), known);
                let size = from.size;
                let of = self.value_in(deep, id)?;
                convert(self.alloc, BasicType { elem, size }, from.elem, of)
            }
        }
    }

    /// The operands of an operation on scalars and vectors.
    #[cycle(value)]
    #[inline(always)]
    fn arguments(&self, deep: u32, ids: &[u32]) -> Result<Vec<Arg>, Memory>
        ensures { IfOk result (λ args. map argument_of args.items ≡ map operand (map (argument_in (scope_of self.now.context.now) (value_in_of (scope_of self.now.context.now) self.now.block deep)) ids.now)) }
    {
        let mut args = Vec::with_capacity(self.alloc, ids.len())?;
        for id in ids {
            args.push(Arg {
                expr: self.value_in(deep, Id(*id))?,
                shape: self.context.basic_shape(self.context.type_of(Id(*id))),
                word: self.context.word_at(Id(*id)),
            })?;
        }
        Ok(args)
    }
}
