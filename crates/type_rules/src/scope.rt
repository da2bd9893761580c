// Types, and the types of values, as an instruction sees them.
ghost use Rattle.std.specs.Prelude.{◌≡◌, not, Some, None, if◌then◌else◌};
ghost use Rattle.std.specs.Option.{option_copied};
ghost use Rattle.spv_ops.specs.Opcode.{is};
ghost use Rattle.spv_module.specs.Held.{global};
ghost use Rattle.spv_decor.specs.Rows.{word};
ghost use Rattle.spv_index.specs.Pointers.{pointee, storage_class};
ghost use Rattle.spv_index.specs.ValueTypes.{is_no_value_type};
ghost use Rattle.profile_rules.specs.NumberRules.{pointee_of};
ghost use Rattle.profile_rules.specs.TypeRows.{type_row, fails, is_void, is_uint, differ, value_fails, is_other, is_vector, component, size, constant_word as constant_word_of};
ghost use Rattle.type_rules.specs.Scopes.{types, scalars, scalars_of, outside, inside};

use crate::index::ModuleIndex;
use spv_index::{Locals, constant_word, global_type, pointer, type_in};
use spv_module::{Id, Inst};
use spv_ops::Op;
use std::marker::Model;

/// The number of scalars of a kind in a type that is made of none.
pub const NO_SCALAR: u32 = 0;

/// A module, and the function in which ids are looked up, if any. Contracts see both.
#[derive(Drop)]
pub struct Scope<'a, 'b> {
    index: &'a ModuleIndex<'a>,
    locals: Option<&'a Locals<'b>>,
}

impl<'a, 'b> Model for Scope<'a, 'b> {
    ghost use Rattle.std.specs.Option.{option_copied};
    ghost use Rattle.type_rules.specs.Scopes.{Scoped};

    ghost Value = { Scoped };

    ghost view = { λ s. record { m = s.index.now; function = option_copied s.locals } };
}

/// Operand k of a vector type.
#[inline(always)]
fn vector_word(row: &Inst, k: usize) -> Option<u32>
    ensures { result ≡ (if is_vector row.now then Some (word row.now k) else None) }
{
    if row.op == Op::TypeVector {
        Some(row.operand(k))
    } else {
        None
    }
}

impl<'a, 'b> Scope<'a, 'b> {
    /// Outside functions.
    pub fn outside(index: &'a ModuleIndex<'a>) -> Scope<'a, 'b>
        ensures { result ≡ outside index.now }
    {
        Scope {
            index,
            locals: None,
        }
    }

    /// In a function.
    pub fn inside(index: &'a ModuleIndex<'a>, locals: &'a Locals<'b>) -> Scope<'a, 'b>
        ensures { result ≡ inside index.now locals.now }
    {
        Scope {
            index,
            locals: Some(locals),
        }
    }

    /// The module.
    pub fn index(&self) -> &'a ModuleIndex<'a>
        ensures { result.now ≡ self.now.m }
    {
        self.index
    }

    /// What the function defines.
    pub fn locals(&self) -> Option<&'a Locals<'b>>
        ensures { option_copied result ≡ self.now.function }
    {
        self.locals
    }

    /// The global with this id.
    pub fn global(&self, id: u32) -> Option<&'a Inst>
        ensures { option_copied result ≡ global self.now.m.globals id }
    {
        self.index.module().global(Id(id))
    }

    /// Whether this is a type, but no value type.
    pub fn is_no_value_type(&self, ty: u32) -> bool
        ensures { result ≡ is_no_value_type self.now.m.heads self.now.m.globals ty }
    {
        self.index.is_no_value_type(ty)
    }

    /// The type with this id.
    pub fn type_row(&self, id: u32) -> Option<&'a Inst>
        ensures { option_copied result ≡ type_row self.now.m.globals id }
    {
        let inst = self.global(id)?;
        if inst.op.is_type() { Some(inst) } else { None }
    }

    /// The type of the value with this id.
    #[inline(always)]
    pub fn type_of(&self, id: u32) -> Option<u32>
        ensures { result ≡ types self.now id }
    {
        match self.locals {
            None => global_type(self.index.module(), id),
            Some(locals) => type_in(self.index.module(), locals, id),
        }
    }

    /// Whether a type is not declared by this opcode.
    pub fn fails(&self, op: Op, ty: u32) -> bool
        ensures { result ≡ fails (λ g. is g.op op) self.now.m.globals ty }
    {
        self.type_row(ty).map_or(false, |row| row.op != op)
    }

    /// Whether a type is OpTypeVoid.
    pub fn is_void(&self, ty: u32) -> bool
        ensures { result ≡ fails (λ g. not (is_void g)) self.now.m.globals ty }
    {
        self.type_row(ty)
            .map_or(false, |row| row.op == Op::TypeVoid)
    }

    /// Whether a type is not a 32-bit integer without a sign.
    pub fn is_no_uint(&self, ty: u32) -> bool
        ensures { result ≡ fails is_uint self.now.m.globals ty }
    {
        self.type_row(ty).map_or(false, |row| !row.is_uint())
    }

    /// Whether these are two types, and not the same. Most ids that are asked about are the same.
    #[tactic(auto, using(crate::proofs::Needed::last_first))]
    pub fn differ(&self, a: u32, b: u32) -> bool
        ensures { result ≡ differ self.now.m.globals a b }
    {
        a != b && self.type_row(a).is_some() && self.type_row(b).is_some()
    }

    /// Whether a value's type is not declared by this opcode.
    #[inline(always)]
    pub fn value_fails(&self, op: Op, id: u32) -> bool
        ensures { result ≡ value_fails (λ g. is g.op op) self.now.m.globals (types self.now) id }
    {
        match self.type_of(id) {
            Some(ty) => self.fails(op, ty),
            None => false,
        }
    }

    /// Whether a value is of another type than this.
    #[inline(always)]
    pub fn is_other(&self, ty: u32, id: u32) -> bool
        ensures { result ≡ is_other self.now.m.globals (types self.now) ty id }
    {
        match self.type_of(id) {
            Some(other) => self.differ(ty, other),
            None => false,
        }
    }

    /// The component type of a vector type.
    pub fn component(&self, ty: u32) -> Option<u32>
        ensures { result ≡ component self.now.m.globals ty }
    {
        vector_word(self.type_row(ty)?, 0)
    }

    /// The number of components of a vector type.
    pub fn size(&self, ty: u32) -> Option<u32>
        ensures { result ≡ size self.now.m.globals ty }
    {
        vector_word(self.type_row(ty)?, 1)
    }

    /// How many scalars that this opcode declares a scalar or vector type is made of, and `NO_SCALAR`
    /// of every other type.
    #[inline(always)]
    pub fn count(&self, op: Op, ty: u32) -> Option<u32>
        ensures { result ≡ scalars op self.now ty }
    {
        let row = self.type_row(ty)?;
        if row.op == Op::TypeVector {
            let part = self.type_row(row.operand(0))?;
            Some(if part.op == op {
                row.operand(1)
            } else {
                NO_SCALAR
            })
        } else {
            Some(u32::from(row.op == op))
        }
    }

    /// The same of a value's type.
    #[inline(always)]
    pub fn count_of(&self, op: Op, id: u32) -> Option<u32>
        ensures { result ≡ scalars_of op self.now id }
    {
        self.count(op, self.type_of(id)?)
    }

    /// The type to which a pointer type points.
    pub fn pointee(&self, ty: u32) -> Option<u32>
        ensures { result ≡ pointee self.now.m.globals ty }
    {
        match pointer(self.index.module(), Id(ty)) {
            Some(pointer) => Some(pointer.pointee.0),
            None => None,
        }
    }

    /// The storage class of a pointer type.
    pub fn storage_class(&self, ty: u32) -> Option<u32>
        ensures { result ≡ storage_class self.now.m.globals ty }
    {
        match pointer(self.index.module(), Id(ty)) {
            Some(pointer) => Some(pointer.class),
            None => None,
        }
    }

    /// The type to which a value points.
    #[inline(always)]
    pub fn pointee_of(&self, id: u32) -> Option<u32>
        ensures { result ≡ pointee_of self.now.m.globals (types self.now) id }
    {
        self.pointee(self.type_of(id)?)
    }

    /// The word of an OpConstant.
    pub fn constant_word(&self, id: u32) -> Option<u32>
        ensures { result ≡ constant_word_of self.now.m.globals id }
    {
        constant_word(self.index.module(), id)
    }
}
