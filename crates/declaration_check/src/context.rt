// A module with what is kept beside it so that questions about it are answered quickly.
ghost use Rattle.std.specs.Prelude.{◌≡◌, ℕ, IfOk, map};
ghost use Rattle.std.specs.Option.{option_copied};
ghost use Rattle.spv_module.specs.Held.{global};
ghost use Rattle.spv_decor.specs.Rows.{value_of};
ghost use Rattle.spv_index.specs.BlockStructs.{is_block as is_block_in, is_block_struct as is_block_struct_in, is_some_block as is_some_block_in, is_storage_block as is_storage_block_in};
ghost use Rattle.spv_index.specs.ValueTypes.{is_no_value_type};
ghost use Rattle.spv_index.specs.Pointers.{storage_class, pointee};
ghost use Rattle.profile_rules.specs.TypeRows.{type_row};
ghost use Rattle.profile_rules.specs.Places.{is_among, is_defined_elsewhere};
ghost use Rattle.profile_rules.specs.TypeForm.{value_types as value_types_in};
ghost use Rattle.declaration_check.specs.Kept.{inner_variables, variables_of};

use crate::elsewhere::defined_elsewhere;
use crate::rows::{Values, behind, values_of};
use id_map::IdSet;
use spv_decor::Decor;
use spv_index::{Pointer, ValueTypes, is_block, is_block_struct, is_storage_struct, pointer};
use spv_module::{Function, Id, Inst, Module};
use spv_words::Memory;
use std::alloc::Global;
use std::marker::Model;

/// A module with what is kept beside it. Contracts see the module.
#[derive(Drop)]
pub struct Context<'a> {
    module: &'a Module,
    decor: &'a Decor<'a>,
    variables: Vec<&'a Inst>,
    // how many of these stand outside functions
    outer: usize,
    types: Vec<u32>,
    elsewhere: IdSet,
    value_types: ValueTypes<'a>,
}

impl<'a> Model for Context<'a> {
    ghost use Rattle.std.specs.Prelude.{map};
    ghost use Rattle.id_map.specs.Entries.{is_in};
    ghost use Rattle.spv_module.specs.State.{ModuleState};
    ghost use Rattle.declaration_check.specs.Context.{IsContext};

    ghost Value = { ModuleState };

    ghost view = { λ c. c.«module».now };

    ghost invariant = { λ c. IsContext c.«module».now c.decor.now (map (λ i. i.now) c.variables.items) c.outer c.types.items (is_in c.elsewhere) c.value_types };
}

impl<'a> Context<'a> {
    /// What is asked of a module and its decorations. There is an error only for want of memory.
    pub fn of(
        alloc: Global,
        module: &'a Module,
        decor: &'a Decor<'a>,
    ) -> Result<Context<'a>, Memory>
        requires { decor.now ≡ «module».now.heads }
        ensures { IfOk result (λ context. context ≡ «module».now) }
    {
        let Values {
            variables,
            outer,
            types,
        } = values_of(alloc, module)?;
        Ok(Context {
            module,
            decor,
            variables,
            outer,
            types,
            elsewhere: defined_elsewhere(alloc, module)?,
            value_types: ValueTypes::of(alloc, module)?,
        })
    }

    /// The bound of the ids.
    pub fn bound(&self) -> u32
        ensures { result ≡ self.now.bound }
    {
        self.module.bound()
    }

    /// The head instructions and names.
    pub fn heads(&self) -> &'a [Inst]
        ensures { result.now ≡ self.now.heads }
    {
        self.module.heads()
    }

    /// The types, constants, global variables and undefined values.
    pub fn globals(&self) -> &'a [Inst]
        ensures { result.now ≡ self.now.globals }
    {
        self.module.globals()
    }

    /// The functions.
    pub fn functions(&self) -> &'a [Function]
        ensures { result.now ≡ self.now.functions }
    {
        self.module.functions()
    }

    /// The variables: those outside functions, and then those of the functions.
    pub fn variables(&self) -> &[&'a Inst]
        ensures { map (λ i. i.now) result.now ≡ variables_of self.now }
    {
        &self.variables
    }

    /// The variables of the functions.
    #[tactic(auto, using(crate::proofs::Finds::behind_front))]
    pub fn local_variables(&self) -> &[&'a Inst]
        ensures { map (λ i. i.now) result.now ≡ inner_variables self.now }
    {
        behind(&self.variables, self.outer)
    }

    /// The types of the constants, and of the values that are computed in functions.
    pub fn types_of_values(&self) -> &[u32]
        ensures { (id : ℕ) → is_among result.now id ≡ is_among (value_types_in self.now) id }
    {
        &self.types
    }

    /// The global instruction with this result.
    pub fn global(&self, id: u32) -> Option<&'a Inst>
        ensures { option_copied result ≡ global self.now.globals id }
    {
        self.module.global(Id(id))
    }

    /// The type with this id.
    pub fn type_row(&self, id: u32) -> Option<&'a Inst>
        ensures { option_copied result ≡ type_row self.now.globals id }
    {
        let inst = self.global(id)?;
        if inst.op.is_type() { Some(inst) } else { None }
    }

    /// The literal of an id's decoration, or 0 where the decoration has none.
    pub fn value(&self, id: u32, decoration: u32) -> Option<u32>
        ensures { result ≡ value_of self.now.heads id decoration }
    {
        self.decor.value(Id(id), decoration)
    }

    /// Whether the id is decorated Block or BufferBlock.
    pub fn is_block(&self, id: u32) -> bool
        ensures { result ≡ is_block_in self.now.heads id }
    {
        is_block(self.decor, Id(id))
    }

    /// Whether a variable of this class that points to this struct is a block.
    pub fn is_block_struct(&self, class: u32, id: u32) -> bool
        ensures { result ≡ is_block_struct_in self.now.heads class id }
    {
        is_block_struct(self.decor, class, Id(id))
    }

    /// Whether a variable is a block.
    pub fn is_some_block(&self, variable: &Inst) -> bool
        ensures { result ≡ is_some_block_in self.now.heads self.now.globals variable.now }
    {
        match self.pointee(variable.ty) {
            None => false,
            Some(id) => is_block_struct(self.decor, variable.operand(0), Id(id)),
        }
    }

    /// Whether it is a storage block.
    pub fn is_storage_block(&self, variable: &Inst) -> bool
        ensures { result ≡ is_storage_block_in self.now.heads self.now.globals variable.now }
    {
        match self.pointee(variable.ty) {
            None => false,
            Some(id) => is_storage_struct(self.decor, variable.operand(0), Id(id)),
        }
    }

    /// Whether the id is that of an import, or is defined in or by a function.
    pub fn is_defined_elsewhere(&self, id: u32) -> bool
        ensures { result ≡ is_defined_elsewhere self.now id }
    {
        self.elsewhere.has(id)
    }

    /// Whether the id is that of a type that is no value type.
    pub fn is_no_value_type(&self, id: u32) -> bool
        ensures { result ≡ is_no_value_type self.now.heads self.now.globals id }
    {
        self.value_types.is_other(id)
    }

    /// The storage class of a pointer type.
    pub fn storage_class(&self, ty: u32) -> Option<u32>
        ensures { result ≡ storage_class self.now.globals ty }
    {
        Some(pointer(self.module, Id(ty))?.class)
    }

    /// The type that a pointer type points to.
    pub fn pointee(&self, ty: u32) -> Option<u32>
        ensures { result ≡ pointee self.now.globals ty }
    {
        Some(pointer(self.module, Id(ty))?.pointee.0)
    }
}
