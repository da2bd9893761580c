// The memory of a module as a run sees it.
ghost use Rattle.std.specs.Prelude.{◌≡◌, map, IfOk, IfSome, option_map};
ghost use Rattle.std.specs.Option.{option_copied};
ghost use Rattle.spv_types.specs.Types.{type_tree};
ghost use Rattle.spv_types.specs.View.{tree_of, value_of};
ghost use Rattle.few_law.specs.Few.{HasFewMembers};
ghost use Rattle.group_items.specs.Events.{location_of, locations_of};
ghost use Rattle.group_items.specs.Sides.{bytes_in, told_of, IsWhole};
ghost use Rattle.traces.specs.Invocations.{Invocation};
ghost use Rattle.module_semantics.specs.Accesses as accesses;
ghost use Rattle.module_semantics.specs.Memory as memory;
ghost use Rattle.module_semantics.specs.Run as runs;
ghost use Rattle.module_semantics.specs.Setting as settings;
ghost use Rattle.module_semantics.specs.State as state;
ghost use Rattle.memory_places.specs.Bases.{base_of, built_in_of};
ghost use Rattle.memory_places.specs.Capped.{capped};
ghost use Rattle.memory_places.specs.Conditions.{CanRun};
ghost use Rattle.memory_places.specs.Kernel.{bare_from, kernel, setting_for, ForEach};
ghost use Rattle.memory_places.specs.Leaves.{places_with};
ghost use Rattle.memory_places.specs.Starts.{start_of};

use crate::bases::{Base, place_at};
use crate::leaves::places_of;
use crate::located::{base_by, elements, part_along};
use crate::mentions::mentioned_ids;
use crate::shared::{number, shared_places};
use crate::starts::{Start, are_fine, class_of, initial, shape_of};
use crate::types::{are_allowed, literal};
use crate::variables::{
    global_variable, initial_in, initial_private, seen, shape_along, value_of_built_in,
};
use constant_values::Constants;
use group_items::{Invocation as Told, LeafPlace};
use spv_decor::Decor;
use spv_index::{Locals, Places};
use spv_module::{Id, Inst, Module, Shape, Value};
use spv_ops::{BuiltIn, Decoration, StorageClass};
use spv_words::Memory;
use std::alloc::Global;
use std::marker::Model;

/// The variables of a module, where their scalars lie and what they begin with, from an entry and under values of constants. Contracts see the
/// module, the entry and the values.
#[derive(Drop)]
pub struct MemoryMap<'a> {
    source: &'a Module,
    decor: &'a Decor<'a>,
    constants: &'a Constants,
    entry: Id,
    // the places of the Workgroup variables among those that are mentioned
    shared: Places,
    // whether each Private variable that is mentioned has a value at the start
    fine: bool,
}

impl<'a> Model for MemoryMap<'a> {
    ghost use Rattle.memory_places.specs.Kernel.{Kernel, kernel};
    ghost use Rattle.memory_places.specs.Held.{IsHeld};
    ghost use Rattle.id_map.specs.Entries.{id_place};
    ghost use Rattle.std.specs.Coded.{codes};
    ghost use Rattle.spv_module.specs.contracts.tree.Value as value_type;

    ghost Value = { Kernel };

    ghost coded = { Prim.hlevel (codes, value_type.the_row.coded) };

    ghost view = { λ m. kernel m.source.now m.entry.0 m.constants.now };

    ghost invariant = { λ m. IsHeld (kernel m.source.now m.entry.0 m.constants.now) m.decor.now (id_place m.shared) m.fine };
}

impl<'a> MemoryMap<'a> {
    /// The memory of a module that meets the profile within the limits. There is an error only for want of memory.
    pub fn new(
        alloc: Global,
        module: &'a Module,
        decor: &'a Decor<'a>,
        constants: &'a Constants,
        entry: Id,
    ) -> Result<MemoryMap<'a>, Memory>
        requires heads { decor.now ≡ «module».now.heads }
        requires fits { CanRun «module».now entry.0 }
        ensures { IfOk result (λ map. map ≡ kernel «module».now entry.0 constants.now) }
    {
        let mentioned = mentioned_ids(alloc, module, entry)?;
        let fine = are_fine(alloc, module, constants, &mentioned, entry.0)?;
        Ok(MemoryMap {
            source: module,
            decor,
            constants,
            entry,
            shared: shared_places(alloc, module, &mentioned, entry.0)?,
            fine,
        })
    }

    /// The module.
    pub fn module(&self) -> &'a Module
        ensures { result.now ≡ self.now.of }
    {
        self.source
    }

    /// The value of the constant with this id, and `None` exactly where it has none.
    pub fn constant(&self, id: u32) -> Option<&'a Value>
        ensures { ForEach self.now (λ s. option_map (λ v. value_of v.now) result ≡ s.constants id) }
    {
        self.constants.get(Id(id))
    }

    /// The variable of the module with this id, and `None` exactly where it has none.
    pub fn global_variable(&self, id: u32) -> Option<&'a Inst>
        ensures { ForEach self.now (λ s. option_copied result ≡ settings.global_variable s id) }
    {
        global_variable(self.source, id)
    }

    /// The variable of the module with this id, if other invocations see it.
    pub fn seen(&self, id: u32) -> Option<&'a Inst>
        ensures { ForEach self.now (λ s. option_copied result ≡ accesses.seen s (state.global id)) }
    {
        seen(self.source, id)
    }

    /// Whether a type allows indexes: each is below 2 ^ 31 and below the number of parts of the type to which those before it lead (SPIR-V 1.6,
    /// OpAccessChain, "Indexes").
    pub fn are_allowed(&self, ty: u32, indexes: &[u32]) -> bool
        ensures { ForEach self.now (λ s. result ≡ memory.are_allowed s ty indexes.now) }
    {
        are_allowed(self.source, self.constants, ty, indexes)
    }

    /// The shape of a type, where it has one.
    pub fn shape(&self, alloc: Global, ty: u32) -> Result<Option<Shape>, Memory>
        ensures { IfOk result (λ shape. option_map tree_of shape ≡ type_tree self.now.of.globals ty) }
    {
        shape_of(alloc, self.source, ty)
    }

    /// The shape of the part of a variable to which indexes lead, where it has one.
    pub fn shape_along(
        &self,
        alloc: Global,
        variable: &Inst,
        path: &[u32],
    ) -> Result<Option<Shape>, Memory>
        ensures shape { IfOk result (λ shape. ForEach self.now (λ s. option_map tree_of shape ≡ memory.shape_along s variable.now path.now)) }
        ensures few { IfOk result (λ shape. IfSome shape (λ t. HasFewMembers (tree_of t))) }
    {
        Ok(shape_along(alloc, self.source, variable, path)?)
    }

    /// What the scalars of a variable lie in.
    fn base(&self, variable: &Inst) -> Base
        ensures { result ≡ base_of (bare_from self.now.of self.now.entry) variable.now }
    {
        let class = class_of(variable).unwrap_or(StorageClass::StorageBuffer);
        base_by(
            self.decor,
            number(&self.shared, variable.result),
            variable,
            class,
        )
    }

    /// The place of the scalar of a variable to which indexes lead. There is an error only for want of memory.
    pub fn location(
        &self,
        alloc: Global,
        variable: &Inst,
        path: &[u32],
    ) -> Result<LeafPlace, Memory>
        ensures { IfOk result (λ place. ForEach self.now (λ s. location_of place ≡ capped (memory.location s variable.now path.now))) }
    {
        let base = self.base(variable);
        let part = part_along(self.source, self.decor, variable, path);
        Ok(place_at(alloc, base, part.bytes, path)?)
    }

    /// The places of the scalars of the part of a variable to which indexes lead, in order, where it has this shape, whose structs have few
    /// members. There is an error only for want of memory.
    pub fn locations_in(
        &self,
        alloc: Global,
        variable: &Inst,
        path: &[u32],
        shape: &Shape,
    ) -> Result<Vec<LeafPlace>, Memory>
        requires { HasFewMembers (tree_of shape.now) }
        ensures { IfOk result (λ places. ForEach self.now (λ s. locations_of places.items ≡ map capped (places_with s variable.now path.now (tree_of shape.now)))) }
    {
        let base = self.base(variable);
        let part = part_along(self.source, self.decor, variable, path);
        Ok(places_of(alloc, self.source, self.decor, base, path, part, shape)?)
    }

    /// The same, of whatever shape it has; there are none where it has no shape.
    pub fn locations(
        &self,
        alloc: Global,
        variable: &Inst,
        path: &[u32],
    ) -> Result<Vec<LeafPlace>, Memory>
        ensures { IfOk result (λ places. ForEach self.now (λ s. locations_of places.items ≡ map capped (memory.locations s variable.now path.now))) }
    {
        match self.shape_along(alloc, variable, path)? {
            None => Ok(Vec::new(alloc)),
            Some(shape) => Ok(self.locations_in(alloc, variable, path, &shape)?),
        }
    }

    /// How many elements the runtime array has that is a member of a buffer's block, where buffers have these sizes: as many whole strides as
    /// there are bytes behind its offset (SPIR-V 1.6, OpArrayLength).
    pub fn elements(&self, sizes: &[(u32, u32, u32)], variable: &Inst, member: u32) -> u32
        ensures { (told : Invocation) → told.buffer_bytes ≡ bytes_in sizes.now → result ≡ memory.elements (setting_for self.now told) variable.now member }
    {
        elements(self.source, self.decor, sizes, variable, member)
    }

    /// What a variable begins with. There is an error only for want of memory.
    pub fn initial(&self, alloc: Global, variable: &Inst) -> Result<Start<'a>, Memory>
        ensures { IfOk result (λ start. ForEach self.now (λ s. start_of start ≡ accesses.initial s variable.now)) }
    {
        initial(alloc, self.source, self.constants, variable)
    }

    /// What a variable of a function begins with; nothing, where the function has no variable with this id.
    pub fn initial_in(&self, alloc: Global, locals: &Locals, id: u32) -> Result<Start<'a>, Memory>
        ensures { IfOk result (λ start. ForEach self.now (λ s. start_of start ≡ accesses.initial_in s locals.now id)) }
    {
        initial_in(alloc, self.source, self.constants, locals, id)
    }

    /// What a variable of the module begins with; nothing, where the module has no variable with this id.
    pub fn initial_private(&self, alloc: Global, id: u32) -> Result<Start<'a>, Memory>
        ensures { IfOk result (λ start. ForEach self.now (λ s. start_of start ≡ accesses.initial_private s id)) }
    {
        Ok(initial_private(alloc, self.source, self.constants, id)?)
    }

    /// The built-in variable that a variable is decorated as (SPIR-V 1.6, section 3.21).
    pub fn built_in(&self, variable: &Inst) -> Option<BuiltIn>
        ensures { ForEach self.now (λ s. result ≡ built_in_of s variable.now) }
    {
        BuiltIn::of(literal(self.decor, Decoration::BuiltIn, variable.result))
    }

    /// The value of a built-in variable, and `None` of another.
    pub fn input_value<'b>(&self, inv: &'b Told, variable: &Inst) -> Option<&'b Value>
        requires { IsWhole inv.now }
        ensures { option_map (λ v. value_of v.now) result ≡ accesses.input_value (setting_for self.now (told_of inv.now)) variable.now }
    {
        value_of_built_in(inv, self.built_in(variable))
    }

    /// Whether each Private variable that a reached function mentions has a value at the start.
    pub fn have_values(&self) -> bool
        ensures { ForEach self.now (λ s. result ≡ runs.have_values s) }
    {
        self.fine
    }
}
