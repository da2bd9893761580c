// What of a module is written.
ghost use Rattle.std.specs.Prelude.{◌≡◌, IfOk};
ghost use Rattle.text_rules.specs.Printed.{is_written_variable, is_declared_constant, is_written_struct};
ghost use Rattle.text_items.specs.State.{reached_of};

use crate::Live;
use crate::needed::{declares, is_written, needed};
use crate::operands::{count_insts, operand_ids};
use crate::structs::structs_of;
use crate::types::written_types;
use constant_text::Readings;
use id_map::IdSet;
use spv_decor::Decor;
use spv_index::is_block;
use spv_module::{Function, Id, Inst, Module};
use spv_ops::Op;
use spv_words::Memory;
use std::alloc::Global;
use std::marker::Model;

/// What of a module is written into its text: variables, named constants and structs (GLSL 4.60, chapter 4). Contracts see the
/// source of the readings, the functions that are written, and what is told of their live instructions.
#[derive(Drop)]
pub struct Written<'a, 'b> {
    readings: &'a Readings<'b>,
    functions: &'a [&'b Function],
    live: &'a Live,
    inst_count: usize,
    // the operands in the functions; the constants that the text needs; the structs of what is written
    operand_ids: IdSet,
    needed: IdSet,
    structs: IdSet,
}

impl<'a, 'b> Model for Written<'a, 'b> {
    ghost use Rattle.text_items.specs.State.{WrittenState};

    ghost Value = { WrittenState };

    ghost use Rattle.text_items.specs.State.{reached_of, IsHeld};

    ghost view = { λ w. record { source = w.readings.now; reached = reached_of w.functions.now w.live.now } };

    ghost invariant = { λ w. IsHeld w.readings.now (reached_of w.functions.now w.live.now) w.operand_ids w.needed w.structs };
}

impl<'a, 'b> Written<'a, 'b> {
    /// What is written of a module, where calls reach these functions from the entry, and this is told of their live instructions.
    /// There is an error only for want of memory.
    pub fn of(
        alloc: Global,
        readings: &'a Readings<'b>,
        functions: &'a [&'b Function],
        live: &'a Live,
    ) -> Result<Written<'a, 'b>, Memory>
        ensures { IfOk result (λ w. w ≡ record { source = readings.now; reached = reached_of functions.now live.now }) }
    {
        let inst_count = count_insts(functions);
        let operand_ids = operand_ids(alloc, readings, functions, inst_count)?;
        let needed = needed(alloc, readings, &operand_ids, live.mentions.as_slice())?;
        let live_types = live.types.as_slice();
        let types = written_types(
            alloc,
            readings,
            &operand_ids,
            &needed,
            functions,
            live_types,
        )?;
        let structs = structs_of(alloc, readings.module(), types.as_slice())?;
        Ok(Written {
            readings,
            functions,
            live,
            inst_count,
            operand_ids,
            needed,
            structs,
        })
    }

    pub(crate) fn readings(&self) -> &'a Readings<'b>
        ensures { result.now ≡ self.now.source }
    {
        self.readings
    }

    pub(crate) fn decor(&self) -> &'b Decor<'b>
        ensures { result.now ≡ self.now.source.of.heads }
    {
        self.readings.decor()
    }

    /// The function of the entry point.
    pub(crate) fn entry(&self) -> Id
        ensures { result.0 ≡ self.now.source.entry }
    {
        self.readings.entry()
    }

    pub(crate) fn module(&self) -> &'b Module
        ensures { result.now ≡ self.now.source.of }
    {
        self.readings.module()
    }

    /// How many instructions the functions have.
    pub(crate) fn inst_count(&self) -> usize {
        self.inst_count
    }

    /// Whether a global instruction is a variable that is written: one that is an operand in a function, and that is not built in.
    pub fn has_variable(&self, inst: &Inst) -> bool
        ensures { result ≡ is_written_variable self.now.reached inst.now }
    {
        is_written(&self.operand_ids, inst)
    }

    /// Whether a global instruction is a constant that is declared: one with a SpecId that is not overridden, or one without a
    /// literal that a live instruction mentions, or that is the length of an array, or an operand of a Private variable or of another
    /// such constant.
    pub fn has_constant(&self, inst: &Inst) -> bool
        ensures { result ≡ is_declared_constant self.now.source self.now.reached inst.now }
    {
        declares(self.readings, &self.needed, inst)
    }

    /// Whether a global instruction is a struct that is written: one that something written has, with neither Block nor
    /// BufferBlock.
    pub fn has_struct(&self, inst: &Inst) -> bool
        ensures { result ≡ is_written_struct self.now.source self.now.reached inst.now }
    {
        inst.op == Op::TypeStruct
            && !is_block(self.decor(), Id(inst.result))
            && self.structs.has(inst.result)
    }
}
