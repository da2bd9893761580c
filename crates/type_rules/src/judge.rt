// What the instructions of a module are judged by.
ghost use Rattle.std.specs.Prelude.{◌≡◌, ◌||◌, true, Some, IfOk, is_some};
ghost use Rattle.spv_index.specs.Locals.{block_in};
ghost use Rattle.profile_rules.specs.TypeRules.{is_value_broken as is_value_at_fault, is_number_broken as is_number_at_fault};
ghost use Rattle.type_rules.specs.Scopes.{types, outside, inside};
ghost use Rattle.type_rules.specs.Judging.{stood};

use crate::dispatch::{is_number_broken, is_value_broken};
use crate::edges::Edges;
use crate::index::ModuleIndex;
use crate::matching::Known;
use crate::scope::Scope;
use spv_index::Locals;
use spv_module::{Block, Inst};
use spv_ops::OpGroup;
use spv_words::Memory;
use std::alloc::{AllocError, Global};
use std::collections::BTreeMap;
use std::marker::Model;

/// Where ids are looked up, with what is known so far: the answers for pairs of types, and the edges of the
/// function once something asks for them. Contracts see where ids are looked up.
#[derive(Drop)]
pub struct Judge<'a, 'b> {
    alloc: Global,
    scope: Scope<'a, 'b>,
    known: Known,
    edges: Option<Edges<'b>>,
}

impl<'a, 'b> Model for Judge<'a, 'b> {
    ghost use Rattle.type_rules.specs.Scopes.{Scoped};
    ghost use Rattle.type_rules.specs.Judging.{IsJudge};

    ghost Value = { Scoped };

    ghost view = { λ j. j.scope };

    ghost invariant = { λ j. IsJudge j.scope j.known j.edges };
}

impl<'a, 'b> Judge<'a, 'b> {
    /// A judge of what stands outside functions.
    pub fn of(alloc: Global, index: &'a ModuleIndex<'a>) -> Judge<'a, 'b>
        ensures { result ≡ outside index.now }
    {
        Judge {
            alloc,
            scope: Scope::outside(index),
            known: BTreeMap::new(alloc),
            edges: None,
        }
    }

    /// From now on ids are looked up in a function.
    pub fn enter(&mut self, locals: &'a Locals<'b>)
        ensures { self.new ≡ inside self.old.m locals.now }
    {
        self.scope = Scope::inside(self.scope.index(), locals);
        self.edges = None;
    }

    pub fn alloc(&self) -> Global {
        self.alloc
    }

    /// Where ids are looked up.
    pub fn scope(&self) -> &Scope<'a, 'b>
        ensures { result.now ≡ self.now }
    {
        &self.scope
    }

    /// T2 to T20, and T25.
    #[inline(always)]
    pub fn is_broken(&mut self, inst: &Inst, group: OpGroup) -> Result<bool, Memory>
        ensures value { IfOk result (λ b. b ≡ (is_value_at_fault self.old.m (types self.old) inst.now group || is_number_at_fault self.old.m.globals (types self.old) inst.now group)) }
        ensures same { self.new ≡ self.old }
    {
        Ok(
            is_value_broken(&mut self.known, &self.scope, inst, group)?
                || is_number_broken(&self.scope, inst, group),
        )
    }

    /// The edges of the function, which `put_edges` gives back.
    pub fn take_edges(&mut self, locals: &Locals<'b>) -> Result<Edges<'b>, AllocError>
        requires { self.old.function ≡ Some locals.now }
        ensures value { IfOk result (λ e. e ≡ locals.now) }
        ensures same { self.new ≡ self.old }
    {
        match self.edges.take() {
            Some(edges) => Ok(edges),
            None => Edges::of(self.alloc, locals),
        }
    }

    /// Keeps the edges for when they are asked for again.
    pub fn put_edges(&mut self, edges: Edges<'b>)
        requires { self.old.function ≡ Some edges }
        ensures { self.new ≡ self.old }
    {
        self.edges = Some(edges);
    }
}

/// A block of a function. Contracts see both.
#[derive(Drop)]
pub struct InBlock<'f, 'b> {
    locals: &'f Locals<'b>,
    block: &'f Block,
}

impl<'f, 'b> Model for InBlock<'f, 'b> {
    ghost use Rattle.std.specs.Prelude.{◌≡◌, true, is_some};
    ghost use Rattle.spv_index.specs.Locals.{block_in};
    ghost use Rattle.type_rules.specs.Judging.{Stood, stood};

    ghost Value = { Stood };

    ghost view = { λ i. stood i.locals.now i.block.now };

    ghost invariant = { λ i. is_some (block_in i.locals.now i.block.now.label.0) ≡ true };
}

impl<'f, 'b> InBlock<'f, 'b> {
    /// A block that is found by its label.
    pub fn of(locals: &'f Locals<'b>, block: &'f Block) -> InBlock<'f, 'b>
        requires { is_some (block_in locals.now block.now.label.0) ≡ true }
        ensures { result ≡ stood locals.now block.now }
    {
        InBlock { locals, block }
    }

    /// What the function defines.
    pub fn locals(&self) -> &'f Locals<'b>
        ensures { result.now ≡ self.now.function }
    {
        self.locals
    }

    pub fn block(&self) -> &'f Block
        ensures block { result.now ≡ self.now.block }
        ensures known { is_some (block_in self.now.function self.now.block.label.0) ≡ true }
    {
        self.block
    }
}
