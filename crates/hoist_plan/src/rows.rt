// A walk over the results of a function, with where they are mentioned.
ghost use Rattle.std.specs.Prelude.{◌≡◌, ◌==◌, not, ◌+◌, ◌*◌, ◌++◌, [], ◌∷◌, IfOk, OnOk, fold, length, map, sum_by};
ghost use Rattle.hoist_plan.specs.Plan.{mentions_of, nothing, results_of_block, results as results_in, with_result};
ghost use Rattle.hoist_plan.specs.Kept.{chains_among, chains_of, chains_of_block, known_in, placed, placed_chain, result_in, steps_of, AreRising};

use crate::forms::{Forms, add_form};
use crate::mentioned::Mentioned;
use crate::row::{Chain, Row};
use id_map::Span;
use spv_index::Locals;
use spv_module::{Block, Id, Inst, Module};
use spv_words::Memory;
use std::alloc::{AllocError, Global};
use std::sync::ledger::Ledger;
use use_chains::{SlotPlace, Steps, Uses};

/// What is told of the results so far: their forms, and those that are chains. The places serve each result in turn.
#[derive(Drop)]
pub struct Told {
    pub forms: Forms,
    pub chains: Vec<Chain>,
    places: Vec<SlotPlace>,
}

/// Lists where the linked slots of an id stand, in text order, in place of what was listed.
fn list_mentions<L: Ledger>(
    places: &mut Vec<SlotPlace>,
    uses: &Uses,
    id: Id,
    steps: &mut Steps<L>,
) -> Result<(), Memory>
    requires { AreRising uses.now }
    ensures places { OnOk result (places.new.items ≡ mentions_of uses.now id.0) }
    ensures steps { OnOk result (steps.new ≡ steps.old + (2 * length (mentions_of uses.now id.0) + 1)) }
{
    places.clear();
    let mut at = uses.walk(id, None, steps);
    while let Some(slot) = at {
        places.push(uses.place(slot, steps))?;
        at = uses.walk(id, at, steps);
    }
    Ok(())
}

fn has_result(row: Row) -> bool
    ensures { result ≡ not (row.result == 0) }
{
    row.result != 0
}

/// Adds a result where it is a chain.
fn add_chain(
    alloc: Global,
    chains: &mut Vec<Chain>,
    row: Row,
    places: &[SlotPlace],
) -> Result<(), AllocError>
    ensures { OnOk result (map placed_chain chains.new.items ≡ map placed_chain chains.old.items ++ chains_among (placed places.now row ∷ [])) }
{
    if !row.op.is_chain() {
        return Ok(());
    }
    let mentions = Mentioned::of(alloc, places)?;
    chains.push(Chain { row, mentions })?;
    Ok(())
}

/// The span of the results of blocks.
fn ids_of(blocks: &[Block]) -> Span {
    let mut ids = Span::new();
    for block in blocks {
        for inst in block.insts.as_slice() {
            ids.add(inst.result);
        }
    }
    ids
}

/// Nothing is told, with room for the results of blocks.
fn none_for(alloc: Global, blocks: &[Block]) -> Result<Told, AllocError>
    ensures known { IfOk result (λ told. known_in told.forms ≡ nothing) }
    ensures chains { IfOk result (λ told. told.chains.items ≡ []) }
{
    Ok(Told {
        forms: Forms::spanning(alloc, ids_of(blocks))?,
        chains: Vec::new(alloc),
        places: Vec::new(alloc),
    })
}

/// A function of a module, with where its values are mentioned.
#[derive(Clone, Copy)]
pub struct Linked<'w, 'f> {
    pub alloc: Global,
    pub module: &'w Module,
    pub locals: &'w Locals<'f>,
    pub uses: &'w Uses,
}

impl<'w, 'f> Linked<'w, 'f> {
    /// Adds a result, unless its id is 0.
    fn add_result<L: Ledger>(
        &self,
        told: &mut Told,
        row: Row,
        steps: &mut Steps<L>,
    ) -> Result<(), Memory>
        requires { AreRising self.now.uses.now }
        ensures known { OnOk result (known_in told.new.forms ≡ fold (with_result self.now.«module».now.globals self.now.locals.now) (known_in told.old.forms) (result_in self.now.uses.now row)) }
        ensures chains { OnOk result (map placed_chain told.new.chains.items ≡ map placed_chain told.old.chains.items ++ chains_among (result_in self.now.uses.now row)) }
        ensures steps { OnOk result (steps.new ≡ steps.old + sum_by steps_of (result_in self.now.uses.now row)) }
    {
        if !has_result(row) {
            return Ok(());
        }
        list_mentions(&mut told.places, self.uses, Id(row.result), steps)?;
        add_form(
            &mut told.forms,
            self.module,
            self.locals,
            &row,
            &told.places,
        )?;
        add_chain(self.alloc, &mut told.chains, row, &told.places)?;
        Ok(())
    }

    /// Adds the results of the block at a place.
    fn add_results_of_block<L: Ledger>(
        &self,
        told: &mut Told,
        place: usize,
        block: &Block,
        steps: &mut Steps<L>,
    ) -> Result<(), Memory>
        requires { AreRising self.now.uses.now }
        ensures known { OnOk result (known_in told.new.forms ≡ fold (with_result self.now.«module».now.globals self.now.locals.now) (known_in told.old.forms) (results_of_block self.now.uses.now (place, block.now))) }
        ensures chains { OnOk result (map placed_chain told.new.chains.items ≡ map placed_chain told.old.chains.items ++ chains_of_block self.now.uses.now (place, block.now)) }
        ensures steps { OnOk result (steps.new ≡ steps.old + sum_by steps_of (results_of_block self.now.uses.now (place, block.now))) }
    {
        for inst in block.insts.as_slice() {
            let row = Row {
                block: place,
                op: inst.op,
                ty: inst.ty,
                result: inst.result,
            };
            self.add_result(told, row, steps)?;
        }
        Ok(())
    }
    /// The forms of the results of the function, and those that are chains, in text order.
    pub fn results<L: Ledger>(&self, steps: &mut Steps<L>) -> Result<Told, Memory>
        requires { AreRising self.now.uses.now }
        ensures known { IfOk result (λ told. known_in told.forms ≡ fold (with_result self.now.«module».now.globals self.now.locals.now) nothing (results_in self.now.uses.now self.now.locals.now)) }
        ensures chains { IfOk result (λ told. map placed_chain told.chains.items ≡ chains_of self.now.uses.now self.now.locals.now) }
        ensures steps { OnOk result (steps.new ≡ steps.old + sum_by steps_of (results_in self.now.uses.now self.now.locals.now)) }
    {
        let blocks = self.locals.function().blocks.as_slice();
        let mut told = none_for(self.alloc, blocks)?;
        for (place, block) in blocks.iter().enumerate() {
            self.add_results_of_block(&mut told, place, block, steps)?;
        }
        Ok(told)
    }
}
