// A function, with what its calls need at each step.
ghost use Rattle.std.specs.Prelude.{◌≡◌, ◌==◌, ◌&&◌, ◌||◌, ℕ, IfOk, OnOk, IfSome};
ghost use Rattle.std.specs.List.{list_any};
ghost use Rattle.std.specs.BTreeMap.{get};
ghost use Rattle.std.specs.Ordering.{nat_cmp};
ghost use Rattle.id_map.specs.Entries.{is_in};
ghost use Rattle.spv_index.specs.Locals.{insts_of};
ghost use Rattle.run_flow.specs.Chains.{is_chain_on, is_base_in, IsBasedList, AreBased};
ghost use Rattle.run_flow.specs.Begun.{variables_among};

use crate::starts::variable_ids;
use id_map::{IdSet, Span};
use run_state::based_on;
use spv_index::Locals;
use spv_module::{Function, Inst};
use spv_words::Memory;
use std::alloc::{AllocError, Global};
use std::collections::BTreeMap;
use std::marker::Model;

/// For chains the ids of those that are based on them.
type Based = BTreeMap<u32, Vec<u32>>;

/// A function, with what its calls need at each step: what it defines, the ids of its variables, the bases of its chains, and for
/// each base that is a chain itself the chains that are based on it. Contracts see the function.
#[derive(Drop)]
pub struct Routine<'a> {
    locals: Locals<'a>,
    variables: Vec<u32>,
    bases: IdSet,
    based: Based,
}

impl<'a> Model for Routine<'a> {
    ghost use Rattle.std.specs.BTreeMap.{get};
    ghost use Rattle.std.specs.Ordering.{nat_cmp};
    ghost use Rattle.id_map.specs.Entries.{is_in};
    ghost use Rattle.spv_module.specs.declared.inst.Function.{Function};

    ghost Value = { Function };

    ghost use Rattle.run_flow.specs.Chains.{IsRoutine};

    ghost view = { λ r. r.locals };

    ghost invariant = { λ r. IsRoutine r.locals r.variables.items (is_in r.bases) (get nat_cmp r.based) };
}

/// Adds a base, if it is one of a chain.
fn add_if(bases: &mut IdSet, is_chain: bool, base: u32) -> Result<(), AllocError>
    ensures { OnOk result ((id : ℕ) → is_in bases.new id ≡ (is_in bases.old id || ((base == id) && is_chain))) }
{
    if is_chain {
        bases.insert(base)?;
    }
    Ok(())
}

fn add_base(bases: &mut IdSet, inst: &Inst) -> Result<(), AllocError>
    ensures { OnOk result ((id : ℕ) → is_in bases.new id ≡ (is_in bases.old id || is_chain_on id inst.now)) }
{
    add_if(bases, inst.op.is_chain(), inst.operand(0))
}

fn add_bases(bases: &mut IdSet, insts: &[Inst]) -> Result<(), AllocError>
    ensures { OnOk result ((id : ℕ) → is_in bases.new id ≡ (is_in bases.old id || list_any (is_chain_on id) insts.now)) }
{
    for inst in insts {
        add_base(bases, inst)?;
    }
    Ok(())
}

/// The bases of a function's chains.
fn bases_of(alloc: Global, function: &Function) -> Result<IdSet, AllocError>
    ensures { IfOk result (λ bases. (id : ℕ) → is_in bases id ≡ is_base_in function.now id) }
{
    let mut bases = IdSet::spanning(alloc, Span::new())?;
    for block in function.blocks.as_slice() {
        add_bases(&mut bases, block.insts.as_slice())?;
    }
    Ok(bases)
}

/// Whether it is a chain on which others are based, and not known yet.
fn is_asked(bases: &IdSet, known: &Based, inst: &Inst) -> bool {
    inst.op.is_chain() && bases.has(inst.result) && !known.contains_key(&inst.result)
}

fn add_based(
    alloc: Global,
    locals: &Locals<'_>,
    bases: &IdSet,
    known: &mut Based,
    insts: &[Inst],
) -> Result<(), Memory>
    requires { AreBased locals.now (get nat_cmp known.old) }
    ensures { OnOk result (AreBased locals.now (get nat_cmp known.new)) }
{
    for inst in insts {
        if is_asked(bases, known, inst) {
            let list = based_on(alloc, locals, inst.result)?;
            known.insert(inst.result, list)?;
        }
    }
    Ok(())
}

/// For each chain on which others are based, which are.
fn based_of(alloc: Global, locals: &Locals<'_>, bases: &IdSet) -> Result<Based, Memory>
    ensures { IfOk result (λ known. AreBased locals.now (get nat_cmp known)) }
{
    let mut known = BTreeMap::new(alloc);
    for block in locals.function().blocks.as_slice() {
        add_based(alloc, locals, bases, &mut known, block.insts.as_slice())?;
    }
    Ok(known)
}

/// The ids of the variables of a function.
fn variables_of(alloc: Global, function: &Function) -> Result<Vec<u32>, Memory>
    ensures { IfOk result (λ list. list.items ≡ variables_among (insts_of function.now)) }
{
    let mut list = Vec::new(alloc);
    for block in function.blocks.as_slice() {
        variable_ids(&mut list, block.insts.as_slice())?;
    }
    Ok(list)
}

impl<'a> Routine<'a> {
    /// A function with what its calls need. There is an error only for want of memory.
    pub fn of(alloc: Global, function: &'a Function) -> Result<Routine<'a>, Memory>
        ensures { IfOk result (λ r. r ≡ function.now) }
    {
        let locals = Locals::of(alloc, function)?;
        let bases = bases_of(alloc, function)?;
        let based = based_of(alloc, &locals, &bases)?;
        Ok(Routine {
            locals,
            variables: variables_of(alloc, function)?,
            bases,
            based,
        })
    }

    /// The function.
    pub fn function(&self) -> &'a Function
        ensures { result.now ≡ self.now }
    {
        self.locals.function()
    }

    /// What the function defines.
    pub fn locals(&self) -> &Locals<'a>
        ensures { result.now ≡ self.now }
    {
        &self.locals
    }

    /// The ids of the variables of the function.
    pub fn variables(&self) -> &[u32]
        ensures { result.now ≡ variables_among (insts_of self.now) }
    {
        self.variables.as_slice()
    }

    /// The chains that are based on a chain, directly or through others, where they are known. They are not known of an id on which
    /// chains are based and which is none itself.
    pub fn based_on(&self, chain: u32) -> Option<&[u32]>
        ensures { IfSome result (λ list. IsBasedList self.now chain list.now) }
    {
        if !self.bases.has(chain) {
            return Some(&[]);
        }
        match self.based.get(&chain) {
            None => None,
            Some(list) => Some(list.as_slice()),
        }
    }
}
