// What the types of a module are used for.
ghost use Rattle.std.specs.Prelude.{◌≡◌, ◌==◌, ◌++◌, ◌||◌, ℕ, ◌-◌, length, take, map, flat_map, filter_map, IfOk, OnOk};
ghost use Rattle.id_map.specs.Entries.{is_in as has_id};
ghost use Rattle.profile_rules.specs.Places.{is_among};
ghost use Rattle.profile_rules.specs.TypeForm.{parts_of as parts_in, pointee_by as pointee_of, pointees as pointees_in, signature, signature_types as signature_types_in, is_workgroup as is_workgroup_row, is_of_storage as is_of_storage_in, fixed_parts as fixed_parts_in};
ghost use Rattle.declaration_check.specs.Kept.{variables_of};
ghost use Rattle.declaration_check.specs.Classes.{is_in, AreMisuses};

use crate::context::Context;
use crate::variables::is_variable;
use id_map::IdSet;
use spv_module::{Function, Id, Inst};
use spv_ops::{Op, StorageClass};
use std::alloc::{AllocError, Global};

/// Sets of variables: all; those of class Workgroup; all but these; all but storage blocks; all but
/// blocks.
#[derive(Clone, Copy)]
pub enum Classes {
    Any,
    Workgroup,
    OtherThanWorkgroup,
    OtherThanStorage,
    OtherThanBlock,
}

fn is_workgroup(variable: &Inst) -> bool
    ensures { result ≡ is_workgroup_row variable.now }
{
    variable.operand(0) == StorageClass::Workgroup.number()
}

fn includes(context: &Context, classes: Classes, variable: &Inst) -> bool
    ensures { result ≡ is_in context.now classes variable.now }
{
    match classes {
        Classes::Any => true,
        Classes::Workgroup => is_workgroup(variable),
        Classes::OtherThanWorkgroup => !is_workgroup(variable),
        Classes::OtherThanStorage => !context.is_storage_block(variable),
        Classes::OtherThanBlock => !context.is_some_block(variable),
    }
}

/// The type that such a variable points to.
fn pointee_by(context: &Context, classes: Classes, inst: &Inst) -> Option<u32>
    ensures { result ≡ pointee_of context.now.globals (is_in context.now classes) inst.now }
{
    if is_variable(inst) && includes(context, classes, inst) {
        context.pointee(inst.ty)
    } else {
        None
    }
}

/// The types that such variables point to.
#[tactic(auto, using(crate::proofs::Finds::chosen_rules))]
fn pointees_of(alloc: Global, context: &Context, classes: Classes) -> Result<Vec<u32>, AllocError>
    ensures { IfOk result (λ ids. ids.items ≡ filter_map (pointee_of context.now.globals (is_in context.now classes)) (variables_of context.now)) }
{
    let mut ids = Vec::new(alloc);
    for inst in context.variables() {
        if let Some(id) = pointee_by(context, classes, *inst) {
            ids.push(id)?;
        }
    }
    Ok(ids)
}

/// The same, among all instructions.
#[tactic(auto, using(crate::proofs::Asked::pointees_same))]
pub fn pointees(alloc: Global, context: &Context, classes: Classes) -> Result<Vec<u32>, AllocError>
    ensures { IfOk result (λ ids. ids.items ≡ pointees_in context.now (is_in context.now classes)) }
{
    pointees_of(alloc, context, classes)
}

fn type_of_parameter(param: &(Id, Id)) -> u32
    ensures { result ≡ param.now.1.0 }
{
    param.1.0
}

fn add_parameters(ids: &mut Vec<u32>, params: &[(Id, Id)]) -> Result<(), AllocError>
    ensures { OnOk result (ids.new.items ≡ ids.old.items ++ map (λ p. p.1.0) params.now) }
{
    for param in params {
        ids.push(type_of_parameter(param))?;
    }
    Ok(())
}

fn add_signature(ids: &mut Vec<u32>, function: &Function) -> Result<(), AllocError>
    ensures { OnOk result (ids.new.items ≡ ids.old.items ++ signature function.now) }
{
    ids.push(function.result.0)?;
    add_parameters(ids, function.params.as_slice())?;
    Ok(())
}

/// The types of parameters and of the results of functions.
fn signature_types(alloc: Global, context: &Context) -> Result<Vec<u32>, AllocError>
    ensures { IfOk result (λ ids. ids.items ≡ signature_types_in context.now) }
{
    let mut ids = Vec::new(alloc);
    for function in context.functions() {
        add_signature(&mut ids, function)?;
    }
    Ok(ids)
}

/// The parts of an array or a struct.
#[tactic(auto, unfolding(spv_types::specs::Types::kind))]
pub fn parts_of(inst: &Inst) -> &[u32]
    ensures { result.now ≡ parts_in inst.now }
{
    let args = inst.args.as_slice();
    match inst.op {
        Op::TypeArray | Op::TypeRuntimeArray => first(args),
        Op::TypeStruct => args,
        _ => &[],
    }
}

fn first(ids: &[u32]) -> &[u32]
    ensures { result.now ≡ take 1 ids.now }
{
    if ids.is_empty() { ids } else { &ids[..1] }
}

/// The parts of all arrays and structs.
fn all_parts(alloc: Global, context: &Context) -> Result<Vec<u32>, AllocError>
    ensures { IfOk result (λ ids. ids.items ≡ flat_map parts_in context.now.globals) }
{
    let mut ids = Vec::new(alloc);
    for inst in context.globals() {
        ids.extend_from_slice(parts_of(inst))?;
    }
    Ok(ids)
}

/// Adds an id to a set. Most are there already.
fn add_id(set: &mut IdSet, id: u32) -> Result<(), AllocError>
    ensures { OnOk result ((other : ℕ) → has_id set.new other ≡ (has_id set.old other || (id == other))) }
{
    if set.has(id) {
        return Ok(());
    }
    set.insert(id)
}

/// Adds ids to a set.
pub fn add_ids(set: &mut IdSet, ids: &[u32]) -> Result<(), AllocError>
    ensures { OnOk result ((id : ℕ) → has_id set.new id ≡ (has_id set.old id || is_among ids.now id)) }
{
    for id in ids {
        add_id(set, *id)?;
    }
    Ok(())
}

pub fn set_of(alloc: Global, context: &Context, ids: &[u32]) -> Result<IdSet, AllocError>
    ensures { IfOk result (λ set. (id : ℕ) → has_id set id ≡ is_among ids.now id) }
{
    let mut set = IdSet::below(alloc, context.bound(), ids.len())?;
    add_ids(&mut set, ids)?;
    Ok(set)
}

/// All that is no use of a struct with Block or BufferBlock, where values have these types.
fn block_misuses(alloc: Global, context: &Context, types: &[u32]) -> Result<Vec<u32>, AllocError>
    ensures { IfOk result (λ ids. ids.items ≡ flat_map parts_in context.now.globals ++ pointees_in context.now (is_in context.now Classes.OtherThanBlock) ++ types.now ++ signature_types_in context.now) }
{
    let mut ids = all_parts(alloc, context)?;
    ids.extend_from_slice(&pointees(alloc, context, Classes::OtherThanBlock)?)?;
    ids.extend_from_slice(types)?;
    ids.extend_from_slice(&signature_types(alloc, context)?)?;
    Ok(ids)
}

/// Whether a struct has Block or BufferBlock, and each variable that points to it is a storage block,
/// where `others` are the types that other variables point to.
fn is_of_storage(context: &Context, others: &IdSet, inst: &Inst) -> bool
    requires { (id : ℕ) → has_id others.now id ≡ is_among (pointees_in context.now (is_in context.now Classes.OtherThanStorage)) id }
    ensures { result ≡ is_of_storage_in context.now inst.now }
{
    context.is_block(inst.result) && !others.has(inst.result)
}

/// The parts of a type that may be no runtime array.
fn fixed_parts<'a>(context: &Context, others: &IdSet, inst: &'a Inst) -> &'a [u32]
    requires { (id : ℕ) → has_id others.now id ≡ is_among (pointees_in context.now (is_in context.now Classes.OtherThanStorage)) id }
    ensures { result.now ≡ fixed_parts_in context.now inst.now }
{
    if inst.op == Op::TypeStruct && is_of_storage(context, others, inst) {
        all_but_last(inst.args.as_slice())
    } else {
        parts_of(inst)
    }
}

fn all_but_last(ids: &[u32]) -> &[u32]
    ensures { result.now ≡ take (length ids.now - 1) ids.now }
{
    if ids.is_empty() {
        ids
    } else {
        &ids[..ids.len() - 1]
    }
}

/// The parts of all types that may be no runtime array.
fn all_fixed_parts(alloc: Global, context: &Context, others: &IdSet) -> Result<Vec<u32>, AllocError>
    requires { (id : ℕ) → has_id others.now id ≡ is_among (pointees_in context.now (is_in context.now Classes.OtherThanStorage)) id }
    ensures { IfOk result (λ ids. ids.items ≡ flat_map (fixed_parts_in context.now) context.now.globals) }
{
    let mut ids = Vec::new(alloc);
    for inst in context.globals() {
        ids.extend_from_slice(fixed_parts(context, others, inst))?;
    }
    Ok(ids)
}

/// All that is no use of a runtime array, where values have these types.
fn runtime_misuses(alloc: Global, context: &Context, types: &[u32]) -> Result<Vec<u32>, AllocError>
    ensures { IfOk result (λ ids. ids.items ≡ flat_map (fixed_parts_in context.now) context.now.globals ++ pointees_in context.now (is_in context.now Classes.Any) ++ types.now ++ signature_types_in context.now) }
{
    let others = set_of(
        alloc,
        context,
        &pointees(alloc, context, Classes::OtherThanStorage)?,
    )?;
    let mut ids = all_fixed_parts(alloc, context, &others)?;
    ids.extend_from_slice(&pointees(alloc, context, Classes::Any)?)?;
    ids.extend_from_slice(types)?;
    ids.extend_from_slice(&signature_types(alloc, context)?)?;
    Ok(ids)
}

/// The ids of the types that are used as no struct with Block or BufferBlock may be, and as no runtime array may be.
#[derive(Drop)]
pub struct Misuses {
    pub blocks: IdSet,
    pub runtimes: IdSet,
}

/// How types are used that may be structs of blocks or runtime arrays.
pub fn find_misuses(alloc: Global, context: &Context) -> Result<Misuses, AllocError>
    ensures { IfOk result (λ uses. AreMisuses context.now (has_id uses.blocks) (has_id uses.runtimes)) }
{
    let types = context.types_of_values();
    let blocks = block_misuses(alloc, context, types)?;
    let runtimes = runtime_misuses(alloc, context, types)?;
    Ok(Misuses {
        blocks: set_of(alloc, context, &blocks)?,
        runtimes: set_of(alloc, context, &runtimes)?,
    })
}
