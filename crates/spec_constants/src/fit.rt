// Whether the overrides fit the module's specialization constants.
ghost use Rattle.std.specs.Prelude.{◌≡◌, ◌==◌, ◌&&◌, ◌||◌, ℕ, IfOk, IfErr, OnOk, drop, not, false, option_and_then};
ghost use Rattle.std.specs.Option.{option_map_or};
ghost use Rattle.std.specs.List.{list_any};
ghost use Rattle.std.specs.BTreeMap.{get};
ghost use Rattle.std.specs.BTreeSet.{contains};
ghost use Rattle.std.specs.Ordering.{nat_cmp};
ghost use Rattle.profile_rules.specs.Constants.{spec_id as spec_id_in, is_scalar_specialization, has_spec_id, breaks_x3, breaks_x4, is_size_part, is_size_composite as is_size_composite_in, is_local_size_id as is_local_size_id_in, misfits_number as misfits_number_of, misfits_type as misfits_type_of, is_misfit as is_misfit_in};
ghost use Rattle.spec_constants.specs.Fit.{IsCause, IsRefusal};

use crate::given_words::{givens, word_given};
use profile_rules::Given;
use spv_decor::Decor;
use spv_module::{Id, Inst, Module};
use spv_ops::{BuiltIn, Decoration, ExecutionMode, Op};
use spv_words::{Fault, Memory, Refusal, Rule};
use std::alloc::{AllocError, Global};
use std::collections::{BTreeMap, BTreeSet};

/// OpSpecConstantTrue, OpSpecConstantFalse, OpSpecConstant.
fn is_scalar(op: Op) -> bool
    ensures { result ≡ is_scalar_specialization op }
{
    matches!(
        op,
        Op::SpecConstantTrue | Op::SpecConstantFalse | Op::SpecConstant
    )
}

/// The SpecId of a constant.
fn spec_id(decor: &Decor, inst: &Inst) -> Option<u32>
    ensures { result ≡ spec_id_in decor.now inst.now.result }
{
    decor.value(Id(inst.result), Decoration::SpecId.number())
}

/// The SpecIds of the specialization constants.
fn spec_ids(alloc: Global, module: &Module, decor: &Decor) -> Result<BTreeSet<u32>, Memory>
    ensures { IfOk result (λ ids. (id : ℕ) → contains nat_cmp ids id ≡ list_any (has_spec_id decor.now id) «module».now.globals) }
{
    let mut ids = BTreeSet::new(alloc);
    for inst in module.globals() {
        if is_scalar(inst.op) {
            if let Some(id) = spec_id(decor, inst) {
                ids.insert(id)?;
            }
        }
    }
    Ok(ids)
}

/// Whether an override's id is none of these.
fn any_other(ids: &BTreeSet<u32>, pairs: &[(u32, Given)]) -> bool
    ensures { result ≡ list_any (λ p. not (contains nat_cmp ids.now p.0)) pairs.now }
{
    pairs.iter().any(|pair| !ids.contains(&pair.0))
}

/// Whether this is a composite that is decorated WorkgroupSize.
fn is_size_composite(decor: &Decor, inst: &Inst) -> bool
    ensures { result ≡ is_size_composite_in decor.now inst.now }
{
    (inst.op == Op::ConstantComposite || inst.op == Op::SpecConstantComposite)
        && decor.value(Id(inst.result), Decoration::BuiltIn.number())
            == Some(BuiltIn::WorkgroupSize.number())
}

/// Whether this is an OpExecutionModeId of LocalSizeId.
fn is_local_size_id(inst: &Inst) -> bool
    ensures { result ≡ is_local_size_id_in inst.now }
{
    inst.op == Op::ExecutionModeId && inst.operand(1) == ExecutionMode::LocalSizeId.number()
}

fn add_words(ids: &mut BTreeSet<u32>, words: &[u32]) -> Result<(), AllocError>
    ensures { OnOk result ((id : ℕ) → contains nat_cmp ids.new id ≡ (contains nat_cmp ids.old id || list_any (λ part. part == id) words.now)) }
{
    for word in words {
        ids.insert(*word)?;
    }
    Ok(())
}

/// Adds the parts of the composites that are decorated WorkgroupSize.
fn add_composite_parts(
    ids: &mut BTreeSet<u32>,
    module: &Module,
    decor: &Decor,
) -> Result<(), AllocError>
    ensures { OnOk result ((id : ℕ) → contains nat_cmp ids.new id ≡ (contains nat_cmp ids.old id || list_any (λ g. is_size_composite_in decor.now g && list_any (λ part. part == id) g.args) «module».now.globals)) }
{
    for inst in module.globals() {
        if is_size_composite(decor, inst) {
            add_words(ids, inst.args.as_slice())?;
        }
    }
    Ok(())
}

/// Adds the parts of each LocalSizeId.
fn add_mode_parts(ids: &mut BTreeSet<u32>, module: &Module) -> Result<(), AllocError>
    ensures { OnOk result ((id : ℕ) → contains nat_cmp ids.new id ≡ (contains nat_cmp ids.old id || list_any (λ i. is_local_size_id_in i && list_any (λ part. part == id) (drop 2 i.args)) «module».now.heads)) }
{
    for inst in module.heads() {
        if is_local_size_id(inst) {
            add_words(ids, inst.args.as_slice().get(2..).unwrap_or(&[]))?;
        }
    }
    Ok(())
}

/// The ids of the parts of the size of a workgroup.
fn size_parts(alloc: Global, module: &Module, decor: &Decor) -> Result<BTreeSet<u32>, AllocError>
    requires { decor.now ≡ «module».now.heads }
    ensures { IfOk result (λ ids. (id : ℕ) → contains nat_cmp ids id ≡ is_size_part «module».now id) }
{
    let mut ids = BTreeSet::new(alloc);
    add_composite_parts(&mut ids, module, decor)?;
    add_mode_parts(&mut ids, module)?;
    Ok(ids)
}

/// Whether an override does not fit a number, which has a sign or not.
fn misfits_number(sign: u32, given: Given) -> bool
    ensures { result ≡ misfits_number_of sign given }
{
    match given {
        Given::Decimal(n) => sign == 1 && n >= 1 << 31,
        Given::Negative(n) => sign == 0 || n > 1 << 31,
        Given::Hex(_) => false,
    }
}

/// Whether an override does not fit a constant's type.
fn misfits_type(module: &Module, inst: &Inst, given: Given) -> bool
    ensures { result ≡ misfits_type_of «module».now.globals inst.now given }
{
    // the others are truth values
    if inst.op != Op::SpecConstant {
        return word_given(given) > 1;
    }
    match module.global(Id(inst.ty)) {
        None => false,
        Some(ty) => ty.op == Op::TypeInt && misfits_number(ty.operand(1), given),
    }
}

/// Whether an override does not fit a constant.
fn is_misfit(module: &Module, parts: &BTreeSet<u32>, inst: &Inst, given: Given) -> bool
    requires { (id : ℕ) → contains nat_cmp parts.now id ≡ is_size_part «module».now id }
    ensures { result ≡ is_misfit_in «module».now inst.now given }
{
    misfits_type(module, inst, given) || (word_given(given) == 0 && parts.contains(&inst.result))
}

/// What a scalar specialization constant is given by its SpecId.
fn given_for(decor: &Decor, given: &BTreeMap<u32, Given>, inst: &Inst) -> Option<Given>
    ensures { result ≡ option_and_then (get nat_cmp given.now) (spec_id_in decor.now inst.now.result) }
{
    let id = spec_id(decor, inst)?;
    given.get(&id).copied()
}

/// Whether a constant does not fit what its SpecId is given.
fn takes_misfit(
    module: &Module,
    decor: &Decor,
    parts: &BTreeSet<u32>,
    given: &BTreeMap<u32, Given>,
    inst: &Inst,
) -> bool
    requires { (id : ℕ) → contains nat_cmp parts.now id ≡ is_size_part «module».now id }
    ensures { result ≡ (is_scalar_specialization inst.now.op && option_map_or (is_misfit_in «module».now inst.now) (option_and_then (get nat_cmp given.now) (spec_id_in decor.now inst.now.result)) false) }
{
    is_scalar(inst.op)
        && match given_for(decor, given, inst) {
            None => false,
            Some(given) => is_misfit(module, parts, inst, given),
        }
}

/// Whether a constant does not fit what its SpecId is given.
fn has_misfit(
    alloc: Global,
    module: &Module,
    decor: &Decor,
    pairs: &[(u32, Given)],
) -> Result<bool, Memory>
    requires { decor.now ≡ «module».now.heads }
    ensures { IfOk result (λ misfit. misfit ≡ breaks_x4 «module».now pairs.now) }
{
    let parts = size_parts(alloc, module, decor)?;
    let given = givens(alloc, pairs)?;
    for inst in module.globals() {
        if takes_misfit(module, decor, &parts, &given, inst) {
            return Ok(true);
        }
    }
    Ok(false)
}

fn refused(rule: Rule) -> Fault
    ensures { IsRefusal rule result }
{
    Fault::Refused(Refusal { rule, at: 0 })
}

/// X3: an override's id is the SpecId of no constant. X4: an override does not fit its constant: a
/// bool takes 0 or 1, an integer what fits it, and a part of the size of a workgroup is not 0.
pub fn check_overrides(
    alloc: Global,
    module: &Module,
    decor: &Decor,
    pairs: &[(u32, Given)],
) -> Result<(), Fault>
    requires { decor.now ≡ «module».now.heads }
    ensures passes { OnOk result ((breaks_x3 «module».now pairs.now ≡ false) × (breaks_x4 «module».now pairs.now ≡ false)) }
    ensures refused { IfErr result (IsCause «module».now pairs.now) }
{
    let ids = spec_ids(alloc, module, decor)?;
    if any_other(&ids, pairs) {
        return Err(refused(Rule::X3));
    }
    if has_misfit(alloc, module, decor, pairs)? {
        return Err(refused(Rule::X4));
    }
    Ok(())
}
