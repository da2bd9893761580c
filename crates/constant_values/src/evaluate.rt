// The values of all constants of a module.
ghost use Rattle.std.specs.Prelude.{◌≡◌, ◌≤◌, ℕ, IfOk, IfErr, OnOk, false, None, drop, map, slice_index_or, option_map, option_and_then, if◌then◌else◌};
ghost use Rattle.std.specs.BTreeMap.{get};
ghost use Rattle.std.specs.Ordering.{nat_cmp};
ghost use Rattle.spv_words.specs.Limit.{limit_number};
ghost use Rattle.spv_words.specs.declared.rule.Limit.TheVariants.{Leaves};
ghost use Rattle.spv_types.specs.View.{tree_of, value_of};
ghost use Rattle.spv_types.specs.Types.{type_tree, IsRight};
ghost use Rattle.spv_types.specs.Limits.{AreWithin, IsPassedBy};
ghost use Rattle.profile_rules.specs.TypeRules.{is_sound};
ghost use Rattle.profile_rules.specs.Leaves.{leaves_of_module};
ghost use Rattle.profile_rules.specs.Constants.{chosen_truth as chosen_truth_of, shaped_value as shaped_value_of, constant_value, constants, breaks_x3, breaks_x4};
ghost use Rattle.constant_values.specs.Held.{value_among, value_in, put_value, chosen_by};
ghost use Rattle.constant_values.specs.Refused.{IsCause};

use crate::fitting::fitting;
use crate::operate::{Values, calculated, composed, value_at};
use crate::zeros::zero_value;
use profile_rules::{ConstantKind, Given};
use spec_constants::{Overrides, check_leaves, check_overrides, givens, word_given};
use spv_decor::Decor;
use spv_module::{Id, Inst, Module, Shape, Value};
use spv_ops::Decoration;
use spv_types::{check_limits, shape};
use spv_words::{Fault, Memory};
use std::alloc::Global;
use std::collections::BTreeMap;
use std::marker::Model;
use type_rules::sound_globals;

/// A specialization: the word that each SpecId is given (SPIR-V 1.6, section 2.12).
pub type Special = BTreeMap<u32, u32>;

/// The values of the constants of a module. Contracts see the list of them with their ids.
#[derive(Drop)]
pub struct Constants {
    values: Values,
}

impl Model for Constants {
    ghost use Rattle.std.specs.Prelude.{ℕ, List};
    ghost use Rattle.std.specs.Coded.{coded_list, coded×, coded_ℕ};
    ghost use Rattle.spv_module.specs.declared.tree.Value.{Value as TheValue};
    ghost use Rattle.spv_module.specs.contracts.tree.Value as value_type;

    ghost Value = { List (ℕ × TheValue) };

    ghost coded = { coded_list (coded× coded_ℕ value_type.the_row.coded) };

    ghost view = { λ c. c.values.entries };
}

impl Constants {
    /// The value of the constant with this id: `None` exactly where the id is no constant, or its
    /// value is undefined, or it breaks a rule on types.
    pub fn get(&self, id: Id) -> Option<&Value>
        ensures { option_map (λ v. value_of v.now) result ≡ value_among self.now id.0 }
    {
        value_at(&self.values, id.0)
    }
}

fn chosen_truth(chosen: Option<u32>, default: bool) -> bool
    ensures { result ≡ chosen_truth_of chosen default }
{
    match chosen {
        None => default,
        Some(word) => word != 0,
    }
}

/// The word that a constant takes in place of its default: what its SpecId is given by the
/// overrides, or else by the specialization.
fn chosen_word(
    decor: &Decor,
    given: &BTreeMap<u32, Given>,
    special: &Special,
    id: u32,
) -> Option<u32>
    ensures { result ≡ chosen_by decor.now (get nat_cmp given.now) (get nat_cmp special.now) id }
{
    let spec_id = decor.value(Id(id), Decoration::SpecId.number())?;
    match given.get(&spec_id).copied() {
        None => special.get(&spec_id).copied(),
        Some(given) => Some(word_given(given)),
    }
}

fn after_first(words: &[u32]) -> &[u32]
    ensures { result.now ≡ drop 1 words.now }
{
    words.get(1..).unwrap_or(&[])
}

/// The value of a constant of this shape, from those of the constants before it.
#[tactic(auto, using(spv_types::proofs::Views::value_rows))]
fn shaped_value(
    alloc: Global,
    values: &Values,
    chosen: Option<u32>,
    inst: &Inst,
    shape: &Shape,
) -> Result<Option<Value>, Memory>
    ensures { IfOk result (λ v. option_map value_of v ≡ shaped_value_of (value_in values.now) chosen inst.now (tree_of shape.now)) }
{
    let args = inst.args.as_slice();
    let value = match ConstantKind::of(inst.op) {
        ConstantKind::True => Value::Bool(true),
        ConstantKind::False => Value::Bool(false),
        ConstantKind::Word => Value::Word(inst.operand(0)),
        ConstantKind::Composite => return composed(alloc, values, args, shape),
        ConstantKind::Zero => return zero_value(alloc, shape),
        ConstantKind::SpecTrue => Value::Bool(chosen_truth(chosen, true)),
        ConstantKind::SpecFalse => Value::Bool(chosen_truth(chosen, false)),
        ConstantKind::SpecWord => Value::Word(chosen.unwrap_or(inst.operand(0))),
        ConstantKind::Operation => {
            return calculated(alloc, values, inst.operand(0), after_first(args), shape);
        }
        ConstantKind::Other => return Ok(None),
    };
    Ok(fitting(shape, Some(value)))
}

/// The value of the constant that an instruction defines, from those of the constants before it.
fn value_of_constant(
    alloc: Global,
    module: &Module,
    values: &Values,
    chosen: Option<u32>,
    inst: &Inst,
) -> Result<Option<Value>, Fault>
    ensures value { IfOk result (λ v. option_map value_of v ≡ option_and_then (shaped_value_of (value_in values.now) chosen inst.now) (type_tree «module».now.globals inst.now.ty)) }
    ensures refused { IfErr result (IsRight «module».now.globals inst.now.ty) }
{
    match shape(alloc, module, Id(inst.ty))? {
        None => Ok(None),
        Some(shape) => Ok(shaped_value(alloc, values, chosen, inst, &shape)?),
    }
}

/// The same, where the constant breaks no rule on types; else there is none.
fn value_if_sound(
    alloc: Global,
    module: &Module,
    values: &Values,
    chosen: Option<u32>,
    inst: &Inst,
    is_sound: bool,
) -> Result<Option<Value>, Fault>
    ensures value { IfOk result (λ v. option_map value_of v ≡ (if is_sound then option_and_then (shaped_value_of (value_in values.now) chosen inst.now) (type_tree «module».now.globals inst.now.ty) else None)) }
    ensures refused { IfErr result (IsRight «module».now.globals inst.now.ty) }
{
    if is_sound {
        value_of_constant(alloc, module, values, chosen, inst)
    } else {
        Ok(None)
    }
}

fn is_marked(marks: &[bool], k: usize) -> bool
    ensures { result ≡ slice_index_or marks.now k false }
{
    marks.get(k).copied().unwrap_or(false)
}

fn forget(_: Option<Value>) {}

fn insert(values: &mut Values, id: u32, value: Value) -> Result<(), Memory>
    ensures { OnOk result ((q : ℕ) → value_in values.new q ≡ put_value (value_in values.old) id (Some (value_of value)) q) }
{
    forget(values.insert(id, value)?);
    Ok(())
}

/// Notes the value of the constant with this id, where there is one.
fn put(values: &mut Values, id: u32, value: Option<Value>) -> Result<(), Memory>
    ensures { OnOk result ((q : ℕ) → value_in values.new q ≡ put_value (value_in values.old) id (option_map value_of value) q) }
{
    match value {
        None => Ok(()),
        Some(value) => insert(values, id, value),
    }
}

/// The values of all constants, from what each SpecId is given.
#[tactic(auto, using(crate::proofs::Evaluation::type_passes))]
fn evaluated(
    alloc: Global,
    module: &Module,
    decor: &Decor,
    sound: &[bool],
    given: &BTreeMap<u32, Given>,
    special: &Special,
) -> Result<Values, Fault>
    requires { sound.now ≡ map (is_sound «module».now) «module».now.globals }
    ensures values { IfOk result (λ values. (id : ℕ) → value_in values id ≡ constant_value «module».now (chosen_by decor.now (get nat_cmp given.now) (get nat_cmp special.now)) id) }
    ensures refused { IfErr result (IsPassedBy «module».now.globals) }
{
    let mut values = BTreeMap::new(alloc);
    for (k, inst) in module.globals().iter().enumerate() {
        let chosen = chosen_word(decor, given, special, inst.result);
        let is_sound = is_marked(sound, k);
        let value = value_if_sound(alloc, module, &values, chosen, inst, is_sound)?;
        put(&mut values, inst.result, value)?;
    }
    Ok(values)
}

/// The values of all constants of a module, where overrides and a specialization give words to
/// specialization constants: a constant that has a SpecId takes its override's word, or else the
/// specialization's, or else its default; a truth value is true where the word is not 0. The others
/// follow by their operations (SPIR-V 1.6, "Constant-Creation Instructions"). A constant that breaks a
/// rule on types has no value.
///
/// Refused by X3 and X4 at word 0 where an override breaks them. There is a limit exactly where the
/// module is above it: a type is too deep or has too many parts (`Limit::Types`, `Limit::Parts`), or
/// the module has too many leaves (`Limit::Leaves`). No value is made before these are decided.
#[tactic(auto, using(crate::proofs::Evaluation::cause_rules))]
pub fn resolve(
    alloc: Global,
    module: &Module,
    decor: &Decor,
    overrides: &Overrides,
    special: &Special,
) -> Result<Constants, Fault>
    requires { decor.now ≡ «module».now.heads }
    ensures values { IfOk result (λ c. (id : ℕ) → value_among c id ≡ constants «module».now overrides.now.pairs.items (get nat_cmp special.now) id) }
    ensures fitting { OnOk result ((breaks_x3 «module».now overrides.now.pairs.items ≡ false) × (breaks_x4 «module».now overrides.now.pairs.items ≡ false)) }
    ensures within { OnOk result (AreWithin «module».now.globals × (leaves_of_module «module».now ≤ limit_number Leaves)) }
    ensures refused { IfErr result (IsCause «module».now overrides.now.pairs.items) }
{
    let pairs = overrides.pairs.as_slice();
    check_overrides(alloc, module, decor, pairs)?;
    check_limits(alloc, module)?;
    check_leaves(alloc, module)?;
    let given = givens(alloc, pairs)?;
    let sound = sound_globals(alloc, module)?;
    let values = evaluated(alloc, module, decor, &sound, &given, special)?;
    Ok(Constants { values })
}
