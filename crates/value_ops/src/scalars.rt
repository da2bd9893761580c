// Operations that work on each component of a vector, and on a scalar alike.
ghost use Rattle.std.specs.Prelude.{◌≡◌, IfOk, option_map, map};
ghost use Rattle.spv_types.specs.View.{value_of};
ghost use Rattle.spv_types.specs.Tree.{word, truth};
ghost use Rattle.op_semantics.specs.Component.{each_one, each_two, each_three, by_one, by_two, by_three, composite, clamp_scalar as clamp_scalar_of, chosen};
ghost use Rattle.value_ops.specs.References.{plain_values};
ghost use Rattle.value_ops.specs.Scalars.{one_scalar as one_scalar_of, two_scalars as two_scalars_of, three_values as three_values_of};

use crate::bits::{Sign, bit_field, bit_field_insert, clamp_word};
use crate::copies::copied;
use crate::outcome::Computed;
use op_semantics::{
    Binary, Clamp, Comparison, Logical, Unary, binary_word, compare_words, logical_truth,
    unary_word,
};
use spv_module::Value;
use spv_words::Memory;
use std::alloc::Global;

/// An operation on one scalar. A field has its offset and its count of bits.
#[derive(Clone, Copy)]
pub enum OneScalar {
    Unary(Unary),
    Not,
    Field(Sign, u32, u32),
}

/// An operation on two scalars. A field has its offset and its count of bits.
#[derive(Clone, Copy)]
pub enum TwoScalars {
    Binary(Binary),
    Comparison(Comparison),
    Logical(Logical),
    InsertField(u32, u32),
}

/// An operation on three values: a word between two bounds, or a choice between two values.
#[derive(Clone, Copy)]
pub enum ThreeValues {
    Clamp(Clamp),
    Choose,
}

#[tactic(auto, using(spv_types::proofs::Views::value_rows))]
fn one_word(op: OneScalar, a: u32) -> Option<Value>
    ensures { option_map value_of result ≡ one_scalar_of op (word a) }
{
    match op {
        OneScalar::Unary(op) => Some(Value::Word(unary_word(op, a))),
        OneScalar::Not => None,
        OneScalar::Field(sign, offset, count) => {
            Some(Value::Word(bit_field(sign, offset, count, a)?))
        }
    }
}

#[tactic(auto, using(spv_types::proofs::Views::value_rows))]
fn one_truth(op: OneScalar, a: bool) -> Option<Value>
    ensures { option_map value_of result ≡ one_scalar_of op (truth a) }
{
    match op {
        OneScalar::Not => Some(Value::Bool(!a)),
        OneScalar::Unary(_) | OneScalar::Field(_, _, _) => None,
    }
}

#[tactic(auto, using(spv_types::proofs::Views::value_rows, crate::proofs::Misfits::many_alone))]
fn one_scalar(op: OneScalar, a: &Value) -> Option<Value>
    ensures { option_map value_of result ≡ one_scalar_of op (value_of a.now) }
{
    match a {
        Value::Word(a) => one_word(op, *a),
        Value::Bool(a) => one_truth(op, *a),
        Value::Many(_) => None,
    }
}

#[tactic(auto, using(spv_types::proofs::Views::value_rows))]
fn two_words(op: TwoScalars, a: u32, b: u32) -> Option<Value>
    ensures { option_map value_of result ≡ two_scalars_of op (word a) (word b) }
{
    match op {
        TwoScalars::Binary(op) => Some(Value::Word(binary_word(op, a, b)?)),
        TwoScalars::Comparison(op) => Some(Value::Bool(compare_words(op, a, b))),
        TwoScalars::Logical(_) => None,
        TwoScalars::InsertField(offset, count) => {
            Some(Value::Word(bit_field_insert(offset, count, a, b)?))
        }
    }
}

#[tactic(auto, using(spv_types::proofs::Views::value_rows))]
fn two_truths(op: TwoScalars, a: bool, b: bool) -> Option<Value>
    ensures { option_map value_of result ≡ two_scalars_of op (truth a) (truth b) }
{
    match op {
        TwoScalars::Binary(_) | TwoScalars::Comparison(_) | TwoScalars::InsertField(_, _) => None,
        TwoScalars::Logical(op) => Some(Value::Bool(logical_truth(op, a, b))),
    }
}

#[tactic(auto, using(spv_types::proofs::Views::value_rows, crate::proofs::Misfits::two_rules))]
fn two_scalars(op: TwoScalars, a: &Value, b: &Value) -> Option<Value>
    ensures { option_map value_of result ≡ two_scalars_of op (value_of a.now) (value_of b.now) }
{
    match (a, b) {
        (Value::Word(a), Value::Word(b)) => two_words(op, *a, *b),
        (Value::Bool(a), Value::Bool(b)) => two_truths(op, *a, *b),
        _ => None,
    }
}

#[tactic(auto, using(spv_types::proofs::Views::value_rows))]
fn clamped_scalar(op: Clamp, a: &Value, low: &Value, high: &Value) -> Option<Value>
    ensures { option_map value_of result ≡ clamp_scalar_of op (value_of a.now) (value_of low.now) (value_of high.now) }
{
    match (a, low, high) {
        (Value::Word(a), Value::Word(low), Value::Word(high)) => {
            Some(Value::Word(clamp_word(op, *a, *low, *high)))
        }
        _ => None,
    }
}

/// The first or the second value; of what is no truth value there is none.
#[tactic(auto, using(spv_types::proofs::Views::value_rows))]
fn chosen_value(alloc: Global, choice: &Value, first: &Value, second: &Value) -> Computed
    ensures { IfOk result (λ v. option_map value_of v ≡ chosen (value_of choice.now) (value_of first.now) (value_of second.now)) }
{
    match choice {
        Value::Bool(true) => Ok(Some(copied(alloc, first)?)),
        Value::Bool(false) => Ok(Some(copied(alloc, second)?)),
        Value::Word(_) | Value::Many(_) => Ok(None),
    }
}

fn three_values(alloc: Global, op: ThreeValues, a: &Value, b: &Value, c: &Value) -> Computed
    ensures { IfOk result (λ v. option_map value_of v ≡ three_values_of op (value_of a.now) (value_of b.now) (value_of c.now)) }
{
    match op {
        ThreeValues::Clamp(op) => Ok(clamped_scalar(op, a, b, c)),
        ThreeValues::Choose => chosen_value(alloc, a, b, c),
    }
}

fn each_of_one(alloc: Global, op: OneScalar, values: &[Value]) -> Result<Option<Vec<Value>>, Memory>
    ensures { IfOk result (λ all. option_map plain_values all ≡ each_one (one_scalar_of op) (map value_of values.now)) }
{
    let mut results = Vec::new(alloc);
    for value in values {
        match one_scalar(op, value) {
            None => return Ok(None),
            Some(result) => results.push(result)?,
        }
    }
    Ok(Some(results))
}

#[tactic(auto, using(crate::proofs::Lists::short))]
fn each_of_two(
    alloc: Global,
    op: TwoScalars,
    firsts: &[Value],
    seconds: &[Value],
) -> Result<Option<Vec<Value>>, Memory>
    ensures { IfOk result (λ all. option_map plain_values all ≡ each_two (two_scalars_of op) (map value_of firsts.now) (map value_of seconds.now)) }
{
    if firsts.len() != seconds.len() {
        return Ok(None);
    }
    let mut results = Vec::new(alloc);
    for (i, first) in firsts.iter().enumerate() {
        match two_scalars(op, first, &seconds[i]) {
            None => return Ok(None),
            Some(result) => results.push(result)?,
        }
    }
    Ok(Some(results))
}

#[tactic(auto, using(crate::proofs::Lists::short_rules))]
fn each_of_three(
    alloc: Global,
    op: ThreeValues,
    firsts: &[Value],
    seconds: &[Value],
    thirds: &[Value],
) -> Result<Option<Vec<Value>>, Memory>
    ensures { IfOk result (λ all. option_map plain_values all ≡ each_three (three_values_of op) (map value_of firsts.now) (map value_of seconds.now) (map value_of thirds.now)) }
{
    if firsts.len() != seconds.len() {
        return Ok(None);
    }
    if seconds.len() != thirds.len() {
        return Ok(None);
    }
    let mut results = Vec::new(alloc);
    for (i, first) in firsts.iter().enumerate() {
        match three_values(alloc, op, first, &seconds[i], &thirds[i])? {
            None => return Ok(None),
            Some(result) => results.push(result)?,
        }
    }
    Ok(Some(results))
}

#[tactic(auto, using(spv_types::proofs::Views::value_rows))]
fn vector_of(components: Option<Vec<Value>>) -> Option<Value>
    ensures { option_map value_of result ≡ option_map composite (option_map plain_values components) }
{
    Some(Value::Many(components?))
}

/// An operation on one operand: on a scalar, or on each component.
#[tactic(auto, using(spv_types::proofs::Views::value_rows, crate::proofs::Lists::one_sized))]
pub fn of_one_operand(alloc: Global, op: OneScalar, a: &Value) -> Computed
    ensures { IfOk result (λ v. option_map value_of v ≡ by_one (one_scalar_of op) (value_of a.now)) }
{
    match a {
        Value::Many(values) => Ok(vector_of(each_of_one(alloc, op, values)?)),
        Value::Bool(_) | Value::Word(_) => Ok(one_scalar(op, a)),
    }
}

/// An operation on two operands: on scalars, or on each two components.
#[tactic(auto, using(spv_types::proofs::Views::value_rows, crate::proofs::Lists::two_sized))]
pub fn of_two_operands(alloc: Global, op: TwoScalars, a: &Value, b: &Value) -> Computed
    ensures { IfOk result (λ v. option_map value_of v ≡ by_two (two_scalars_of op) (value_of a.now) (value_of b.now)) }
{
    match (a, b) {
        (Value::Many(firsts), Value::Many(seconds)) => {
            Ok(vector_of(each_of_two(alloc, op, firsts, seconds)?))
        }
        _ => Ok(two_scalars(op, a, b)),
    }
}

/// An operation on three operands: as they are, or on each three parts.
#[tactic(auto, using(spv_types::proofs::Views::value_rows, crate::proofs::Lists::three_sized))]
pub fn of_three_operands(
    alloc: Global,
    op: ThreeValues,
    a: &Value,
    b: &Value,
    c: &Value,
) -> Computed
    ensures { IfOk result (λ v. option_map value_of v ≡ by_three (three_values_of op) (value_of a.now) (value_of b.now) (value_of c.now)) }
{
    match (a, b, c) {
        (Value::Many(firsts), Value::Many(seconds), Value::Many(thirds)) => {
            Ok(vector_of(each_of_three(alloc, op, firsts, seconds, thirds)?))
        }
        _ => three_values(alloc, op, a, b, c),
    }
}
