// Parts of composites: read, and put in the place of others.
ghost use Rattle.std.specs.Prelude.{◌≡◌, ◌∷◌, IfOk, Some, None, false, option_map, map, if◌then◌else◌};
ghost use Rattle.spv_types.specs.Tree.{many, values_in};
ghost use Rattle.spv_types.specs.View.{value_of};
ghost use Rattle.op_semantics.specs.Composite.{part_at as part_at_index, extracted, are_indexes as may_lead, extracted_by as extracted_by_literals, inserted_by as inserted_by_literals, inserted as inserted_value, extracted_at as extracted_at_value, inserted_at as inserted_at_value};

use crate::copies::copied;
use crate::outcome::Computed;
use spv_module::Value;
use spv_words::Memory;
use std::alloc::Global;

#[tactic(auto, using(crate::proofs::Paths::index_rules))]
fn nth_part(parts: &[Value], index: u32) -> Option<&Value>
    ensures { option_map (λ v. value_of v.now) result ≡ part_at_index (many (values_in (map value_of parts.now))) index }
{
    if (index as usize) < parts.len() {
        Some(&parts[index as usize])
    } else {
        None
    }
}

#[tactic(auto, using(spv_types::proofs::Views::value_rows))]
fn part_at(value: &Value, index: u32) -> Option<&Value>
    ensures { option_map (λ v. value_of v.now) result ≡ part_at_index (value_of value.now) index }
{
    match value {
        Value::Many(parts) => nth_part(parts, index),
        Value::Bool(_) | Value::Word(_) => None,
    }
}

/// The part that these indexes lead to; none where one of them leads past the parts.
#[tactic(auto, using(crate::proofs::Paths::extracted_rules))]
pub fn part_by<'a>(whole: &'a Value, indexes: &[u32]) -> Option<&'a Value>
    ensures { option_map (λ v. value_of v.now) result ≡ extracted indexes.now (value_of whole.now) }
{
    let mut part = whole;
    for index in indexes {
        match part_at(part, *index) {
            None => return None,
            Some(inner) => part = inner,
        }
    }
    Some(part)
}

/// Puts a value in the place of the part that these indexes lead to. Where they lead to none, the
/// answer is false, and nothing changes.
#[cycle(putting)]
#[tactic(auto, using(spv_types::proofs::Views::value_rows))]
pub fn put_part(whole: &mut Value, indexes: &[u32], part: Value) -> bool
    ensures done { (if result then Some (value_of whole.new) else None) ≡ inserted_value (value_of part) indexes.now (value_of whole.old) }
    ensures kept { result ≡ false → value_of whole.new ≡ value_of whole.old }
{
    match indexes {
        [] => {
            *whole = part;
            true
        }
        [index, rest @ ..] => match whole {
            Value::Many(parts) => put_below(parts, *index, rest, part),
            Value::Bool(_) | Value::Word(_) => false,
        },
    }
}

#[cycle(putting)]
fn put_below(parts: &mut Vec<Value>, index: u32, rest: &[u32], part: Value) -> bool
    ensures done { (if result then Some (many (values_in (map value_of parts.new.items))) else None) ≡ inserted_value (value_of part) (index ∷ rest.now) (many (values_in (map value_of parts.old.items))) }
    ensures kept { result ≡ false → map value_of parts.new.items ≡ map value_of parts.old.items }
{
    match parts.get_mut(index as usize) {
        None => false,
        Some(inner) => put_part(inner, rest, part),
    }
}

/// A copy of a value with another part where these indexes lead.
pub fn inserted(alloc: Global, whole: &Value, indexes: &[u32], part: &Value) -> Computed
    ensures { IfOk result (λ v. option_map value_of v ≡ inserted_value (value_of part.now) indexes.now (value_of whole.now)) }
{
    let mut copy = copied(alloc, whole)?;
    if put_part(&mut copy, indexes, copied(alloc, part)?) {
        Ok(Some(copy))
    } else {
        Ok(None)
    }
}

/// A copy of the part that these indexes lead to.
pub fn extracted_part(alloc: Global, indexes: &[u32], whole: &Value) -> Computed
    ensures { IfOk result (λ v. option_map value_of v ≡ extracted indexes.now (value_of whole.now)) }
{
    match part_by(whole, indexes) {
        None => Ok(None),
        Some(part) => Ok(Some(copied(alloc, part)?)),
    }
}

fn are_indexes(literals: &[u32]) -> bool
    ensures { result ≡ may_lead literals.now }
{
    literals.iter().all(|literal| *literal < 1 << 31)
}

/// OpCompositeExtract; there is no value where a literal has its top bit set.
pub fn extracted_by(alloc: Global, literals: &[u32], whole: &Value) -> Computed
    ensures { IfOk result (λ v. option_map value_of v ≡ extracted_by_literals literals.now (value_of whole.now)) }
{
    if !are_indexes(literals) {
        return Ok(None);
    }
    extracted_part(alloc, literals, whole)
}

/// OpCompositeInsert; there is no value where a literal has its top bit set.
pub fn inserted_by(alloc: Global, whole: &Value, literals: &[u32], part: &Value) -> Computed
    ensures { IfOk result (λ v. option_map value_of v ≡ inserted_by_literals (value_of part.now) literals.now (value_of whole.now)) }
{
    if !are_indexes(literals) {
        return Ok(None);
    }
    inserted(alloc, whole, literals, part)
}

/// OpVectorExtractDynamic.
#[tactic(auto, using(spv_types::proofs::Views::value_rows, crate::proofs::Paths::single_rules))]
pub fn extracted_at(alloc: Global, whole: &Value, index: &Value) -> Computed
    ensures { IfOk result (λ v. option_map value_of v ≡ extracted_at_value (value_of whole.now) (value_of index.now)) }
{
    match index {
        Value::Word(index) => extracted_part(alloc, &[*index], whole),
        Value::Bool(_) | Value::Many(_) => Ok(None),
    }
}

/// OpVectorInsertDynamic.
#[tactic(auto, using(spv_types::proofs::Views::value_rows, crate::proofs::Paths::single_rules))]
pub fn inserted_at(alloc: Global, whole: &Value, part: &Value, index: &Value) -> Computed
    ensures { IfOk result (λ v. option_map value_of v ≡ inserted_at_value (value_of whole.now) (value_of part.now) (value_of index.now)) }
{
    match index {
        Value::Word(index) => inserted(alloc, whole, &[*index], part),
        Value::Bool(_) | Value::Many(_) => Ok(None),
    }
}
