// Copies of values.
ghost use Rattle.std.specs.Prelude.{◌≡◌, IfOk, map, option_map};
ghost use Rattle.spv_types.specs.View.{value_of};
ghost use Rattle.op_semantics.specs.Component.{composite};
ghost use Rattle.value_ops.specs.References.{referred, plain_references};

use crate::outcome::Computed;
use spv_module::Value;
use spv_words::Memory;
use std::alloc::Global;

/// A copy of a value. There is an error only for want of memory.
#[cycle(copying)]
#[tactic(auto, using(spv_types::proofs::Views::value_rows))]
pub fn copied(alloc: Global, value: &Value) -> Result<Value, Memory>
    ensures { IfOk result (λ copy. value_of copy ≡ value_of value.now) }
{
    Ok(match value {
        Value::Bool(truth) => Value::Bool(*truth),
        Value::Word(word) => Value::Word(*word),
        Value::Many(values) => Value::Many(all_copied(alloc, values)?),
    })
}

/// Copies of values. There is an error only for want of memory.
#[cycle(copying)]
#[tactic(auto, using(crate::proofs::Values::value_smaller))]
pub fn all_copied(alloc: Global, values: &[Value]) -> Result<Vec<Value>, Memory>
    ensures { IfOk result (λ copies. map value_of copies.items ≡ map value_of values.now) }
{
    let mut copies = Vec::new(alloc);
    for value in values {
        copies.push(copied(alloc, value)?)?;
    }
    Ok(copies)
}

/// Copies of values that stand apart.
pub fn copied_from(alloc: Global, parts: &[&Value]) -> Result<Vec<Value>, Memory>
    ensures { IfOk result (λ copies. map value_of copies.items ≡ referred parts.now) }
{
    let mut copies = Vec::new(alloc);
    for part in parts {
        copies.push(copied(alloc, part)?)?;
    }
    Ok(copies)
}

/// The composite of copies of these parts, where there are parts.
#[tactic(auto, using(spv_types::proofs::Views::value_rows))]
pub fn composite_of(alloc: Global, parts: Option<Vec<&Value>>) -> Computed
    ensures { IfOk result (λ v. option_map value_of v ≡ option_map composite (option_map plain_references parts.entry)) }
{
    match parts {
        None => Ok(None),
        Some(parts) => Ok(Some(Value::Many(copied_from(alloc, &parts)?))),
    }
}
