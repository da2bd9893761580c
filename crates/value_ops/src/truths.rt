// OpAny and OpAll.
ghost use Rattle.std.specs.Prelude.{◌≡◌, option_map, map};
ghost use Rattle.spv_types.specs.View.{value_of};
ghost use Rattle.op_semantics.specs.Component.{each_one};
ghost use Rattle.op_semantics.specs.Composite.{as_truth, over_truths};
ghost use Rattle.value_ops.specs.Quantity.{over as over_list, with_next as with_next_of, of_none as of_none_of};

use spv_module::Value;

/// How many of the components of a vector have to be true: one, or all.
#[derive(Clone, Copy)]
pub enum Quantity {
    Any,
    All,
}

#[tactic(auto, using(spv_types::proofs::Views::value_rows))]
fn truth_in(value: &Value) -> Option<bool>
    ensures { result ≡ as_truth (value_of value.now) }
{
    match value {
        Value::Bool(truth) => Some(*truth),
        Value::Word(_) | Value::Many(_) => None,
    }
}

/// Whether so many are true where there are none.
fn of_none(quantity: Quantity) -> bool
    ensures { result ≡ of_none_of quantity }
{
    match quantity {
        Quantity::Any => false,
        Quantity::All => true,
    }
}

/// Whether so many are true, from what is known of those before and from the next.
fn with_next(quantity: Quantity, known: bool, next: bool) -> bool
    ensures { result ≡ with_next_of quantity known next }
{
    match quantity {
        Quantity::Any => known || next,
        Quantity::All => known && next,
    }
}

/// Whether so many of these truth values are true; none where one is no truth value.
#[tactic(auto, using(crate::proofs::Quantified::over_rules))]
fn are_true(quantity: Quantity, values: &[Value]) -> Option<bool>
    ensures { result ≡ option_map (over_list quantity) (each_one as_truth (map value_of values.now)) }
{
    let mut known = of_none(quantity);
    for value in values {
        match truth_in(value) {
            None => return None,
            Some(next) => known = with_next(quantity, known, next),
        }
    }
    Some(known)
}

/// OpAny or OpAll.
#[tactic(auto, using(spv_types::proofs::Views::value_rows, crate::proofs::Quantified::over_values))]
pub fn quantified(quantity: Quantity, vector: &Value) -> Option<Value>
    ensures { option_map value_of result ≡ over_truths (over_list quantity) (value_of vector.now) }
{
    match vector {
        Value::Many(values) => Some(Value::Bool(are_true(quantity, values)?)),
        Value::Bool(_) | Value::Word(_) => None,
    }
}
