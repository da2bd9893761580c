// The words of built-in variables.
ghost use Rattle.std.specs.Prelude.{◌≡◌, map, slice_get, Some};
ghost use Rattle.spv_types.specs.View.{value_of};
ghost use Rattle.group_items.specs.Sides.{word_in, triple_in};

use spv_module::Value;

fn word_of(value: &Value) -> u32
    ensures { result ≡ word_in (Some (value_of value.now)) }
{
    match value {
        Value::Word(word) => *word,
        _ => 0,
    }
}

/// The word of a built-in variable by its number, or 0.
pub fn word_at(values: &[Value], k: usize) -> u32
    ensures { result ≡ word_in (slice_get (map value_of values.now) k) }
{
    match values.get(k) {
        None => 0,
        Some(value) => word_of(value),
    }
}

#[tactic(auto, using(spv_types::proofs::Views::value_rows, crate::proofs::Lists::triple_listed))]
fn triple_of(value: &Value) -> (u32, u32, u32)
    ensures { result ≡ triple_in (Some (value_of value.now)) }
{
    match value {
        Value::Many(parts) => (word_at(parts, 0), word_at(parts, 1), word_at(parts, 2)),
        _ => (0, 0, 0),
    }
}

/// The three words of a built-in variable by its number, or 0.
pub fn triple_at(values: &[Value], k: usize) -> (u32, u32, u32)
    ensures { result ≡ triple_in (slice_get (map value_of values.now) k) }
{
    match values.get(k) {
        None => (0, 0, 0),
        Some(value) => triple_of(value),
    }
}
