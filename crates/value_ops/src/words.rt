// Values from words, and the words of values.
ghost use Rattle.std.specs.Prelude.{◌≡◌, ◌<◌, ◌++◌, ◌^◌, IfOk, OnOk, map, drop, replicate, slice_index};
ghost use Rattle.spv_types.specs.Tree.{values_in};
ghost use Rattle.spv_types.specs.View.{tree_of, trees_of, value_of};
ghost use Rattle.spv_types.specs.Leaves.{leaf_count, zero_of};
ghost use Rattle.value_words.specs.Words.{value_from as value_from_words, values_from, parts_from as parts_from_words, elem_from as elem_from_word, words_of, words_of_all};

use spv_module::{Elem, Length, Shape, Value};
use spv_types::{leaves, zero};
use spv_words::Memory;
use std::alloc::Global;

/// The scalar that a word is read as.
#[tactic(auto, using(spv_types::proofs::Views::value_rows))]
fn elem_from(elem: Elem, word: u32) -> Value
    ensures { value_of result ≡ elem_from_word elem word }
{
    match elem {
        Elem::Bool => Value::Bool(word != 0),
        Elem::Int | Elem::Uint => Value::Word(word),
    }
}

fn first_word(words: &[u32]) -> u32
    ensures { result ≡ slice_index words.now 0 }
{
    words.first().copied().unwrap_or(0)
}

fn elems_from(alloc: Global, elem: Elem, words: &[u32]) -> Result<Vec<Value>, Memory>
    ensures { IfOk result (λ values. map value_of values.items ≡ map (elem_from_word elem) words.now) }
{
    let mut values = Vec::new(alloc);
    for word in words {
        values.push(elem_from(elem, *word))?;
    }
    Ok(values)
}

/// The words behind those of a value of this shape.
#[tactic(auto, using(crate::proofs::Streams::drop_capped))]
fn behind<'a>(shape: &Shape, words: &'a [u32]) -> &'a [u32]
    ensures { result.now ≡ drop (leaf_count (tree_of shape.now)) words.now }
{
    words
        .get(leaves(shape, words.len() as u64) as usize..)
        .unwrap_or(&[])
}

/// The value of this shape whose scalars in order these words are: a truth value is true where its
/// word is not 0. A runtime array, and one whose length is a specialization constant, has no parts.
/// A scalar for which no word is left is false or 0, and a vector has no more components than there
/// are words. There is an error only for want of memory.
#[cycle(reading)]
#[tactic(auto, using(spv_types::proofs::Views::shape_rows, spv_types::proofs::Views::value_rows))]
pub fn value_from(alloc: Global, shape: &Shape, words: &[u32]) -> Result<Value, Memory>
    ensures { IfOk result (λ v. value_of v ≡ value_from_words (tree_of shape.now) words.now) }
{
    Ok(match shape {
        Shape::Bool => elem_from(Elem::Bool, first_word(words)),
        Shape::Int | Shape::Uint => elem_from(Elem::Uint, first_word(words)),
        Shape::Vector(elem, size) => {
            let words = &words[..words.len().min(*size as usize)];
            Value::Many(elems_from(alloc, *elem, words)?)
        }
        Shape::Array(part, Length::Fixed(length)) => {
            Value::Many(parts_from(alloc, part, *length, words)?)
        }
        Shape::Array(_, Length::Spec(_)) | Shape::Runtime(_) => Value::Many(Vec::new(alloc)),
        Shape::Struct(_, members) => Value::Many(members_from(alloc, members, words)?),
    })
}

#[cycle(reading)]
#[tactic(auto, using(crate::proofs::Streams::part_rules))]
fn parts_from(alloc: Global, part: &Shape, length: u32, words: &[u32]) -> Result<Vec<Value>, Memory>
    ensures { IfOk result (λ values. map value_of values.items ≡ parts_from_words (value_from_words (tree_of part.now)) (leaf_count (tree_of part.now)) length words.now) }
{
    let mut values = Vec::new(alloc);
    let mut rest = words;
    for _ in 0..length {
        values.push(value_from(alloc, part, rest)?)?;
        rest = behind(part, rest);
    }
    Ok(values)
}

#[cycle(reading)]
#[tactic(auto, using(crate::proofs::Streams::member_rules, spv_types::proofs::Heads::member_smaller))]
fn members_from(alloc: Global, members: &[Shape], words: &[u32]) -> Result<Vec<Value>, Memory>
    ensures { IfOk result (λ values. values_in (map value_of values.items) ≡ values_from (trees_of members.now) words.now) }
{
    let mut values = Vec::new(alloc);
    let mut rest = words;
    for member in members {
        values.push(value_from(alloc, member, rest)?)?;
        rest = behind(member, rest);
    }
    Ok(values)
}

/// Adds the words of a value: its scalars in order, a truth value as 1 or 0. There is an error only
/// for want of memory.
#[cycle(writing)]
#[tactic(auto, using(spv_types::proofs::Views::value_rows))]
pub fn add_words(value: &Value, words: &mut Vec<u32>) -> Result<(), Memory>
    ensures { OnOk result (words.new.items ≡ words.old.items ++ words_of (value_of value.now)) }
{
    match value {
        Value::Bool(truth) => words.push(u32::from(*truth))?,
        Value::Word(word) => words.push(*word)?,
        Value::Many(values) => add_all_words(values, words)?,
    }
    Ok(())
}

#[cycle(writing)]
#[tactic(auto, using(crate::proofs::Streams::word_rules, crate::proofs::Values::value_smaller))]
fn add_all_words(values: &[Value], words: &mut Vec<u32>) -> Result<(), Memory>
    ensures { OnOk result (words.new.items ≡ words.old.items ++ words_of_all (values_in (map value_of values.now))) }
{
    for value in values {
        add_words(value, words)?;
    }
    Ok(())
}

/// So many words that are 0: fewer than 2^63, since none has room for more.
fn zero_words(alloc: Global, count: u64) -> Result<Vec<u32>, Memory>
    ensures zeros { IfOk result (λ words. words.items ≡ replicate count 0) }
    ensures few { OnOk result (count < 2 ^ 63) }
{
    let mut words = Vec::new(alloc);
    for _ in 0..count {
        words.push(0)?;
    }
    Ok(words)
}

/// The zero of a shape with parts, from words that are 0: one for each scalar, or else more than any
/// memory has room for.
#[tactic(auto, using(crate::proofs::Streams::zero_rules))]
fn composite_zero(alloc: Global, shape: &Shape) -> Result<Value, Memory>
    ensures { IfOk result (λ v. value_of v ≡ zero_of (tree_of shape.now)) }
{
    let words = zero_words(alloc, leaves(shape, u64::MAX))?;
    value_from(alloc, shape, &words)
}

/// The value of a shape that is false and 0 everywhere. A runtime array, and one whose length is a
/// specialization constant, has no parts. There is an error only for want of memory.
#[tactic(auto, using(spv_types::proofs::Views::shape_rows))]
pub fn zero_value(alloc: Global, shape: &Shape) -> Result<Value, Memory>
    ensures { IfOk result (λ v. value_of v ≡ zero_of (tree_of shape.now)) }
{
    match shape {
        Shape::Bool | Shape::Int | Shape::Uint | Shape::Vector(_, _) => zero(alloc, shape),
        Shape::Array(_, _) | Shape::Runtime(_) | Shape::Struct(_, _) => {
            composite_zero(alloc, shape)
        }
    }
}
