// Values of operations, their words and their parts.
use spv_module::{Elem, Id, Shape, Value};
use spv_ops::Op;
use std::alloc::Global;
use std::test::Fail;
use value_ops::{add_words, copied, op_value, part_by, put_part, value_from, zero_value};

// A struct of a word and a vector of two.
fn pair(alloc: Global) -> Result<Shape, Fail> {
    let members = vec![in alloc; Shape::Uint, Shape::Vector(Elem::Uint, 2)]?;
    Ok(Shape::Struct(Id(1), members))
}

fn words_of(alloc: Global, value: &Value) -> Result<Vec<u32>, Fail> {
    let mut words = Vec::new(alloc);
    add_words(value, &mut words)?;
    Ok(words)
}

fn is_word(value: Option<&Value>, wanted: u32) -> bool {
    match value {
        Some(Value::Word(word)) => *word == wanted,
        _ => false,
    }
}

#[test]
fn values_by_their_words(rt: HostRuntime) -> Result<(), Fail> {
    let alloc = rt.alloc();
    let shape = pair(alloc)?;
    let zeros = words_of(alloc, &zero_value(alloc, &shape)?)?;
    assert_eq!(rt; zeros.as_slice(), [0, 0, 0].as_slice());
    let value = value_from(alloc, &shape, &[3, 5, 7])?;
    let copy = words_of(alloc, &copied(alloc, &value)?)?;
    assert_eq!(rt; copy.as_slice(), [3, 5, 7].as_slice());
    Ok(())
}

#[test]
fn parts_of_values(rt: HostRuntime) -> Result<(), Fail> {
    let alloc = rt.alloc();
    let mut value = value_from(alloc, &pair(alloc)?, &[3, 5, 7])?;
    assert!(rt; is_word(part_by(&value, &[1, 0]), 5));
    assert!(rt; put_part(&mut value, &[1, 1], Value::Word(9)));
    let words = words_of(alloc, &value)?;
    assert_eq!(rt; words.as_slice(), [3, 5, 9].as_slice());
    Ok(())
}

// The word of an operation on two words.
fn word_of(alloc: Global, op: Op, a: u32, b: u32) -> Result<Option<u32>, Fail> {
    let operands = [&Value::Word(a), &Value::Word(b)];
    match op_value(alloc, op, &Shape::Uint, &[], &operands)? {
        Some(Value::Word(word)) => Ok(Some(word)),
        _ => Ok(None),
    }
}

#[test]
fn values_of_operations(rt: HostRuntime) -> Result<(), Fail> {
    assert_eq!(rt; word_of(rt.alloc(), Op::IAdd, 2, 3)?, Some(5));
    assert_eq!(rt; word_of(rt.alloc(), Op::UDiv, 2, 0)?, None);
    Ok(())
}
