// What is read of a small compute shader.
use sample_modules::{INCREMENT, bytes_of};
use spv_ops::Op;
use spv_words::{Fault, Limit, Memory, Refusal, Rule, Words, first_zero};
use std::alloc::{AllocError, Global};
use std::test::Fail;

fn big(alloc: Global, words: &[u32]) -> Result<Vec<u8>, AllocError> {
    let mut bytes = Vec::new(alloc);
    for word in words {
        bytes.extend_from_slice(&word.to_be_bytes())?;
    }
    Ok(bytes)
}

fn words_of(alloc: Global, bytes: &[u8]) -> Result<Words, Fault> {
    if bytes.len() > 1000 {
        return Err(Fault::Memory);
    }
    Words::of(alloc, bytes)
}

// The third instruction is the entry point, with the name in its fourth word, and no text behind its last one.
fn has_entry(words: &Words) -> bool {
    if words.count() < 3 {
        return false;
    }
    let entry = words.at(2);
    let is_entry_point = entry.opcode == Op::EntryPoint.number();
    if !is_entry_point || entry.len != 6 || entry.start != 10 {
        return false;
    }
    let name = words
        .text(2, 3)
        .map(|text| (text.first, text.bytes, text.words));
    let past_the_end = Refusal {
        rule: Rule::W9,
        at: 10,
    };
    words.operand(2, 3) == 0x6E69616D
        && name == Ok((13, 4, 2))
        && words.text(2, 6).err() == Some(past_the_end)
}

fn is_read(words: &Words) -> bool {
    words.header(3) == 22 && words.count() == 34 && has_entry(words)
}

#[test]
fn reads_a_module_in_either_byte_order(rt: HostRuntime) -> Result<(), Fail> {
    let little = bytes_of(rt.alloc(), &[&INCREMENT])?;
    let big = big(rt.alloc(), &INCREMENT)?;
    for bytes in [&little, &big] {
        assert!(rt; is_read(&words_of(rt.alloc(), bytes)?));
    }
    assert_eq!(rt; first_zero(b"main\0"), Some(4));
    Ok(())
}

#[test]
fn names_of_rules_and_limits(rt: HostRuntime) -> Result<(), Fail> {
    assert_eq!(rt; (Rule::K11.letter(), Rule::K11.number()), (b'K', 11));
    assert_eq!(rt;
        (Limit::Depth.name(), Limit::Depth.number()),
        ("depth", 127)
    );
    assert_eq!(rt; Fault::from(Memory), Fault::Memory);
    Ok(())
}
