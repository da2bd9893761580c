// The constants of a small module, by default, under an override and under a specialization.
use constant_values::{Constants, Special, resolve};
use sample_modules::module_of;
use spec_constants::Overrides;
use spv_decor::Decor;
use spv_module::{Id, Value};
use spv_words::Fault;
use std::alloc::Global;
use std::collections::BTreeMap;
use std::test::Fail;

// A bool 30 with SpecId 1 and a uint 31 with SpecId 2, true and 7 by default; the constants 20 and 21
// are 5 and 0. Of these: a sum, a quotient by zero, a vector of three, its last component, a shuffle,
// a choice, and the zero of the vector.
static SPECIALIZED: [u32; 87] = [
    0x7230203, 0x10600, 0, 64, 0, 0x40047, 30, 1, 1, 0x40047, 31, 1, 2, 0x40015, 1, 32, 0, 0x20014,
    3, 0x40017, 4, 1, 3, 0x30030, 3, 30, 0x40032, 1, 31, 7, 0x4002b, 1, 20, 5, 0x4002b, 1, 21, 0,
    0x60034, 1, 32, 128, 31, 20, 0x60034, 1, 33, 134, 31, 21, 0x60033, 4, 34, 31, 20, 32, 0x60034,
    1, 35, 81, 34, 2, 0x90034, 4, 36, 79, 34, 34, 0xffffffff, 4, 0, 0x70034, 1, 37, 169, 30, 31,
    20, 0x3002e, 4, 38, 0x60034, 1, 39, 137, 32, 20,
];

fn constants_of(alloc: Global, words: &[&str], special: &Special) -> Result<Constants, Fault> {
    let module = module_of(alloc, &[&SPECIALIZED])?;
    let decor = Decor::read(alloc, &module)?;
    match Overrides::parse(alloc, words) {
        Ok(overrides) => resolve(alloc, &module, &decor, &overrides, special),
        Err(_) => Err(Fault::Memory),
    }
}

fn is_word(value: Option<&Value>, word: u32) -> bool {
    match value {
        Some(Value::Word(found)) => *found == word,
        _ => false,
    }
}

fn are_words(value: Option<&Value>, words: &[u32; 3]) -> bool {
    match value {
        Some(Value::Many(parts)) => {
            parts.len() == 3
                && is_word(parts.get(0), words[0])
                && is_word(parts.get(1), words[1])
                && is_word(parts.get(2), words[2])
        }
        _ => false,
    }
}

#[test]
fn by_default(rt: HostRuntime) -> Result<(), Fail> {
    let alloc = rt.alloc();
    let constants = constants_of(alloc, &[], &BTreeMap::new(alloc))?;
    assert_eq!(rt;
        matches!(constants.get(Id(30)), Some(Value::Bool(true))),
        true
    );
    for (id, word) in [(20, 5), (31, 7), (32, 12), (35, 12), (37, 7), (39, 2)] {
        assert_eq!(rt; is_word(constants.get(Id(id)), word), true);
    }
    for (id, words) in [(34, [7, 5, 12]), (36, [0, 5, 7]), (38, [0, 0, 0])] {
        assert_eq!(rt; are_words(constants.get(Id(id)), &words), true);
    }
    // no constant, a type, and a quotient by zero
    for id in [0, 1, 33] {
        assert_eq!(rt; constants.get(Id(id)).is_none(), true);
    }
    Ok(())
}

#[test]
fn an_override_stands_before_a_specialization(rt: HostRuntime) -> Result<(), Fail> {
    let alloc = rt.alloc();
    let mut special = BTreeMap::new(alloc);
    special.insert(1, 0)?;
    special.insert(2, 9)?;
    let specialized = constants_of(alloc, &[], &special)?;
    assert_eq!(rt;
        matches!(specialized.get(Id(30)), Some(Value::Bool(false))),
        true
    );
    assert_eq!(rt; is_word(specialized.get(Id(32)), 14), true);
    let overridden = constants_of(alloc, &["2=100"], &special)?;
    assert_eq!(rt; is_word(overridden.get(Id(32)), 105), true);
    assert_eq!(rt; is_word(overridden.get(Id(37)), 5), true);
    assert_eq!(rt; constants_of(alloc, &["3=1"], &special).is_err(), true);
    Ok(())
}
