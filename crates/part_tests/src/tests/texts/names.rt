// Names that were worked out by hand.
use glsl_ast::Expr;
use name_alloc::{Claim, Key, Names, names};
use spv_module::Id;
use spv_words::Memory;
use std::alloc::{AllocError, Global};
use std::test::Fail;

fn claim(alloc: Global, key: Key, given: &str) -> Result<Claim, AllocError> {
    let given = Some(Vec::from_slice(alloc, given.as_bytes())?);
    Ok(Claim { key, given })
}

/// The names of these keys, each with the name that is given to it.
pub fn named(alloc: Global, rows: &[(Key, &str)]) -> Result<Names, Memory> {
    let mut claims = Vec::new(alloc);
    for (key, given) in rows {
        claims.push(claim(alloc, *key, given)?)?;
    }
    names(alloc, &claims)
}

/// Whether an expression is this name.
pub fn is_name(expr: &Expr, name: &str) -> bool {
    match expr {
        Expr::Name(text) => text.as_str() == name,
        _ => false,
    }
}

// Keys, each with the name that the module gives it, and the one that it gets.
static KERNEL: [(Key, &str, &str); 22] = [
    (Key::Main, "main", "main"),
    (Key::Id(Id(3)), "Item", "Item"),
    (Key::Member(Id(3), 0), "key", "key"),
    (Key::Member(Id(21), 0), "key", "key"),
    (Key::Member(Id(21), 1), "key", "key_2"),
    (Key::Id(Id(5)), "input", "n_input"),
    (Key::Block(Id(5), Id(9)), "Data", "Data"),
    (Key::Id(Id(21)), "Item", "Item_2"),
    (Key::Id(Id(31)), "add(u1;u1;", "add_u1_u1"),
    (Key::Id(Id(32)), "float", "n_float"),
    (Key::Id(Id(41)), "i", "i"),
    (Key::Id(Id(44)), "i", "i_2"),
    (Key::Id(Id(45)), "i", "i_3"),
    (Key::Id(Id(46)), "i_2", "i_2_2"),
    (Key::Id(Id(50)), "", "v50"),
    (Key::Member(Id(8), 2), "$$", "m2"),
    (Key::Again(Id(9)), "", "again"),
    (Key::Again(Id(10)), "", "again_2"),
    (Key::Leave(Id(9)), "", "leave"),
    (Key::Fell(Id(9)), "", "fell"),
    (Key::Captured(Id(10), 1), "", "at"),
    (Key::Spare(Id(11), Id(12), 0), "", "spare"),
];

// Whether each key gets the name behind the one that is given to it.
fn are_named(alloc: Global, rows: &[(Key, &str, &str)]) -> Result<bool, Memory> {
    let mut given = Vec::new(alloc);
    for (key, base, _) in rows {
        given.push((*key, *base))?;
    }
    let names = named(alloc, &given)?;
    for (key, _, name) in rows {
        if names.of(*key).map(|text| text.as_str()) != Some(*name) {
            return Ok(false);
        }
    }
    Ok(names.of(Key::Id(Id(0))).is_none())
}

#[test]
fn names_of_claims(rt: HostRuntime) -> Result<(), Fail> {
    assert!(rt; are_named(rt.alloc(), &KERNEL)?);
    Ok(())
}
