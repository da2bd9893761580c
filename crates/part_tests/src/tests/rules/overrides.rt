// Overrides on a command line and on a module, and a module at the limit of leaves.
use sample_modules::{SPECIALIZED, module_of};
use spec_constants::{Given, Overrides, check_leaves, check_overrides, givens, word_given};
use spv_decor::Decor;
use spv_module::Module;
use spv_words::Fault;
use std::alloc::Global;
use std::test::Fail;

// The zero of an array of 262144.
static AT_LIMIT: [u32; 20] = [
    0x7230203, 0x10600, 0, 64, 0, 0x40015, 1, 32, 0, 0x4002b, 1, 20, 0x40000, 0x4001c, 2, 1, 20,
    0x3002e, 2, 21,
];

fn parsed(alloc: Global, words: &[&str]) -> Result<Overrides, Fault> {
    match Overrides::parse(alloc, words) {
        Ok(overrides) => Ok(overrides),
        Err(_) => Err(Fault::Memory),
    }
}

#[test]
fn words_of_a_command_line(rt: HostRuntime) -> Result<(), Fail> {
    let alloc = rt.alloc();
    let overrides = parsed(alloc, &["3=128", "0=-5", "7=0xfF"])?;
    let wanted = [
        (3, Given::Decimal(128)),
        (0, Given::Negative(5)),
        (7, Given::Hex(255)),
    ];
    assert!(rt; overrides.pairs.as_slice() == wanted.as_slice());
    let by_id = givens(alloc, &overrides.pairs)?;
    assert_eq!(rt;
        by_id.get(&0).map(|given| word_given(*given)),
        Some(0xffff_fffb)
    );
    Ok(())
}

fn judged(alloc: Global, module: &Module, overrides: &Overrides) -> Result<(), Fault> {
    let decor = Decor::read(alloc, module)?;
    check_overrides(alloc, module, &decor, &overrides.pairs)
}

#[test]
fn overrides_of_a_module(rt: HostRuntime) -> Result<(), Fail> {
    let module = module_of(rt.alloc(), &[&SPECIALIZED])?;
    let overrides = parsed(rt.alloc(), &["3=128", "2=-2147483648"])?;
    assert_eq!(rt; judged(rt.alloc(), &module, &overrides), Ok(()));
    Ok(())
}

#[test]
fn leaves_of_modules(rt: HostRuntime) -> Result<(), Fail> {
    let alloc = rt.alloc();
    check_leaves(alloc, &module_of(alloc, &[&AT_LIMIT])?)?;
    Ok(())
}
