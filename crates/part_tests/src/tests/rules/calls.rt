// A module of functions that call each other, judged whole.
use module_check::{check_bytes, check_module, read_module};
use profile_check::Options;
use sample_modules::{INCREMENT, bytes_of};
use spec_constants::Overrides;
use spv_decor::Decor;
use spv_module::Id;
use spv_words::Fault;
use std::alloc::{AllocError, Global};
use std::test::Fail;

type Calls = (u32, &'static [u32]);

// The functions, each with the ids of those that it calls, behind the types of the shader: with 9 words and 4
// for each call, from word 97 on.
fn module_bytes(alloc: Global, functions: &[Calls]) -> Result<Vec<u8>, AllocError> {
    let mut words = Vec::new(alloc);
    let mut id: u32 = 200;
    for (function, callees) in functions {
        words.extend_from_slice(&[0x50036, 6, *function, 0, 7, 0x200f8, id])?;
        for callee in *callees {
            id = id.wrapping_add(1);
            words.extend_from_slice(&[0x40039, 6, id, *callee])?;
        }
        words.extend_from_slice(&[0x100fd, 0x10038])?;
        id = id.wrapping_add(1);
    }
    bytes_of(
        alloc,
        &[&INCREMENT[..3], &[1024], &INCREMENT[4..97], &words],
    )
}

// The order in which the functions come, callees first.
fn order_of(alloc: Global, functions: &[Calls]) -> Result<Vec<Id>, Fault> {
    let bytes = module_bytes(alloc, functions)?;
    if bytes.len() > 1000 {
        return Err(Fault::Memory);
    }
    let options = Options {
        entry: None,
        overrides: Overrides {
            pairs: Vec::new(alloc),
        },
    };
    check_bytes(alloc, &bytes, &options)?;
    let module = read_module(alloc, &bytes)?;
    let decor = Decor::read(alloc, &module)?;
    Ok(check_module(alloc, &module, &decor, &options)?.order)
}

#[test]
fn callees_first(rt: HostRuntime) -> Result<(), Fail> {
    let functions: [Calls; 6] = [
        (1, &[104, 102]),
        (101, &[]),
        (102, &[105, 103, 103]),
        (103, &[]),
        (104, &[105]),
        (105, &[]),
    ];
    let order = order_of(rt.alloc(), &functions)?;
    assert_eq!(rt;
        order.as_slice(),
        [Id(103), Id(105), Id(102), Id(104), Id(1)].as_slice()
    );
    Ok(())
}
