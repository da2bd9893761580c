// The accesses of a small module.
use access_check::check_accesses;
use profile_check::locals_of;
use sample_modules::{INCREMENT, module_of};
use spv_decor::Decor;
use spv_words::{Fault, Refusal, Rule};
use std::alloc::Global;
use std::test::Fail;

// Judges the shader with these instructions in place of those that follow the chains: %5 is the buffer, %15 is 1, and
// %19 points to an element of %5.
fn judged(alloc: Global, body: &[u32]) -> Result<(), Fault> {
    let module = module_of(alloc, &[&INCREMENT[..119], body, &[0x100FD, 0x10038]])?;
    let decor = Decor::read(alloc, &module)?;
    let functions = locals_of(alloc, module.functions())?;
    check_accesses(alloc, &module, &decor, functions.as_slice())
}

#[test]
fn accesses(rt: HostRuntime) -> Result<(), Fail> {
    // a load with Aligned 4 and a store; a pointer that is stored, which no type allows either
    judged(rt.alloc(), &[0x6003D, 8, 20, 19, 2, 4, 0x3003E, 19, 20])?;
    let refusal = Refusal {
        rule: Rule::M5,
        at: 119,
    };
    let stored = judged(rt.alloc(), &[0x3003E, 19, 17]);
    assert_eq!(rt; stored, Err(Fault::Refused(refusal)));
    Ok(())
}
