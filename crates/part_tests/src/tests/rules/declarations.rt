// The entry point and the size of workgroups of a small module.
use declaration_check::{Entry, check_declarations};
use profile_rules::SizePart;
use sample_modules::{INCREMENT, module_of};
use spv_decor::Decor;
use spv_module::{Id, Module};
use spv_words::Fault;
use std::alloc::Global;
use std::test::Fail;

// The module with further heads and further globals.
fn module_with(alloc: Global, heads: &[u32], globals: &[u32]) -> Result<Module, Fault> {
    module_of(
        alloc,
        &[
            &INCREMENT[..3],
            &[0x40],
            &INCREMENT[4..22],
            heads,
            &INCREMENT[22..97],
            globals,
            &INCREMENT[97..],
        ],
    )
}

fn judged(alloc: Global, module: &Module, entry: Option<&str>) -> Result<Entry, Fault> {
    let decor = Decor::read(alloc, module)?;
    check_declarations(alloc, module, &decor, entry)
}

#[test]
fn entry_and_size(rt: HostRuntime) -> Result<(), Fail> {
    let module = module_with(rt.alloc(), &[], &[])?;
    let entry = judged(rt.alloc(), &module, Some("main"))?;
    assert_eq!(rt; entry.function, Id(1));
    let size = [SizePart::Fixed(64), SizePart::Fixed(1), SizePart::Fixed(1)];
    assert_eq!(rt; entry.size.as_slice(), size.as_slice());
    // %20 is a specialization constant 64 with SpecId 3, and %21 the composite decorated WorkgroupSize
    let heads = [0x40047, 0x20, 1, 3, 0x40047, 0x21, 11, 25];
    let globals = [0x40032, 8, 0x20, 64, 0x60033, 9, 0x21, 0x20, 0xF, 0xF];
    let module = module_with(rt.alloc(), &heads, &globals)?;
    let entry = judged(rt.alloc(), &module, None)?;
    let size = [
        SizePart::Spec { id: 3, default: 64 },
        SizePart::Fixed(1),
        SizePart::Fixed(1),
    ];
    assert_eq!(rt; entry.size.as_slice(), size.as_slice());
    Ok(())
}
