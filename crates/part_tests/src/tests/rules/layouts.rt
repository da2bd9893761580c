// The blocks and types of a small module.
use buffer_layout::{BlockPlan, Kind, Layout, check_block, is_block_variable, layout};
use sample_modules::module_of;
use spv_decor::Decor;
use spv_module::{Id, Module};
use spv_words::Fault;
use std::alloc::Global;
use std::test::Fail;

// %1 uint, %2 a vector of three, %3 a runtime array of these with stride 16, %4 a struct of two uints
// at 0 and 4; %7 a StorageBuffer of %5: a %2 at 0, uints at 12 and 32, a %3 at 48; %10 a Uniform of %8:
// a %4 at 0; %15 a StorageBuffer of %13: at 0 %12, two uints with stride 16. %16 has a bool, %17, and
// no Offset.
static MODULE: [u32; 117] = [
    0x07230203, 0x00010300, 0, 18, 0, 0x00050048, 5, 0, 35, 0, 0x00050048, 5, 1, 35, 12,
    0x00050048, 5, 2, 35, 32, 0x00050048, 5, 3, 35, 48, 0x00040047, 3, 6, 16, 0x00050048, 4, 0, 35,
    0, 0x00050048, 4, 1, 35, 4, 0x00050048, 8, 0, 35, 0, 0x00040047, 12, 6, 16, 0x00050048, 13, 0,
    35, 0, 0x00040015, 1, 32, 0, 0x00040017, 2, 1, 3, 0x0003001D, 3, 2, 0x0004001E, 4, 1, 1,
    0x0006001E, 5, 2, 1, 1, 3, 0x00040020, 6, 12, 5, 0x0004003B, 6, 7, 12, 0x0003001E, 8, 4,
    0x00040020, 9, 2, 8, 0x0004003B, 9, 10, 2, 0x0004002B, 1, 11, 2, 0x0004001C, 12, 1, 11,
    0x0003001E, 13, 12, 0x00020014, 17, 0x0003001E, 16, 17, 0x00040020, 14, 12, 13, 0x0004003B, 14,
    15, 12,
];

// The plan of a block, where this is the id of its variable.
fn plan_of(alloc: Global, module: &Module, id: u32) -> Result<Option<BlockPlan>, Fault> {
    let decor = Decor::read(alloc, module)?;
    if !is_block_variable(module, Id(id)) {
        return Ok(None);
    }
    Ok(Some(check_block(alloc, module, &decor, Id(id))?))
}

#[test]
fn a_plan(rt: HostRuntime) -> Result<(), Fail> {
    let module = module_of(rt.alloc(), &[&MODULE])?;
    assert!(rt; plan_of(rt.alloc(), &module, 6)?.is_none());
    let plan = plan_of(rt.alloc(), &module, 7)?.ok_or("no plan")?;
    assert_eq!(rt; plan.offsets.as_slice(), [0, 12, 32, 48].as_slice());
    let sizes = [(12, 16, 0), (4, 4, 0), (4, 4, 0), (0, 16, 16)];
    assert_eq!(rt; plan.members.len(), sizes.len());
    for (member, size) in plan.members.iter().zip(sizes.iter()) {
        assert_eq!(rt; (member.size, member.align, member.stride), *size);
    }
    Ok(())
}

fn layout_of(alloc: Global, module: &Module, ty: u32, kind: Kind) -> Result<Layout, Fault> {
    let decor = Decor::read(alloc, module)?;
    layout(alloc, module, &decor, Id(7), Id(ty), kind)
}

#[test]
fn types(rt: HostRuntime) -> Result<(), Fail> {
    let alloc = rt.alloc();
    let module = module_of(alloc, &[&MODULE])?;
    for (ty, kind, sizes) in [
        (4, Kind::Std140, (16, 16, 0)),
        (12, Kind::Std140, (32, 16, 16)),
        (6, Kind::Std430, (0, 0, 0)),
    ] {
        let found = layout_of(alloc, &module, ty, kind)?;
        assert_eq!(rt; (found.size, found.align, found.stride), sizes, "type {ty}");
    }
    let pair = layout_of(alloc, &module, 4, Kind::Std140)?;
    assert_eq!(rt; pair.offsets.as_slice(), [0, 4].as_slice());
    Ok(())
}
