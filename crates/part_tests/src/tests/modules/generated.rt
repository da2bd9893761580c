// Modules that are built.
use module_gen::{Builder, generate};
use sample_modules::{INCREMENT, bytes_of};
use spv_ops::Op;
use std::test::Fail;

#[test]
fn builds_a_module(rt: HostRuntime) -> Result<(), Fail> {
    let alloc = rt.alloc();
    let mut builder = Builder::new(alloc, 0x10300).ok().ok_or("no memory")?;
    assert!(rt; builder.put(Op::Capability.number(), &[1]).is_ok());
    assert!(rt; builder.put(Op::Return.number(), &[]).is_ok());
    let bytes = builder.finish(22).ok().ok_or("no memory")?;
    let words = [0x7230203, 0x10300, 0, 22, 0, 0x20011, 1, 0x100fd];
    assert_eq!(rt; bytes, bytes_of(alloc, &[&words])?);
    Ok(())
}

static FIRST_PIECE: [u32; 18] = [
    0x60041, 0xd, 0x20, 0x5, 0xe, 0x12, 0x4003d, 0x8, 0x21, 0x20, 0x50080, 0x8, 0x22, 0x21, 0xf,
    0x3003e, 0x20, 0x22,
];

#[test]
fn generates_a_module(rt: HostRuntime) -> Result<(), Fail> {
    let alloc = rt.alloc();
    // The frame is that of the sample, with a truth type and the number 8 more.
    let wanted = bytes_of(
        alloc,
        &[
            &[0x7230203, 0x10300, 0, 0x30, 0],
            &INCREMENT[5..97],
            &[0x20014, 0x13, 0x4002b, 8, 0x14, 8],
            &INCREMENT[97..113],
            &FIRST_PIECE,
            &INCREMENT[131..],
        ],
    )?;
    assert_eq!(rt; generate(alloc, 1).ok().ok_or("no memory")?, wanted);
    Ok(())
}
