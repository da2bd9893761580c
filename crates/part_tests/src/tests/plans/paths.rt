// The paths of a small module's pointers.
ghost use Rattle.std.specs.Bool.{OnTrue};
ghost use Rattle.few_law.specs.Short.{HasFewArgs, IsShortBlock, IsShort};

use access_paths::{Path, Paths, Step, captured_indexes, is_constant_index, path};
use sample_modules::module_of;
use spv_index::Locals;
use spv_module::{Block, Function, Id, Inst, Module};
use spv_words::Memory;
use std::alloc::Global;
use std::test::Fail;

// %5 a StorageBuffer variable of %9, a struct of the runtime array %4 of %3, a struct of two uint %8;
// %19 a Workgroup array of uint; %29 and %30 the constants 0 and 1, %34 an OpUndef, %35 a specialization
// constant. Function %1: block %40 with the variables %41 and %42 and the chains %52 to %58, block %60
// with the chains %78 to %83. Function %31: the parameter %32, the chain %36.
static MODULE: [u32; 196] = [
    0x7230203, 0x10600, 0, 0x5A, 0, 0x20013, 6, 0x30021, 7, 6, 0x40015, 8, 0x20, 0, 0x40015, 0x1C,
    0x20, 1, 0x4001E, 3, 8, 8, 0x3001D, 4, 3, 0x3001E, 9, 4, 0x40020, 0xB, 0xC, 9, 0x4003B, 0xB, 5,
    0xC, 0x40020, 0xC, 0xC, 3, 0x40020, 0xD, 0xC, 8, 0x4002B, 0x1C, 0x1D, 0, 0x4002B, 0x1C, 0x1E,
    1, 0x4002B, 8, 0x10, 4, 0x4001C, 0x11, 8, 0x10, 0x40020, 0x12, 4, 0x11, 0x4003B, 0x12, 0x13, 4,
    0x40020, 0x14, 4, 8, 0x40020, 0x16, 7, 3, 0x40020, 0x17, 7, 8, 0x40021, 0x18, 6, 0x16, 0x30001,
    8, 0x22, 0x40032, 8, 0x23, 2, 0x50036, 6, 1, 0, 7, 0x200F8, 0x28, 0x4003B, 0x17, 0x29, 7,
    0x4003B, 0x16, 0x2A, 7, 0x4003D, 8, 0x33, 0x29, 0x60041, 0xC, 0x34, 5, 0x1D, 0x33, 0x50041,
    0x17, 0x38, 0x2A, 0x1D, 0x4003D, 8, 0x37, 0x29, 0x50041, 0x14, 0x3A, 0x13, 0x37, 0x40041, 0xC,
    0x35, 0x34, 0x50042, 0xD, 0x36, 0x35, 0x1E, 0x200F9, 0x3C, 0x200F8, 0x3C, 0x4003D, 8, 0x4C,
    0x29, 0x70041, 0xD, 0x4E, 5, 0x1D, 0x4C, 0x1E, 0x50041, 0xD, 0x4F, 0x35, 0x1E, 0x30001, 8,
    0x50, 0x50041, 0x14, 0x51, 0x13, 0x50, 0x50041, 0x14, 0x52, 0x13, 0x22, 0x50041, 0x14, 0x53,
    0x13, 0x23, 0x100FD, 0x10038, 0x50036, 6, 0x1F, 0, 0x18, 0x30037, 0x16, 0x20, 0x200F8, 0x21,
    0x50041, 0x17, 0x24, 0x20, 0x1E, 0x100FD, 0x10038,
];

fn has_few_args(inst: &Inst) -> bool
    ensures { OnTrue result (HasFewArgs inst.now) }
{
    inst.args.len() <= u32::MAX as usize
}

fn is_short_block(block: &Block) -> bool
    ensures { OnTrue result (IsShortBlock block.now) }
{
    block.insts.as_slice().iter().all(|inst| has_few_args(inst))
}

/// Whether each instruction of a function has as few operands as the calls below ask.
fn is_short(f: &Function) -> bool
    ensures { OnTrue result (IsShort f.now) }
{
    f.blocks
        .as_slice()
        .iter()
        .all(|block| is_short_block(block))
}

fn path_in<'a>(
    alloc: Global,
    module: &'a Module,
    f: &'a Function,
    block: usize,
    pointer: Id,
) -> Result<Option<Path>, Memory> {
    if is_short(f) {
        Ok(Some(path(alloc, module, f, block, pointer)?))
    } else {
        Ok(None)
    }
}

fn paths_in<'a>(
    alloc: Global,
    module: &'a Module,
    locals: &Locals<'a>,
) -> Result<Option<Paths<'a>>, Memory> {
    if is_short(locals.function()) {
        Ok(Some(Paths::of(alloc, module, locals)?))
    } else {
        Ok(None)
    }
}

fn captured_in(
    alloc: Global,
    module: &Module,
    chain: &Inst,
) -> Result<Option<Vec<(u32, Id)>>, Memory> {
    if has_few_args(chain) {
        Ok(Some(captured_indexes(alloc, module, chain)?))
    } else {
        Ok(None)
    }
}

#[test]
fn paths_of_pointers(rt: HostRuntime) -> Result<(), Fail> {
    let module = module_of(rt.alloc(), &[&MODULE])?;
    let items = [Step::Member(0), Step::Index(Id(51))];
    let captured = [Step::Member(0), Step::Captured(Id(52), 1)];
    // function, block, pointer, and its base and steps
    let cases = [
        (0, 0, 52, 5, items.as_slice()),
        (0, 1, 53, 5, captured.as_slice()),
        (0, 0, 82, 19, [Step::Index(Id(34))].as_slice()),
        (1, 0, 36, 32, [Step::Member(1)].as_slice()),
    ];
    for (function, block, pointer, base, steps) in cases {
        let f = module.functions().get(function).ok_or("no function")?;
        let found = path_in(rt.alloc(), &module, f, block, Id(pointer))?.ok_or("no path")?;
        assert_eq!(rt; found.base, Id(base));
        assert_eq!(rt; found.steps.as_slice(), steps);
    }
    Ok(())
}

#[test]
fn captured_of_chains(rt: HostRuntime) -> Result<(), Fail> {
    let module = module_of(rt.alloc(), &[&MODULE])?;
    assert_eq!(rt;
        (
            is_constant_index(&module, Id(34)),
            is_constant_index(&module, Id(80))
        ),
        (true, false)
    );
    let f = module.functions().get(0).ok_or("no function")?;
    let locals = Locals::of(rt.alloc(), f)?;
    let paths = paths_in(rt.alloc(), &module, &locals)?.ok_or("no paths")?;
    assert_eq!(rt; paths.path(rt.alloc(), 1, Id(53))?.base, Id(5));
    let block = f.blocks.as_slice().get(1).ok_or("no block")?;
    let chain = block.insts.as_slice().get(1).ok_or("no chain")?;
    let captured = captured_in(rt.alloc(), &module, chain)?.ok_or("no indexes")?;
    assert_eq!(rt; captured.as_slice(), [(1, Id(76))].as_slice());
    Ok(())
}
