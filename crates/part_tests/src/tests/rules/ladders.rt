// The chains of a small switch, and flags.
use nest_place::places;
use sample_modules::module_of;
use std::test::Fail;
use structure_recover::recover;
use switch_ladder::{chains, flags};

// A function with a switch of four cases: the third falls into the first, and that into the second.
static FALLS: [u32; 46] = [
    0x7230203, 0x10300, 0, 0x400, 0, 0x50036, 6, 1, 0, 7, 0x200f8, 16, 0x300f7, 30, 0, 0xb00fb, 14,
    30, 1, 24, 2, 25, 3, 26, 4, 27, 0x200f8, 26, 0x200f9, 24, 0x200f8, 24, 0x200f9, 25, 0x200f8,
    25, 0x200f9, 30, 0x200f8, 27, 0x200f9, 30, 0x200f8, 30, 0x100fd, 0x10038,
];

// A loop whose continue target is a block of its own, with a switch from which a case leaves the loop.
static LEAVES: [u32; 44] = [
    0x7230203, 0x10300, 0, 0x400, 0, 0x50036, 6, 1, 0, 7, 0x200f8, 16, 0x200f9, 20, 0x200f8, 20,
    0x400f6, 27, 26, 0, 0x200f9, 21, 0x200f8, 21, 0x300f7, 25, 0, 0x500fb, 14, 25, 1, 27, 0x200f8,
    25, 0x200f9, 26, 0x200f8, 26, 0x200f9, 20, 0x200f8, 27, 0x100fd, 0x10038,
];

#[test]
fn lists_chains(rt: HostRuntime) -> Result<(), Fail> {
    let alloc = rt.alloc();
    let module = module_of(alloc, &[&FALLS])?;
    let function = module.functions().first().expect(&rt, "one function");
    let places = places(alloc, function)?;
    assert_eq!(rt; function.blocks.len(), 6);
    assert!(rt; places.reached(0));
    let chains = chains(alloc, function, &places, 0)?;
    assert!(rt; chains.len() == 2);
    assert!(rt; chains[0].as_slice() == [1, 2, 3].as_slice());
    assert!(rt; chains[1].as_slice() == [4].as_slice());
    Ok(())
}

#[test]
fn lists_flags(rt: HostRuntime) -> Result<(), Fail> {
    let alloc = rt.alloc();
    for (words, again, leave, fell) in [
        (
            FALLS.as_slice(),
            [].as_slice(),
            [].as_slice(),
            [2].as_slice(),
        ),
        (
            LEAVES.as_slice(),
            [1].as_slice(),
            [1].as_slice(),
            [].as_slice(),
        ),
    ] {
        let module = module_of(alloc, &[words])?;
        let function = module.functions().first().expect(&rt, "one function");
        let places = places(alloc, function)?;
        let region = recover(alloc, function, &places)?;
        let plan = flags(alloc, function, &places, &region, &[2, 4])?;
        assert!(rt; plan.again.as_slice() == again);
        assert!(rt; plan.leave.as_slice() == leave);
        assert!(rt; plan.fell.as_slice() == fell);
    }
    Ok(())
}
