// A function whose operands are linked.
ghost use Rattle.std.specs.Prelude.{◌≡◌};
ghost use Rattle.module_check.specs.Judged.{IsRead};
ghost use Rattle.use_chains.specs.Small.{IsSmall};

use super::first::first_function;
use sample_modules::function_of;
use spv_index::Locals;
use spv_module::{Function, Id, Module};
use spv_words::Memory;
use std::alloc::{AllocError, Global};
use std::marker::Brand;
use std::sync::ledger::{Blank, Ledger};
use std::test::Fail;
use use_chains::{Slot, SlotPlace, Steps, Uses};

// The body of a function: a loop that counts the variable %30 up.
static COUNTED: [u32; 72] = [
    0x4003b, 27, 30, 7, 0x3003e, 30, 14, 0x200f9, 31, 0x200f8, 31, 0x400f6, 35, 34, 0, 0x200f9, 32,
    0x200f8, 32, 0x4003d, 8, 40, 30, 0x500b0, 22, 41, 40, 24, 0x400fa, 41, 33, 35, 0x200f8, 33,
    0x4003d, 8, 42, 30, 0x4003d, 8, 43, 30, 0x60041, 13, 44, 5, 14, 42, 0x3003e, 44, 43, 0x200f9,
    34, 0x200f8, 34, 0x4003d, 8, 45, 30, 0x50080, 8, 46, 45, 26, 0x3003e, 30, 46, 0x200f9, 31,
    0x200f8, 35, 0x100fd,
];

fn walked<L: Ledger>(
    alloc: Global,
    uses: &Uses,
    id: Id,
    steps: &mut Steps<L>,
) -> Result<Vec<Slot>, AllocError> {
    let mut slots = Vec::new(alloc);
    let mut at = uses.walk(id, None, steps);
    for _turn in 0..9 {
        let Some(slot) = at else {
            break;
        };
        slots.push(slot)?;
        at = uses.walk(id, at, steps);
    }
    Ok(slots)
}

fn third<L: Ledger>(uses: &mut Uses, id: Id, steps: &mut Steps<L>) -> Option<SlotPlace> {
    let first = uses.walk(id, None, steps);
    let first = first?;
    let second = uses.walk(id, Some(first), steps)?;
    let third = uses.walk(id, Some(second), steps)?;
    let place = uses.place(third, steps);
    uses.unlink(third, steps);
    Some(place)
}

// Adds what is found of %30, before and after its third slot is taken out.
fn add_counted<L: Ledger>(
    found: &mut Vec<u32>,
    alloc: Global,
    uses: &mut Uses,
    steps: &mut Steps<L>,
) -> Result<(), AllocError> {
    found.push(uses.count(Id(30), steps))?;
    for slot in &walked(alloc, uses, Id(30), steps)? {
        found.push(slot.0)?;
    }
    if third(uses, Id(30), steps).map_or(0, |place| place.block) == 3 {
        found.push(3)?;
    }
    found.push(uses.count(Id(30), steps))?;
    Ok(())
}

// Adds what is found of an id that takes over the slots of another.
fn add_moved<L: Ledger>(
    found: &mut Vec<u32>,
    alloc: Global,
    uses: &mut Uses,
    ids: (Id, Id),
    steps: &mut Steps<L>,
) -> Result<(), AllocError> {
    let (from, to) = ids;
    uses.retarget(from, to, steps);
    for slot in &walked(alloc, uses, to, steps)? {
        found.push(slot.0)?;
    }
    found.push(uses.count(from, steps))?;
    Ok(())
}

fn found<L: Ledger>(alloc: Global, function: &Function, blank: Blank) -> Result<Vec<u32>, Memory>
    requires name { blank.name ≡ L.name }
    requires parts { blank.parts ≡ L.parts }
    requires one { blank.parts ≡ 1 }
    requires small { IsSmall function.now }
{
    let mut steps = Steps::<L>::new(blank);
    let locals = Locals::of(alloc, function)?;
    let mut uses = Uses::build(alloc, &locals, &[true; 6], &mut steps)?;
    let mut found = Vec::new(alloc);
    add_counted(&mut found, alloc, &mut uses, &mut steps)?;
    // %14 has a list, and %99 has none
    add_moved(&mut found, alloc, &mut uses, (Id(30), Id(14)), &mut steps)?;
    add_moved(&mut found, alloc, &mut uses, (Id(14), Id(99)), &mut steps)?;
    Ok(found)
}

// What is found of the first function of a module.
fn first_found<L: Ledger>(alloc: Global, module: &Module, blank: Blank) -> Result<Vec<u32>, Memory>
    requires name { blank.name ≡ L.name }
    requires parts { blank.parts ≡ L.parts }
    requires one { blank.parts ≡ 1 }
    requires read { IsRead «module».now }
{
    match first_function(module) {
        None => Ok(Vec::new(alloc)),
        Some(function) => found::<L>(alloc, function, blank),
    }
}

#[test]
fn linked_slots(rt: HostRuntime) -> Result<(), Fail> {
    let alloc = rt.alloc();
    let module = function_of(alloc, &COUNTED)?;
    let found = first_found::<Brand>(alloc, &module, Blank::new(1))?;
    let wanted = [
        6, 0, 2, 6, 7, 13, 16, 3, 5, 0, 1, 2, 7, 9, 13, 16, 0, 0, 1, 2, 7, 9, 13, 16, 0,
    ];
    assert_eq!(rt; found.as_slice(), wanted.as_slice());
    Ok(())
}
