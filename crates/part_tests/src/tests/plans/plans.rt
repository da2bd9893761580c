// Plans of a small function.
ghost use Rattle.std.specs.Prelude.{◌≡◌};
ghost use Rattle.module_check.specs.Judged.{IsRead};

use super::first::first_function;
use hoist_plan::{Form, Naming, plan};
use sample_modules::module_of;
use spv_index::Locals;
use spv_module::{Id, Module};
use spv_words::Memory;
use std::alloc::Global;
use std::marker::Brand;
use std::sync::ledger::{Blank, Ledger};
use std::test::Fail;
use use_chains::{Steps, Uses};

// %30 is a sum of %15 and %15, %31 a chain on the variable %5; block %16 stores %30 twice through %31,
// and block %17 loads %32 through it.
static MODULE: [u32; 62] = [
    0x07230203, 0x00010300, 0, 33, 0, 0x00020013, 1, 0x00040015, 8, 32, 0, 0x00040020, 13, 12, 8,
    0x00030021, 7, 1, 0x0004002B, 8, 14, 0, 0x0004002B, 8, 15, 1, 0x0004003B, 13, 5, 12,
    0x00050036, 1, 6, 0, 7, 0x000200F8, 16, 0x00050080, 8, 30, 15, 15, 0x00040041, 13, 31, 5,
    0x0003003E, 31, 30, 0x0003003E, 31, 30, 0x000200F9, 17, 0x000200F8, 17, 0x0004003D, 8, 32, 31,
    0x000100FD, 0x00010038,
];

/// The plan of the values of the first function of a module, of whose blocks these are reached, where there is one.
fn first_planned<L: Ledger>(
    alloc: Global,
    module: &Module,
    reached: &[bool],
    blank: Blank,
) -> Result<Option<Naming>, Memory>
    requires name { blank.name ≡ L.name }
    requires parts { blank.parts ≡ L.parts }
    requires one { blank.parts ≡ 1 }
    requires read { IsRead «module».now }
{
    let mut steps = Steps::<L>::new(blank);
    match first_function(module) {
        None => Ok(None),
        Some(function) => {
            let locals = Locals::of(alloc, function)?;
            let uses = Uses::build(alloc, &locals, reached, &mut steps)?;
            Ok(Some(plan(alloc, module, &locals, &uses, &mut steps)?))
        }
    }
}

#[test]
fn forms_of_a_function(rt: HostRuntime) -> Result<(), Fail> {
    let alloc = rt.alloc();
    let module = module_of(alloc, &[&MODULE])?;
    let plan = first_planned::<Brand>(alloc, &module, &[true, true], Blank::new(1))?;
    let plan = plan.ok_or("no function")?;
    for (id, form) in [
        (30, Form::Local),
        (31, Form::Forwarded),
        (32, Form::Local),
        (5, Form::Gone),
    ] {
        assert_eq!(rt; plan.of(Id(id)), form);
    }
    assert_eq!(rt; (plan.carried(Id(31)), plan.carried(Id(5))), (true, false));
    Ok(())
}
