// The types of a workgroup sum over prefixes.
use profile_check::locals_of;
use sample_modules::{PREFIX_SUMS, module_of};
use std::test::Fail;
use type_rules::check_types;

#[test]
fn a_workgroup_sum(rt: HostRuntime) -> Result<(), Fail> {
    let alloc = rt.alloc();
    let module = module_of(alloc, &[&PREFIX_SUMS])?;
    let functions = locals_of(alloc, module.functions())?;
    check_types(alloc, &module, functions.as_slice())?;
    Ok(())
}
