// A small module that is judged.
use layout_rules::Kind;
use profile_check::{Options, Profile, check_data, check_rest, locals_of};
use profile_rules::SizePart;
use sample_modules::{INCREMENT, module_of};
use spec_constants::Overrides;
use spv_decor::Decor;
use spv_module::{Id, Module};
use spv_words::Fault;
use std::alloc::Global;
use std::test::Fail;

fn profile_of(alloc: Global, module: &Module, options: &Options) -> Result<Profile, Fault> {
    let decor = Decor::read(alloc, module)?;
    check_data(alloc, module, &decor, options)
}

fn rest_of(alloc: Global, module: &Module, options: &Options) -> Result<(), Fault> {
    let decor = Decor::read(alloc, module)?;
    let functions = locals_of(alloc, module.functions())?;
    check_rest(
        alloc,
        module,
        &decor,
        functions.as_slice(),
        &options.overrides,
    )
}

#[test]
fn a_profile(rt: HostRuntime) -> Result<(), Fail> {
    let alloc = rt.alloc();
    let module = module_of(alloc, &[&INCREMENT])?;
    let options = Options {
        entry: Some(String::from_str(alloc, "main")?),
        overrides: Overrides {
            pairs: Vec::new(alloc),
        },
    };
    let profile = profile_of(alloc, &module, &options)?;
    assert_eq!(rt; profile.entry, Id(1));
    let size = [SizePart::Fixed(64), SizePart::Fixed(1), SizePart::Fixed(1)];
    assert_eq!(rt; profile.size.as_slice(), size.as_slice());
    let [plan] = profile.blocks.as_slice() else {
        return Err(Fail::from("another number of blocks"));
    };
    assert_eq!(rt; plan.kind, Kind::Std430);
    assert_eq!(rt; plan.offsets.as_slice(), [0].as_slice());
    assert_eq!(rt; rest_of(alloc, &module, &options), Ok(()));
    Ok(())
}
