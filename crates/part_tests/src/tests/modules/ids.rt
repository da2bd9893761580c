// What the ids of a small module stand for.
use sample_modules::module_of;
use spv_index::{Functions, Locals, Pointer, ValueTypes, global_type, pointer, type_in};
use spv_module::Id;
use spv_ops::{Op, StorageClass};
use std::test::Fail;

// %8 Block; %1 void, %2 uint, %3 runtime array of uint, %4 pointer Function uint, %5 function from a
// pointer to void, %6 constant 0, %8 struct of uint; function %9 with parameter %10 and two blocks.
static MODULE: [u32; 62] = [
    0x07230203, 0x00010300, 0, 16, 0, 0x00030047, 8, 2, 0x00020013, 1, 0x00040015, 2, 32, 0,
    0x0003001D, 3, 2, 0x00040020, 4, 7, 2, 0x00040021, 5, 1, 4, 0x0004002B, 2, 6, 0, 0x0003001E, 8,
    2, 0x00050036, 1, 9, 0, 5, 0x00030037, 4, 10, 0x000200F8, 11, 0x0004003B, 4, 12, 7, 0x0003003E,
    12, 6, 0x000200F9, 13, 0x000200F8, 13, 0x0004003D, 2, 14, 10, 0x0003003E, 12, 14, 0x000100FD,
    0x00010038,
];

#[test]
fn ids_of_a_module(rt: HostRuntime) -> Result<(), Fail> {
    let module = module_of(rt.alloc(), &[&MODULE])?;
    let functions = Functions::of(rt.alloc(), &module)?;
    assert_eq!(rt; functions.get(Id(9)), Some(0));
    assert_eq!(rt; functions.get(Id(10)), None);
    let to_uint = Pointer {
        class: StorageClass::Function.number(),
        pointee: Id(2),
    };
    assert_eq!(rt; pointer(&module, Id(4)), Some(to_uint));
    assert_eq!(rt; pointer(&module, Id(2)), None);
    assert_eq!(rt; global_type(&module, 6), Some(2));
    assert_eq!(rt; global_type(&module, 2), None);
    let types = ValueTypes::of(rt.alloc(), &module)?;
    for (id, is_other) in [(1, true), (2, false), (3, true), (8, true)] {
        assert_eq!(rt; types.is_other(id), is_other);
    }
    Ok(())
}

#[test]
fn ids_of_a_function(rt: HostRuntime) -> Result<(), Fail> {
    let module = module_of(rt.alloc(), &[&MODULE])?;
    let function = module.functions().get(0).ok_or("no function")?;
    let locals = Locals::of(rt.alloc(), function)?;
    assert_eq!(rt; locals.function().id, Id(9));
    let load = locals.inst(14).ok_or("no load")?;
    assert_eq!(rt; (load.op, load.at), (Op::Load, 53));
    assert!(rt; locals.inst(10).is_none());
    assert_eq!(rt; locals.parameter(10), Some(Id(4)));
    assert_eq!(rt; locals.parameter(12), None);
    assert_eq!(rt; locals.block(13), Some(1));
    assert_eq!(rt; locals.block(9), None);
    for (id, ty) in [(6, Some(2)), (10, Some(4)), (14, Some(2)), (11, None)] {
        assert_eq!(rt; type_in(&module, &locals, id), ty);
    }
    Ok(())
}
