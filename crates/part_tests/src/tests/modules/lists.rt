// The lists of a compute shader that adds 1 to each element of a buffer.
use sample_modules::{INCREMENT, module_of};
use spv_module::{Id, Seq};
use spv_ops::Op;
use std::test::Fail;

#[test]
fn lists_of_a_shader(rt: HostRuntime) -> Result<(), Fail> {
    let module = module_of(rt.alloc(), &[&INCREMENT])?;
    assert_eq!(rt; module.bound(), 22);
    assert_eq!(rt; (module.heads().len(), module.globals().len()), (10, 14));
    let [function] = module.functions() else {
        return Err(Fail::from("another number of functions"));
    };
    assert_eq!(rt;
        [function.id, function.ty, function.result],
        [Id(1), Id(7), Id(6)]
    );
    assert_eq!(rt; (function.at, function.params.is_empty()), (97, true));
    let [block] = function.blocks.as_slice() else {
        return Err(Fail::from("another number of blocks"));
    };
    assert_eq!(rt;
        (block.label, block.at, block.insts.len()),
        (Id(16), 102, 7)
    );
    let add = block.insts.as_slice().get(4).ok_or("no addition")?;
    assert_eq!(rt; add.op, Op::IAdd);
    assert_eq!(rt;
        [add.at, add.ty, add.result, add.operand(1)],
        [123, 8, 21, 15]
    );
    let buffer = module.global(Id(5)).ok_or("no buffer")?;
    assert_eq!(rt; (buffer.op, buffer.at), (Op::Variable, 81));
    assert!(rt; module.global(Id(1)).is_none(), "a function is no global");
    Ok(())
}

#[test]
fn items_in_order(rt: HostRuntime) -> Result<(), Fail> {
    let mut ids = Seq::new(rt.alloc());
    ids.push(Id(7))?;
    ids.push(Id(3))?;
    assert_eq!(rt; ids.as_slice(), [Id(7), Id(3)].as_slice());
    Ok(())
}
