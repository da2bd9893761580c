// Opcodes, their operands, and decorations.
use spv_ops::{
    Decoration, Op, OpClass, OpShape, Operands, has_literal, id_words, inner_op, literals_of,
    shape_of,
};
use std::test::Fail;

#[test]
fn table_of_opcodes(rt: HostRuntime) -> Result<(), Fail> {
    let access_chain = OpShape {
        has_type: true,
        has_result: true,
        least: 4,
        most: 65535,
        class: OpClass::Pure,
    };
    assert_eq!(rt; Op::AccessChain.shape(), access_chain);
    assert_eq!(rt; (shape_of(65), shape_of(9)), (Some(access_chain), None));
    assert_eq!(rt; Op::of(9), None);
    assert_eq!(rt; Op::Store.operands(), Operands::IdsFirst(2));
    for (op, is_inner) in [(Op::IAdd, true), (Op::CompositeInsert, false)] {
        let inner = inner_op(u32::from(op.number()));
        assert_eq!(rt; inner, if is_inner { Some(op) } else { None });
    }
    let rows = [(Decoration::Offset, 1), (Decoration::NonWritable, 0)];
    for (decoration, literals) in rows {
        let number = decoration.number();
        assert_eq!(rt; literals_of(number), Some(literals));
        assert_eq!(rt; has_literal(number), literals == 1);
    }
    Ok(())
}

#[test]
fn operands_that_are_ids(rt: HostRuntime) -> Result<(), Fail> {
    // EntryPoint GLCompute %1 "main" %2, Switch %1 %2 3 %4, SpecConstantOp IAdd %1 %2, ExtInst %1 5 %3
    let main = [5, 1, 0x6E69616D, 0, 2].as_slice();
    let cases = [
        (Op::EntryPoint, main, [false, true, false, false, true]),
        (
            Op::Switch,
            [1, 2, 3, 4].as_slice(),
            [true, true, false, true, false],
        ),
        (
            Op::SpecConstantOp,
            [128, 1, 2].as_slice(),
            [false, true, true, true, true],
        ),
        (
            Op::ExtInst,
            [1, 5, 3].as_slice(),
            [true, false, true, true, true],
        ),
    ];
    for (op, args, expected) in cases {
        let ids = id_words(op, args);
        for (k, is_id) in expected.iter().take(args.len()).enumerate() {
            assert_eq!(rt; ids.has(k), *is_id);
        }
    }
    Ok(())
}
