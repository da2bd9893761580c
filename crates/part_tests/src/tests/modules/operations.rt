// Opcodes and their operations.
use op_semantics::{
    Binary, Comparison, Logical, Operation, Unary, binary_word, compare_words,
    extended_operation_of, logical_truth, operation_of, unary_word,
};
use spv_ops::Op;
use std::test::Fail;

#[test]
fn operations_by_their_opcodes(rt: HostRuntime) -> Result<(), Fail> {
    let rows = [
        (Op::SDiv, Some(Operation::Binary(Binary::SDiv))),
        (
            Op::SLessThanEqual,
            Some(Operation::Comparison(Comparison::SLessThanEqual)),
        ),
        (Op::CopyLogical, Some(Operation::Copy)),
        (Op::ExtInst, None),
    ];
    for (opcode, wanted) in &rows {
        assert_eq!(rt; operation_of(*opcode), *wanted);
    }
    assert_eq!(rt;
        extended_operation_of(74),
        Some(Operation::Unary(Unary::FindSMsb))
    );
    assert_eq!(rt; extended_operation_of(6), None);
    Ok(())
}

#[test]
fn operations_on_words(rt: HostRuntime) -> Result<(), Fail> {
    let (minus_1, minus_2, minus_7) = (0xffff_ffff, 0xffff_fffe, 0xffff_fff9);
    let rows = [
        (Binary::SDiv, minus_7, 2, Some(0xffff_fffd)),
        (Binary::SRem, minus_7, 2, Some(minus_1)),
        (Binary::SRem, 7, minus_2, Some(1)),
        (Binary::SMod, minus_7, 2, Some(1)),
        (Binary::SMod, 7, minus_2, Some(minus_1)),
        (Binary::SMod, minus_7, minus_2, Some(minus_1)),
        (Binary::SRem, 1 << 31, minus_1, None),
        (Binary::ShiftLeftLogical, 3, 33, Some(6)),
        (Binary::ShiftRightArithmetic, minus_7, 33, Some(0xffff_fffc)),
    ];
    for (operation, a, b, wanted) in rows {
        assert_eq!(rt; binary_word(operation, a, b), wanted);
    }
    assert_eq!(rt; unary_word(Unary::BitCount, minus_7), 30);
    assert!(rt; compare_words(Comparison::SLessThan, minus_7, 2));
    assert!(rt; !logical_truth(Logical::LogicalEqual, false, true));
    Ok(())
}
