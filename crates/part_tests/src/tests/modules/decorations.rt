// The names and decorations of a small module.
use sample_modules::module_of;
use spv_decor::{Decor, text_of};
use spv_module::Id;
use spv_ops::Decoration;
use std::test::Fail;

// OpName %3 "ab", OpName %3 "zz", OpMemberName %3 1 "k", %5 DescriptorSet 7, %5 Binding 9, %3 Block,
// %3 1 Offset 4, %3 0 NonWritable; %2 uint, %3 struct of two, %4 pointer, %5 variable.
static MODULE: [u32; 51] = [
    0x07230203, 0x00010300, 0, 16, 0, 0x00030005, 3, 0x6261, 0x00030005, 3, 0x7A7A, 0x00040006, 3,
    1, 0x6B, 0x00040047, 5, 34, 7, 0x00040047, 5, 33, 9, 0x00030047, 3, 2, 0x00050048, 3, 1, 35, 4,
    0x00040048, 3, 0, 24, 0x00040015, 2, 32, 0, 0x0004001E, 3, 2, 2, 0x00040020, 4, 12, 3,
    0x0004003B, 4, 5, 12,
];

#[test]
fn names_and_decorations(rt: HostRuntime) -> Result<(), Fail> {
    let module = module_of(rt.alloc(), &[&MODULE])?;
    let decor = Decor::read(rt.alloc(), &module)?;
    assert_eq!(rt; decor.name(Id(3)), Some(b"ab".as_slice()));
    assert_eq!(rt; decor.name(Id(5)), None);
    assert_eq!(rt; decor.member_name(Id(3), 1), Some(b"k".as_slice()));
    assert_eq!(rt; decor.member_name(Id(3), 0), None);
    let of_ids = [
        (5, Decoration::DescriptorSet, Some(7)),
        (3, Decoration::Block, Some(0)),
        (5, Decoration::Block, None),
    ];
    for (id, decoration, value) in of_ids {
        assert_eq!(rt; decor.value(Id(id), decoration.number()), value);
    }
    let of_members = [
        (1, Decoration::Offset, Some(4)),
        (0, Decoration::NonWritable, Some(0)),
        (0, Decoration::Offset, None),
    ];
    for (member, decoration, value) in of_members {
        assert_eq!(rt;
            decor.member_value(Id(3), member, decoration.number()),
            value
        );
    }
    assert_eq!(rt;
        text_of(rt.alloc(), &[0x6261])?.as_slice(),
        b"ab".as_slice()
    );
    Ok(())
}
