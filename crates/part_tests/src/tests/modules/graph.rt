// The graph of a small function.
use block_graph::{control_flow, terminator};
use sample_modules::module_of;
use spv_index::Locals;
use std::test::Fail;
use structure_rules::{Exit, Merge, Node};

// A loop, the block behind it, and a switch that is not reached.
static MODULE: [u32; 41] = [
    0x7230203, 0x10300, 0, 0x400, 0, 0x50036, 6, 1, 0, 7, 0x200f8, 16, 0x200f9, 31, 0x200f8, 31,
    0x400f6, 35, 34, 0, 0x400fa, 23, 34, 35, 0x200f8, 34, 0x200f9, 31, 0x200f8, 35, 0x100fd,
    0x200f8, 40, 0x700fb, 23, 35, 1, 34, 2, 35, 0x10038,
];

type Row = (u32, (Merge, u32), (Exit, u32), &'static [usize], bool);

fn is_as(node: &Node, row: &Row) -> bool {
    node.at == row.0
        && (node.merge, node.merge_at) == row.1
        && (node.exit, node.exit_at) == row.2
        && node.targets.as_slice() == row.3
        && node.reached == row.4
}

#[test]
fn tells_the_graph(rt: HostRuntime) -> Result<(), Fail> {
    let module = module_of(rt.alloc(), &[&MODULE])?;
    let function = module.functions().first().expect(&rt, "one function");
    let locals = Locals::of(rt.alloc(), function)?;
    let graph = control_flow(rt.alloc(), &locals)?;
    let rows: [Row; 5] = [
        (10, (Merge::Absent, 0), (Exit::Branch, 12), &[1], true),
        (
            14,
            (Merge::Loop(3, 2), 16),
            (Exit::Conditional, 20),
            &[2, 3],
            true,
        ),
        (24, (Merge::Absent, 0), (Exit::Branch, 26), &[1], true),
        (28, (Merge::Absent, 0), (Exit::Leave, 30), &[], true),
        (
            31,
            (Merge::Absent, 0),
            (Exit::Switch, 33),
            &[3, 2, 3],
            false,
        ),
    ];
    assert_eq!(rt; graph.len(), rows.len());
    for (k, (node, row)) in graph.iter().zip(&rows).enumerate() {
        assert!(rt; is_as(node, row), "block {k}");
    }
    let first = function.blocks.as_slice().first().ok_or("no block")?;
    assert_eq!(rt; terminator(first).map(|inst| inst.at), Some(12));
    Ok(())
}
