// How large parts of a module are.
use spv_module::Function;

/// How many instructions a function has.
fn size_of(function: &Function) -> usize {
    let mut size: usize = 0;
    for block in function.blocks.as_slice() {
        size = size.saturating_add(block.insts.len());
    }
    size
}

/// How many instructions some functions have, by which tables of their ids are sized.
pub fn count_of(functions: &[Function]) -> usize {
    let mut count: usize = 0;
    for function in functions {
        count = count.saturating_add(size_of(function));
    }
    count
}
