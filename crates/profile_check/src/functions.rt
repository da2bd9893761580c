// What the functions of a module define.
ghost use Rattle.std.specs.Prelude.{◌≡◌, IfOk};

use spv_index::Locals;
use spv_module::Function;
use spv_words::Memory;
use std::alloc::Global;

/// What each of these functions defines. There is an error only for want of memory.
pub fn locals_of<'a>(alloc: Global, functions: &'a [Function]) -> Result<Vec<Locals<'a>>, Memory>
    ensures { IfOk result (λ list. list.items ≡ functions.now) }
{
    let mut list = Vec::with_capacity(alloc, functions.len())?;
    for function in functions {
        list.push(Locals::of(alloc, function)?)?;
    }
    Ok(list)
}
