// The items of a schedule.
ghost use Rattle.std.specs.Prelude.{◌≡◌, ◌≤◌, ◌++◌, ◌∷◌, [], IfOk, OnOk};
ghost use Rattle.group_items.specs.Schedule.{among, turn};

use spv_words::Memory;
use std::alloc::Global;

/// Adds an item, if it names one of so many invocations.
fn add_naming(list: &mut Vec<u32>, item: u32, count: usize) -> Result<(), Memory>
    ensures { OnOk result (list.new.items ≡ list.old.items ++ among count (item ∷ [])) }
{
    if item as usize >= count {
        return Ok(());
    }
    list.push(item)?;
    Ok(())
}

/// The items that name one of so many invocations.
pub fn naming(alloc: Global, items: &[u32], count: usize) -> Result<Vec<u32>, Memory>
    ensures { IfOk result (λ list. list.items ≡ among count items.now) }
{
    let mut list = Vec::new(alloc);
    for item in items {
        add_naming(&mut list, *item, count)?;
    }
    Ok(list)
}

/// Each of so many invocations once.
pub fn whole_round(alloc: Global, count: usize) -> Result<Vec<u32>, Memory>
    requires { count ≤ 1024 }
    ensures { IfOk result (λ list. list.items ≡ turn count) }
{
    let mut list = Vec::with_capacity(alloc, count)?;
    for k in 0..count {
        list.push(k as u32)?;
    }
    Ok(list)
}
