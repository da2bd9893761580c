// The events of an invocation, one after another.
ghost use Rattle.std.specs.Prelude.{IfOk, OnErr};
ghost use Rattle.step_run.specs.Kept.{IsTelling, IsSame};

use crate::copies::copied;
use crate::row::Row;
use group_items::Event;
use spv_words::Memory;
use std::alloc::Global;

/// Tells the first event that was made and not told yet, if there is one.
pub fn tell(alloc: Global, row: &mut Row) -> Result<Option<Event>, Memory>
    ensures told { IfOk result (IsTelling row.old row.new) }
    ensures err { OnErr result (IsSame row.old row.new) }
{
    if row.untold.is_empty() {
        return Ok(None);
    }
    let copy = copied(alloc, &row.untold[0])?;
    row.told.push(copy)?;
    let event = row.untold.remove(0);
    Ok(Some(event))
}
