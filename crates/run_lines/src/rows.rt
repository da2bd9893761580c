// The buffers of a case in order.
ghost use Rattle.std.specs.Prelude.{◌≡◌, ◌≤◌, length, map, IfOk, IsTrue};
ghost use Rattle.std.specs.List.{list_all};
ghost use Rattle.dispatch_case.specs.Cases.{buffer_view, is_short, most_numbers};
ghost use Rattle.run_lines.specs.Lines.{AreInOrder};

use spv_words::Memory;
use std::alloc::Global;

/// A buffer: its descriptor set, its binding, and how many words it has.
pub type Row = (u32, u32, u32);

fn count(words: &[u32]) -> u32
    requires { length words.now ≤ most_numbers }
    ensures { result ≡ length words.now }
{
    words.len() as u32
}

/// The buffers in the order of their sets, and in a set of their bindings.
pub fn rows_in_order(alloc: Global, buffers: &[(u32, u32, Vec<u32>)]) -> Result<Vec<Row>, Memory>
    requires { IsTrue (list_all (λ b. is_short b.2) (map buffer_view buffers.now)) }
    ensures { IfOk result (λ rows. AreInOrder (map buffer_view buffers.now) rows.items) }
{
    let mut rows = Vec::with_capacity(alloc, buffers.len())?;
    for buffer in buffers {
        rows.push((buffer.0, buffer.1, count(&buffer.2)))?;
    }
    rows.sort_unstable();
    Ok(rows)
}
