// The lines of a run.
ghost use Rattle.std.specs.Prelude.{◌≡◌, ◌*◌, ◌++◌, codes, length, map, string_bytes, IfOk, OnOk, IsTrue};
ghost use Rattle.std.specs.List.{flat_map, list_all};
ghost use Rattle.std.specs.Fmt.{decimal};
ghost use Rattle.traces.specs.Events.{buffer};
ghost use Rattle.group_items.specs.Events.{location_of, events_of};
ghost use Rattle.group_sched.specs.Stores.{words_in};
ghost use Rattle.dispatch_case.specs.Cases.{buffer_view, is_short};
ghost use Rattle.run_lines.specs.Lines.{words_text, row_name, row_line, end_line as line_of_end, last_lines as lines_of_end, AreLines};

use crate::rows::{Row, rows_in_order};
use group_sched::{End, Event, LeafPlace, Store};
use itoa::Buffer;
use spv_words::Memory;
use std::alloc::{AllocError, Global};

/// The place of a word of a buffer.
fn place(row: Row, k: u32) -> LeafPlace
    ensures { location_of result ≡ buffer row.0 row.1 (4 * k) }
{
    LeafPlace::Buffer(row.0, row.1, 4 * u64::from(k))
}

/// Adds a blank and a number.
fn push_number(text: &mut String, number: u32) -> Result<(), Memory>
    ensures { OnOk result (string_bytes text.new ≡ string_bytes text.old ++ (codes " " ++ decimal number)) }
{
    text.push_str(" ")?;
    text.push_str(Buffer::new().format(number))?;
    Ok(())
}

/// Adds a blank and a number for each word of a buffer, as the memory has them.
fn push_words(text: &mut String, store: &Store, row: Row) -> Result<(), Memory>
    ensures { OnOk result (string_bytes text.new ≡ string_bytes text.old ++ words_text (words_in store.now) row) }
{
    for k in 0..row.2 {
        push_number(text, store.word(0, &place(row, k)))?;
    }
    Ok(())
}

fn name_of(alloc: Global, row: Row) -> Result<String, AllocError>
    ensures { IfOk result (λ name. string_bytes name ≡ row_name row) }
{
    let (set, binding, _) = row;
    format!(in alloc; "{set}.{binding}:")
}

/// Adds the line of a buffer.
fn push_row(alloc: Global, text: &mut String, store: &Store, row: Row) -> Result<(), Memory>
    ensures { OnOk result (string_bytes text.new ≡ string_bytes text.old ++ row_line (words_in store.now) row) }
{
    let name = name_of(alloc, row)?;
    text.push_str(name.as_str())?;
    push_words(text, store, row)?;
    text.push_str("\n")?;
    Ok(())
}

fn push_rows(alloc: Global, text: &mut String, store: &Store, rows: &[Row]) -> Result<(), Memory>
    ensures { OnOk result (string_bytes text.new ≡ string_bytes text.old ++ flat_map (row_line (words_in store.now)) rows.now) }
{
    for row in rows {
        push_row(alloc, text, store, *row)?;
    }
    Ok(())
}

fn end_line(alloc: Global, end: End) -> Result<String, AllocError>
    ensures { IfOk result (λ line. string_bytes line ≡ line_of_end end) }
{
    match end {
        End::Ended => String::from_str(alloc, "ended\n"),
        End::Waiting => String::from_str(alloc, "waiting\n"),
        End::Undefined(who) => format!(in alloc; "undefined {who}\n"),
        End::Cut(who) => format!(in alloc; "cut {who}\n"),
    }
}

/// The lines behind those of the buffers.
fn last_lines(alloc: Global, count: usize, end: End) -> Result<String, AllocError>
    ensures { IfOk result (λ lines. string_bytes lines ≡ lines_of_end count end) }
{
    let line = end_line(alloc, end)?;
    let end = line.as_str();
    format!(in alloc; "events {count}\n{end}")
}

/// How many events there are.
pub fn count_of(events: &[(u32, Event)]) -> usize
    ensures { result ≡ length (events_of events.now) }
{
    events.len()
}

/// The lines of a run of so many events: of the buffers of its case as the memory has them, and of its end.
pub fn lines_of(
    alloc: Global,
    buffers: &[(u32, u32, Vec<u32>)],
    store: &Store,
    count: usize,
    end: End,
) -> Result<String, Memory>
    requires { IsTrue (list_all (λ b. is_short b.2) (map buffer_view buffers.now)) }
    ensures { IfOk result (λ text. AreLines (map buffer_view buffers.now) (words_in store.now) count end (string_bytes text)) }
{
    let rows = rows_in_order(alloc, buffers)?;
    let mut text = String::new(alloc);
    push_rows(alloc, &mut text, store, &rows)?;
    let last = last_lines(alloc, count, end)?;
    text.push_str(last.as_str())?;
    Ok(text)
}
