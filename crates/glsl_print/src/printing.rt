// The whole text.
ghost use Rattle.std.specs.Prelude.{◌≡◌, OnOk};
ghost use Rattle.std.specs.Io.KnownBytes.{Appends};
ghost use Rattle.cc_outside.specs.Causes.{AppendsPrefix, HasCauseOf};
ghost use Rattle.glsl_ast.specs.View.{unit_of};
ghost use Rattle.glsl_grammar.specs.Layout.{size_mark as mark_of_size, size_text, sizes_text, more_sizes_text, unit_text};
ghost use Rattle.glsl_grammar.specs.InGrammar.{IsInGrammar};
ghost use Rattle.glsl_print.specs.Printed.{Goes};
ghost use Rattle.glsl_print.specs.Reads.{AppendsTextOf};

use crate::PrintEnd;
use crate::items::print_decls;
use crate::page::Page;
use crate::types::print_number;
use cc_outside::Sink;
use glsl_ast::{Size, Unit};
use glsl_grammar::Mark;

fn size_mark(axis: u8, by_id: bool) -> Mark
    ensures { result ≡ mark_of_size axis by_id }
{
    match (axis, by_id) {
        (0, false) => Mark::SizeX,
        (0, true) => Mark::SizeXId,
        (1, false) => Mark::SizeY,
        (1, true) => Mark::SizeYId,
        (_, false) => Mark::SizeZ,
        (_, true) => Mark::SizeZId,
    }
}

fn print_size<K: Sink>(size: Size, sink: &mut K, page: &mut Page)
    ensures { Goes K.written K.faults K.wants sink.old page.old (size_text size) sink.new page.new }
{
    page.put_mark(size_mark(size.axis, size.by_id), sink);
    print_number(size.number, sink, page);
}

fn print_sizes<K: Sink>(sizes: &[Size], sink: &mut K, page: &mut Page)
    ensures { Goes K.written K.faults K.wants sink.old page.old (sizes_text sizes.now) sink.new page.new }
{
    if let [first, more @ ..] = sizes {
        print_size(*first, sink, page);
        print_more_sizes(more, sink, page);
    }
}

// Prints the sizes behind the first one.
fn print_more_sizes<K: Sink>(sizes: &[Size], sink: &mut K, page: &mut Page)
    ensures { Goes K.written K.faults K.wants sink.old page.old (more_sizes_text sizes.now) sink.new page.new }
{
    for size in sizes {
        page.put_mark(Mark::Comma, sink);
        print_size(*size, sink, page);
    }
}

fn print_unit<K: Sink>(unit: &Unit, sink: &mut K, page: &mut Page)
    ensures { Goes K.written K.faults K.wants sink.old page.old (unit_text (unit_of unit.now)) sink.new page.new }
{
    page.put_mark(Mark::Version, sink);
    print_sizes(&unit.sizes, sink, page);
    page.put_mark(Mark::SizesEnd, sink);
    print_decls(&unit.items, sink, page);
}

// Prints a unit, through a page of its own.
pub fn print_text<K: Sink>(unit: &Unit, sink: &mut K) -> Result<(), PrintEnd>
    ensures all { OnOk result (Appends (K.written sink.old) (K.written sink.new) (unit_text (unit_of unit.now))) }
    ensures front { AppendsPrefix (K.written sink.old) (K.written sink.new) (unit_text (unit_of unit.now)) }
    ensures fault { HasCauseOf PrintEnd.Fault (K.faults sink.old) (K.faults sink.new) result }
    ensures want { HasCauseOf PrintEnd.Memory (K.wants sink.old) (K.wants sink.new) result }
{
    let mut page = Page::new();
    print_unit(unit, sink, &mut page);
    page.hand_on(sink);
    page.status()
}

/// Prints a unit that is in the grammar, so that the text reads back as the unit. The sink is handed pieces of 4,096 bytes, and a last one that is shorter.
///
/// It ends with `Fault` where a write to the sink failed, and with `Memory` where the sink had no memory. The sink has
/// then taken the front of the text.
pub fn print<K: Sink>(unit: &Unit, sink: &mut K) -> Result<(), PrintEnd>
    requires { IsInGrammar (unit_of unit.now) }
    ensures reads_back { OnOk result (AppendsTextOf (K.written sink.old) (K.written sink.new) (unit_of unit.now)) }
    ensures all { OnOk result (Appends (K.written sink.old) (K.written sink.new) (unit_text (unit_of unit.now))) }
    ensures front { AppendsPrefix (K.written sink.old) (K.written sink.new) (unit_text (unit_of unit.now)) }
    ensures fault { HasCauseOf PrintEnd.Fault (K.faults sink.old) (K.faults sink.new) result }
    ensures want { HasCauseOf PrintEnd.Memory (K.wants sink.old) (K.wants sink.new) result }
{
    print_text(unit, sink)
}
