// Types, and numbers.
ghost use Rattle.std.specs.Prelude.{◌≡◌, ◌<◌, ◌++◌, map};
ghost use Rattle.std.specs.Fmt.{decimal};
ghost use Rattle.glsl_ast.specs.View.{base_of, extent_of, type_of};
ghost use Rattle.glsl_grammar.specs.Layout.{hex_digit as digit_text, hex_text, literal_text, extent_text, extents_text, base_text, type_text};
ghost use Rattle.glsl_grammar.specs.Marks.{mark_text};
ghost use Rattle.glsl_print.specs.Printed.{Goes};

use crate::page::Page;
use cc_outside::Sink;
use glsl_ast::{Base, Extent, Literal, TypeName};
use glsl_grammar::Mark;
use itoa::Buffer;

/// Prints a number in decimal. Many have one digit.
#[inline(always)]
pub fn print_number<K: Sink>(number: u32, sink: &mut K, page: &mut Page)
    ensures { Goes K.written K.faults K.wants sink.old page.old (decimal number) sink.new page.new }
{
    if number < 10 {
        page.put(&[48 + number as u8], sink);
    } else {
        print_digits(number, sink, page);
    }
}

#[inline(always)]
fn print_digits<K: Sink>(number: u32, sink: &mut K, page: &mut Page)
    ensures { Goes K.written K.faults K.wants sink.old page.old (decimal number) sink.new page.new }
{
    let mut buffer = Buffer::new();
    page.put(buffer.format(number).as_bytes(), sink);
}

fn hex_digit(digit: u32) -> u8
    requires { digit < 16 }
    ensures { result ≡ digit_text digit }
{
    let digit = digit as u8;
    if digit < 10 { 48 + digit } else { 55 + digit }
}

fn hex_digits(number: u32) -> [u8; 8]
    ensures { result ≡ hex_text number }
{
    [
        hex_digit(number / 0x1000_0000 % 16),
        hex_digit(number / 0x100_0000 % 16),
        hex_digit(number / 0x10_0000 % 16),
        hex_digit(number / 0x1_0000 % 16),
        hex_digit(number / 0x1000 % 16),
        hex_digit(number / 0x100 % 16),
        hex_digit(number / 0x10 % 16),
        hex_digit(number % 16),
    ]
}

/// Prints a literal.
#[inline(always)]
pub fn print_literal<K: Sink>(literal: Literal, sink: &mut K, page: &mut Page)
    ensures { Goes K.written K.faults K.wants sink.old page.old (literal_text literal) sink.new page.new }
{
    match literal {
        Literal::Int(number) => print_number(number, sink, page),
        Literal::Uint(number) => {
            print_number(number, sink, page);
            page.put_mark(Mark::Suffix, sink);
        }
        Literal::Hex(number) => {
            page.put_mark(Mark::Hex, sink);
            page.put(&hex_digits(number), sink);
        }
        Literal::Truth(true) => page.put_mark(Mark::True, sink),
        Literal::Truth(false) => page.put_mark(Mark::False, sink),
    }
}

// Prints a vector type: its word, and how many components it has.
#[inline(always)]
fn print_vector<K: Sink>(word: Mark, size: u8, sink: &mut K, page: &mut Page)
    ensures { Goes K.written K.faults K.wants sink.old page.old (mark_text word ++ decimal size) sink.new page.new }
{
    page.put_mark(word, sink);
    print_number(u32::from(size), sink, page);
}

#[inline(always)]
fn print_base<K: Sink>(base: &Base, sink: &mut K, page: &mut Page)
    ensures { Goes K.written K.faults K.wants sink.old page.old (base_text (base_of base.now)) sink.new page.new }
{
    match base {
        Base::Bool => page.put_mark(Mark::Bool, sink),
        Base::Int => page.put_mark(Mark::Int, sink),
        Base::Uint => page.put_mark(Mark::Uint, sink),
        Base::BoolVec(size) => print_vector(Mark::BoolVec, *size, sink, page),
        Base::IntVec(size) => print_vector(Mark::IntVec, *size, sink, page),
        Base::UintVec(size) => print_vector(Mark::UintVec, *size, sink, page),
        Base::Struct(name) => page.put(name.as_bytes(), sink),
    }
}

fn print_extent<K: Sink>(extent: &Extent, sink: &mut K, page: &mut Page)
    ensures { Goes K.written K.faults K.wants sink.old page.old (extent_text (extent_of extent.now)) sink.new page.new }
{
    match extent {
        Extent::Open => page.put_mark(Mark::OpenExtent, sink),
        Extent::Number(length) => {
            page.put_mark(Mark::BracketOpen, sink);
            print_number(*length, sink, page);
            page.put_mark(Mark::BracketClose, sink);
        }
        Extent::Name(name) => {
            page.put_mark(Mark::BracketOpen, sink);
            page.put(name.as_bytes(), sink);
            page.put_mark(Mark::BracketClose, sink);
        }
        Extent::Size(axis) => {
            page.put_mark(Mark::SizeExtent, sink);
            page.put(axis.as_bytes(), sink);
            page.put_mark(Mark::BracketClose, sink);
        }
    }
}

/// Prints a type.
#[inline(always)]
pub fn print_type<K: Sink>(ty: &TypeName, sink: &mut K, page: &mut Page)
    ensures { Goes K.written K.faults K.wants sink.old page.old (type_text (type_of ty.now)) sink.new page.new }
{
    print_base(&ty.base, sink, page);
    print_extents(&ty.extents, sink, page);
}

#[inline(always)]
fn print_extents<K: Sink>(extents: &[Extent], sink: &mut K, page: &mut Page)
    ensures { Goes K.written K.faults K.wants sink.old page.old (extents_text (map extent_of extents.now)) sink.new page.new }
{
    for extent in extents {
        print_extent(extent, sink, page);
    }
}
