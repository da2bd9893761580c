// The sizes and alignments of types, and the rules on layout that a type or a part of it breaks.
ghost use Rattle.std.specs.Prelude.{◌≡◌, ◌<◌, ◌≤◌, ◌||◌, ℕ, List, false};
ghost use Rattle.spv_module.specs.declared.inst.Inst.{Inst as InstOf};
ghost use Rattle.spv_types.specs.Tree.{vector as vector_tree, array, runtime, boolean, int, uint, struct as struct_tree};
ghost use Rattle.spv_types.specs.View.{tree_of, trees_of};
ghost use Rattle.layout_rules.specs.declared.Kind.{Kind as KindOf};
ghost use Rattle.layout_rules.specs.Rules.{has_bool as has_bool_in};
ghost use Rattle.buffer_layout.specs.Measures.{IsMeasure, IsMeasureOfStride, IsMeasureOfMembers, IsWhole, IsWithMember};

use crate::decorations::{is_not, is_other};
use crate::ruler::Ruler;
use crate::sizes::{
    CAP, MOST_ALIGNED, array_size, next_aligned, vector_alignment, whole_alignment, whole_size,
};
use spv_module::{Elem, Length, Shape};

/// What a layout makes of a type: its size, or `CAP` where it is greater, its alignment, and what is
/// wrong with it or with a part of it: a struct of which a member lacks its Offset; an array whose
/// ArrayStride is missing or not the layout's; a bool; a struct of which a member has another Offset
/// than the layout's; an end past the last byte.
#[derive(Clone, Copy)]
pub struct Measured {
    pub size: u64,
    pub alignment: u64,
    pub lacks_offset: bool,
    pub other_stride: bool,
    pub has_bool: bool,
    pub other_offset: bool,
    pub ends_past: bool,
}

/// One of the two.
pub fn either(a: bool, b: bool) -> bool
    ensures { result ≡ (a || b) }
{
    a || b
}

/// The measure of a scalar or a vector, in which nothing is wrong but a bool.
pub fn leaf(size: u64, alignment: u64, has_bool: bool) -> Measured
    ensures size { result.size ≡ size }
    ensures alignment { result.alignment ≡ alignment }
    ensures l1 { result.lacks_offset ≡ false }
    ensures l2 { result.other_stride ≡ false }
    ensures l3 { result.has_bool ≡ has_bool }
    ensures l6 { result.other_offset ≡ false }
    ensures l7 { result.ends_past ≡ false }
{
    Measured {
        size,
        alignment,
        lacks_offset: false,
        other_stride: false,
        has_bool,
        other_offset: false,
        ends_past: false,
    }
}

#[tactic(auto, unfolding(layout_rules::specs::Rules::breaks))]
fn bool_scalar() -> Measured
    ensures { (heads gs : List InstOf) (kind : KindOf) (id : ℕ) → IsMeasure heads gs kind id boolean result }
{
    leaf(4, 4, true)
}

#[tactic(auto, unfolding(layout_rules::specs::Rules::breaks))]
fn int_scalar() -> Measured
    ensures int { (heads gs : List InstOf) (kind : KindOf) (id : ℕ) → IsMeasure heads gs kind id int result }
    ensures uint { (heads gs : List InstOf) (kind : KindOf) (id : ℕ) → IsMeasure heads gs kind id uint result }
{
    leaf(4, 4, false)
}

fn is_bool(elem: Elem) -> bool
    ensures { (size : ℕ) → result ≡ has_bool_in (vector_tree elem size) }
{
    matches!(elem, Elem::Bool)
}

#[tactic(auto, unfolding(layout_rules::specs::Rules::breaks))]
fn vector(elem: Elem, size: u8) -> Measured
    ensures { (heads gs : List InstOf) (kind : KindOf) (id : ℕ) → IsMeasure heads gs kind id (vector_tree elem size) result }
{
    leaf(4 * u64::from(size), vector_alignment(size), is_bool(elem))
}

/// The measure of a type from that of its parts, its size and its alignment.
fn whole(parts: Measured, size: u64, alignment: u64) -> Measured
    ensures { IsWhole parts size alignment result }
{
    Measured {
        size,
        alignment,
        ends_past: either(size >= CAP, parts.ends_past),
        ..parts
    }
}

/// Members that were measured, and one more behind them that has this Offset.
fn with_member(before: Measured, member: Measured, offset: Option<u32>) -> Measured
    requires within { before.size ≤ CAP }
    requires positive { 0 < member.alignment }
    requires small { member.alignment ≤ MOST_ALIGNED }
    requires size { member.size ≤ CAP }
    ensures { IsWithMember before member offset result }
{
    let place = next_aligned(before.size, member.alignment);
    let differs = is_other(offset, place);
    Measured {
        size: CAP.min(place + member.size),
        alignment: before.alignment.max(member.alignment),
        lacks_offset: either(
            before.lacks_offset,
            either(offset.is_none(), member.lacks_offset),
        ),
        other_stride: either(before.other_stride, member.other_stride),
        has_bool: either(before.has_bool, member.has_bool),
        other_offset: either(before.other_offset, either(differs, member.other_offset)),
        ends_past: either(before.ends_past, member.ends_past),
    }
}

/// The measure of the type with this id and this shape. Each part is measured once.
#[cycle(measuring)]
#[tactic(auto, using(spv_types::proofs::Views::shape_rows))]
pub fn measure(ruler: &Ruler, id: u32, shape: &Shape) -> Measured
    ensures { IsMeasure ruler.now.heads ruler.now.globals ruler.now.kind id (tree_of shape.now) result }
{
    match shape {
        Shape::Bool => bool_scalar(),
        Shape::Int => int_scalar(),
        Shape::Uint => int_scalar(),
        Shape::Vector(elem, size) => vector(*elem, *size),
        Shape::Array(part, length) => measure_array(ruler, id, part, *length),
        Shape::Runtime(part) => measure_runtime(ruler, id, part),
        Shape::Struct(_, members) => measure_struct(ruler, id, members),
    }
}

/// The elements of an array, as if one stride were its size.
#[cycle(measuring)]
#[tactic(auto, using(crate::proofs::Measures::stride_rules))]
pub fn measure_stride(ruler: &Ruler, id: u32, part: &Shape) -> Measured
    ensures { IsMeasureOfStride ruler.now.heads ruler.now.globals ruler.now.kind id (tree_of part.now) result }
{
    let element = measure(ruler, ruler.part_id(id, 0), part);
    let stride = whole_size(element.size, element.alignment, ruler.kind());
    let differs = is_not(ruler.stride_of(id), stride);
    whole(
        Measured {
            other_stride: either(differs, element.other_stride),
            ..element
        },
        stride,
        whole_alignment(element.alignment, ruler.kind()),
    )
}

#[cycle(measuring)]
fn measure_array(ruler: &Ruler, id: u32, part: &Shape, length: Length) -> Measured
    ensures { IsMeasure ruler.now.heads ruler.now.globals ruler.now.kind id (array (tree_of part.now) length) result }
{
    let elements = measure_stride(ruler, id, part);
    whole(
        elements,
        array_size(elements.size, length),
        elements.alignment,
    )
}

#[cycle(measuring)]
fn measure_runtime(ruler: &Ruler, id: u32, part: &Shape) -> Measured
    ensures { IsMeasure ruler.now.heads ruler.now.globals ruler.now.kind id (runtime (tree_of part.now)) result }
{
    let elements = measure_stride(ruler, id, part);
    whole(elements, 0, elements.alignment)
}

#[cycle(measuring)]
fn measure_struct(ruler: &Ruler, id: u32, members: &[Shape]) -> Measured
    ensures { (n : ℕ) → IsMeasure ruler.now.heads ruler.now.globals ruler.now.kind id (struct_tree n (trees_of members.now)) result }
{
    let members = measure_members(ruler, id, members);
    whole(
        members,
        whole_size(members.size, members.alignment, ruler.kind()),
        whole_alignment(members.alignment, ruler.kind()),
    )
}

/// The members of a struct: their end and their greatest alignment, or 1.
#[cycle(measuring)]
fn measure_members(ruler: &Ruler, id: u32, members: &[Shape]) -> Measured
    ensures { IsMeasureOfMembers ruler.now.heads ruler.now.globals ruler.now.kind id (trees_of members.now) result }
{
    let mut all = leaf(0, 1, false);
    for (k, member) in members.iter().enumerate() {
        let found = measure(ruler, ruler.part_id(id, k), member);
        all = with_member(all, found, ruler.offset_of(id, k));
    }
    all
}
