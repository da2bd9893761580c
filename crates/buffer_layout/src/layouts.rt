// The layouts of shapes, where no end is past the last byte.
ghost use Rattle.std.specs.Prelude.{◌≡◌, ◌≤◌, IfOk, map, unwrap_or, false};
ghost use Rattle.std.specs.Option.{option_map_or};
ghost use Rattle.spv_types.specs.View.{tree_of, trees_of};
ghost use Rattle.layout_rules.specs.Sizes.{stride_of as stride_in, offsets_of as offsets_in, offsets_from, end_from, layout_of as layout_in, layout_or_zeros, no_layout};
ghost use Rattle.layout_rules.specs.Rules.{ends_past};
ghost use Rattle.buffer_layout.specs.Members.{member_of};
ghost use Rattle.buffer_layout.specs.Plan.{type_layout, layouts_of, is_too_large, IsPlan, AllFit};

use crate::measure::{measure, measure_stride};
use crate::members::Member;
use crate::plan::{BlockPlan, Layout};
use crate::ruler::Ruler;
use crate::sizes::{LAST, next_aligned};
use spv_module::Shape;
use spv_words::Memory;
use std::alloc::Global;

/// The stride of an array, or 0.
#[tactic(auto, using(spv_types::proofs::Views::shape_rows, crate::proofs::Fits::stride_fits))]
fn stride_of(ruler: &Ruler, id: u32, shape: &Shape) -> u32
    requires { ends_past ruler.now.kind (tree_of shape.now) ≡ false }
    ensures { result ≡ option_map_or (λ n. n) (stride_in ruler.now.kind (tree_of shape.now)) 0 }
{
    match shape {
        Shape::Array(part, _) | Shape::Runtime(part) => {
            measure_stride(ruler, id, part).size as u32
        }
        _ => 0,
    }
}

/// The offsets of members that stand one behind the other from byte 0 on.
#[tactic(auto, using(crate::proofs::Fits::offset_rules))]
fn offsets_behind(
    alloc: Global,
    ruler: &Ruler,
    id: u32,
    members: &[Shape],
) -> Result<Vec<u32>, Memory>
    requires { end_from ruler.now.kind 0 (trees_of members.now) ≤ LAST }
    ensures { IfOk result (λ v. v.items ≡ offsets_from ruler.now.kind 0 (trees_of members.now)) }
{
    let mut offsets = Vec::new(alloc);
    let mut end: u64 = 0;
    for (k, member) in members.iter().enumerate() {
        let found = measure(ruler, ruler.part_id(id, k), member);
        let offset = next_aligned(end, found.alignment);
        offsets.push(offset as u32)?;
        end = offset + found.size;
    }
    Ok(offsets)
}

/// The offsets of a struct's members; there are none of another type.
#[tactic(auto, using(spv_types::proofs::Views::shape_rows, crate::proofs::Fits::members_fit))]
fn offsets_of(alloc: Global, ruler: &Ruler, id: u32, shape: &Shape) -> Result<Vec<u32>, Memory>
    requires { ends_past ruler.now.kind (tree_of shape.now) ≡ false }
    ensures { IfOk result (λ v. v.items ≡ offsets_in ruler.now.kind (tree_of shape.now)) }
{
    match shape {
        Shape::Struct(_, members) => offsets_behind(alloc, ruler, id, members),
        _ => Ok(Vec::new(alloc)),
    }
}

/// The layout of the type with this id and this shape.
#[tactic(auto, using(crate::proofs::Fits::size_fits))]
pub fn layout_of(alloc: Global, ruler: &Ruler, id: u32, shape: &Shape) -> Result<Layout, Memory>
    requires { ends_past ruler.now.kind (tree_of shape.now) ≡ false }
    ensures { IfOk result (λ l. type_layout l ≡ layout_in ruler.now.kind (tree_of shape.now)) }
{
    let found = measure(ruler, id, shape);
    Ok(Layout {
        size: found.size as u32,
        align: found.alignment as u32,
        stride: stride_of(ruler, id, shape),
        offsets: offsets_of(alloc, ruler, id, shape)?,
    })
}

/// Zeros, where there is no shape.
pub fn zeros(alloc: Global) -> Layout
    ensures { type_layout result ≡ no_layout }
{
    Layout {
        size: 0,
        align: 0,
        stride: 0,
        offsets: Vec::new(alloc),
    }
}

/// The layout of a member's type.
fn member_layout(alloc: Global, ruler: &Ruler, member: &Member) -> Result<Layout, Memory>
    requires { is_too_large ruler.now.kind (member_of member.now) ≡ false }
    ensures { IfOk result (λ l. type_layout l ≡ layout_or_zeros ruler.now.kind (member_of member.now).shape) }
{
    match &member.shape {
        Some(shape) => layout_of(alloc, ruler, member.id, shape),
        None => Ok(zeros(alloc)),
    }
}

/// The layouts of the types of members.
#[tactic(auto, using(crate::proofs::Fits::layout_rows))]
fn layouts(alloc: Global, ruler: &Ruler, members: &[Member]) -> Result<Vec<Layout>, Memory>
    requires { AllFit ruler.now.kind (map member_of members.now) }
    ensures { IfOk result (λ v. map type_layout v.items ≡ layouts_of ruler.now.kind (map member_of members.now)) }
{
    let mut layouts = Vec::new(alloc);
    for member in members {
        layouts.push(member_layout(alloc, ruler, member)?)?;
    }
    Ok(layouts)
}

/// The Offsets of members, 0 where there is none.
#[tactic(auto, using(crate::proofs::Fits::number_rows))]
fn offsets(alloc: Global, members: &[Member]) -> Result<Vec<u32>, Memory>
    ensures { IfOk result (λ v. v.items ≡ map (λ m. unwrap_or m.offset 0) (map member_of members.now)) }
{
    let mut offsets = Vec::new(alloc);
    for member in members {
        offsets.push(member.offset.unwrap_or(0))?;
    }
    Ok(offsets)
}

/// The plan of a block with these members.
pub fn plan(alloc: Global, ruler: &Ruler, members: &[Member]) -> Result<BlockPlan, Memory>
    requires { AllFit ruler.now.kind (map member_of members.now) }
    ensures { IfOk result (IsPlan ruler.now.kind (map member_of members.now)) }
{
    Ok(BlockPlan {
        kind: ruler.kind(),
        members: layouts(alloc, ruler, members)?,
        offsets: offsets(alloc, members)?,
    })
}
