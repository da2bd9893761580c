// The members of a block, and the rules on layout that they break.
ghost use Rattle.std.specs.Prelude.{◌≡◌, ◌+◌, ◌≤◌, ℕ, IfOk, map, min, nat_lt, option_map, false};
ghost use Rattle.std.specs.List.{list_any};
ghost use Rattle.std.specs.Option.{option_map_or};
ghost use Rattle.layout_rules.specs.Rules.{is_past};
ghost use Rattle.layout_rules.specs.Blocks.{members_of as members_in, is_misaligned as is_misaligned_in, end_of, begins_below as begins_below_in, any_overlap as any_overlap_in, member_breaks as member_breaks_in, members_break as members_break_in, first_broken as first_broken_in};
ghost use Rattle.buffer_layout.specs.Members.{member_of};
ghost use Rattle.buffer_layout.specs.Measures.{IsMeasureOfMember};

use crate::decorations::offset_of;
use crate::measure::{Measured, either, leaf, measure};
use crate::ruler::Ruler;
use crate::sizes::CAP;
use crate::types::shape_before;
use spv_decor::Decor;
use spv_module::{Inst, Module, Shape};
use spv_words::{Memory, Rule};
use std::alloc::Global;

/// A member of a block: the id of its type, its Offset where it has one, and its shape where its
/// type has one and stands before the block.
#[derive(Drop)]
pub struct Member {
    pub id: u32,
    pub offset: Option<u32>,
    pub shape: Option<Shape>,
}

/// The members of a block whose type passes no limit.
#[tactic(auto, using(crate::proofs::Rows::member_rows))]
pub fn members_of(
    alloc: Global,
    module: &Module,
    decor: &Decor,
    block: &Inst,
) -> Result<Vec<Member>, Memory>
    ensures { IfOk result (λ v. map member_of v.items ≡ members_in decor.now «module».now.globals block.now) }
{
    let mut members = Vec::new(alloc);
    for (k, id) in block.args.as_slice().iter().enumerate() {
        members.push(Member {
            id: *id,
            offset: offset_of(decor, block.result, k),
            shape: shape_before(alloc, module, *id, block)?,
        })?;
    }
    Ok(members)
}

/// The measure of a member's type, in which nothing is wrong where it has no shape.
fn measure_inside(ruler: &Ruler, member: &Member) -> Measured
    ensures { IsMeasureOfMember ruler.now.heads ruler.now.globals ruler.now.kind (member_of member.now) result }
{
    match &member.shape {
        Some(shape) => measure(ruler, member.id, shape),
        None => leaf(0, 1, false),
    }
}

/// The Offset of a member is no multiple of its alignment.
fn is_misaligned(ruler: &Ruler, member: &Member) -> bool
    ensures { result ≡ is_misaligned_in ruler.now.kind (member_of member.now) }
{
    match (member.offset, &member.shape) {
        (Some(offset), Some(shape)) => {
            u64::from(offset) % measure(ruler, member.id, shape).alignment != 0
        }
        _ => false,
    }
}

/// Where something ends that stands at an offset; its size is counted up to `CAP`.
fn end_behind(offset: u32, size: u64) -> u64
    requires { size ≤ CAP }
    ensures { (n : ℕ) → size ≡ min CAP n → min CAP result ≡ min CAP (offset + n) }
{
    u64::from(offset) + size
}

/// Where a member ends; its size is counted up to `CAP`.
fn end_capped(ruler: &Ruler, member: &Member) -> u64
    ensures { min CAP result ≡ min CAP (end_of ruler.now.kind (member_of member.now)) }
{
    match (member.offset, &member.shape) {
        (Some(offset), Some(shape)) => { end_behind(offset, measure(ruler, member.id, shape).size) }
        _ => 0,
    }
}

/// The end of a member is past the last byte.
#[tactic(auto, using(crate::proofs::Steps::past_of_capped))]
fn is_end_past(ruler: &Ruler, member: &Member) -> bool
    ensures { result ≡ is_past (end_of ruler.now.kind (member_of member.now)) }
{
    end_capped(ruler, member) >= CAP
}

/// An offset is below an end that is counted up to `CAP`.
#[tactic(auto, using(crate::proofs::Steps::capped_below))]
fn is_below(offset: u32, end: u64) -> bool
    ensures { (n : ℕ) → min CAP end ≡ min CAP n → result ≡ nat_lt offset n }
{
    u64::from(offset) < end
}

/// A member begins below the end of another.
fn begins_below(ruler: &Ruler, other: &Member, member: &Member) -> bool
    ensures { result ≡ begins_below_in ruler.now.kind (member_of other.now) (member_of member.now) }
{
    match (member.offset, &member.shape) {
        (Some(offset), Some(_)) => is_below(offset, end_capped(ruler, other)),
        _ => false,
    }
}

/// A member begins below the end of the one directly before it, where there is one.
fn overlaps(ruler: &Ruler, before: Option<&Member>, member: &Member) -> bool
    ensures { result ≡ option_map_or (λ other. begins_below_in ruler.now.kind other (member_of member.now)) (option_map (λ b. member_of b.now) before.entry) false }
{
    match before {
        Some(other) => begins_below(ruler, other, member),
        None => false,
    }
}

/// Some member does.
#[tactic(auto, using(crate::proofs::Rows::overlap_rows))]
fn any_overlap(ruler: &Ruler, members: &[Member]) -> bool
    ensures { result ≡ any_overlap_in ruler.now.kind None (map member_of members.now) }
{
    let mut before: Option<&Member> = None;
    for member in members {
        if overlaps(ruler, before, member) {
            return true;
        }
        before = Some(member);
    }
    false
}

/// A member breaks a rule.
#[tactic(auto, unfolding(layout_rules::specs::Blocks::member_breaks))]
fn member_breaks(ruler: &Ruler, rule: Rule, member: &Member) -> bool
    ensures { result ≡ member_breaks_in ruler.now.heads ruler.now.globals ruler.now.kind rule (member_of member.now) }
{
    match rule {
        Rule::L1 => either(
            member.offset.is_none(),
            measure_inside(ruler, member).lacks_offset,
        ),
        Rule::L2 => measure_inside(ruler, member).other_stride,
        Rule::L3 => measure_inside(ruler, member).has_bool,
        Rule::L4 => is_misaligned(ruler, member),
        Rule::L6 => measure_inside(ruler, member).other_offset,
        Rule::L7 => either(
            is_end_past(ruler, member),
            measure_inside(ruler, member).ends_past,
        ),
        _ => false,
    }
}

/// Some member does.
#[tactic(auto, using(crate::proofs::Rows::any_rows))]
fn some_breaks(ruler: &Ruler, rule: Rule, members: &[Member]) -> bool
    ensures { result ≡ list_any (member_breaks_in ruler.now.heads ruler.now.globals ruler.now.kind rule) (map member_of members.now) }
{
    for member in members {
        if member_breaks(ruler, rule, member) {
            return true;
        }
    }
    false
}

/// A block with these members breaks a rule.
#[tactic(auto, unfolding(layout_rules::specs::Blocks::members_break))]
fn members_break(ruler: &Ruler, rule: Rule, members: &[Member]) -> bool
    ensures { result ≡ members_break_in ruler.now.heads ruler.now.globals ruler.now.kind (map member_of members.now) rule }
{
    match rule {
        Rule::L5 => any_overlap(ruler, members),
        _ => some_breaks(ruler, rule, members),
    }
}

/// The first rule that a block with these members breaks.
pub fn first_broken(ruler: &Ruler, members: &[Member]) -> Option<Rule>
    ensures { result ≡ first_broken_in ruler.now.heads ruler.now.globals ruler.now.kind (map member_of members.now) }
{
    [
        Rule::L1,
        Rule::L2,
        Rule::L3,
        Rule::L4,
        Rule::L5,
        Rule::L6,
        Rule::L7,
    ]
    .iter()
    .copied()
    .find(|rule| members_break(ruler, *rule, members))
}
