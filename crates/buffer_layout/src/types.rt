// The shape of a member's type, and the layout of a type.
ghost use Rattle.std.specs.Prelude.{◌≡◌, IfOk, IfErr, OnOk, find, option_map};
ghost use Rattle.spv_types.specs.View.{tree_of};
ghost use Rattle.spv_types.specs.Types.{IsWithin, tree_before, type_tree};
ghost use Rattle.layout_rules.specs.Sizes.{layout_or_zeros};
ghost use Rattle.layout_rules.specs.Parts.{any_part};
ghost use Rattle.layout_rules.specs.Rules.{breaks as breaks_in};
ghost use Rattle.layout_rules.specs.Blocks.{place_of as place_in, type_rules, type_breaks, IsRightOfType};
ghost use Rattle.buffer_layout.specs.Plan.{type_layout};

use crate::layouts::{layout_of, zeros};
use crate::measure::measure;
use crate::plan::Layout;
use crate::ruler::Ruler;
use layout_rules::Kind;
use spv_decor::Decor;
use spv_module::{Id, Inst, Module, Shape};
use spv_types::{judged_shape, shape};
use spv_words::{Fault, Memory, Refusal, Rule};
use std::alloc::Global;

/// The shape of a type that stands before a struct, where no such type passes a limit.
#[tactic(auto, using(spv_types::proofs::Below::tree_before_is))]
pub fn shape_before(
    alloc: Global,
    module: &Module,
    id: u32,
    block: &Inst,
) -> Result<Option<Shape>, Memory>
    ensures { IfOk result (λ s. option_map tree_of s ≡ tree_before «module».now.globals block.now.at id) }
{
    match module.global(Id(id)) {
        Some(inst) if inst.at < block.at => judged_shape(alloc, module, Id(id)),
        _ => Ok(None),
    }
}

/// Where a global stands, or 0.
fn place_of(module: &Module, id: Id) -> u32
    ensures { result ≡ place_in «module».now.globals id.0 }
{
    module.global(id).map_or(0, |inst| inst.at)
}

/// The first rule that the type with this id and this shape, or a part of it, breaks by itself.
fn first_broken(ruler: &Ruler, id: u32, shape: &Shape) -> Option<Rule>
    ensures { result ≡ find (λ rule. any_part (breaks_in ruler.now.heads ruler.now.kind rule) ruler.now.globals id (tree_of shape.now)) type_rules }
{
    let found = measure(ruler, id, shape);
    if found.other_stride {
        return Some(Rule::L2);
    }
    if found.has_bool {
        return Some(Rule::L3);
    }
    if found.ends_past {
        return Some(Rule::L7);
    }
    None
}

/// The layout of a type by std430 or std140, or zeros where the type has no shape. A length that is
/// a specialization constant counts 0 (SPIR-V 1.6, section 2.16.2; OpenGL 4.6, section 7.6.2.2).
///
/// It refuses, at the variable, by L2: an ArrayStride that is missing or not the layout's; L3: a
/// bool; L7: an end past the last byte that 32 bits can number. An end is that of an array, of one
/// of its elements or of a struct. It refuses by the limits on types where the type passes one.
#[tactic(auto, using(crate::proofs::Taken::type_fits))]
pub fn layout(
    alloc: Global,
    module: &Module,
    decor: &Decor,
    variable: Id,
    ty: Id,
    kind: Kind,
) -> Result<Layout, Fault>
    ensures layout { IfOk result (λ l. type_layout l ≡ layout_or_zeros kind (type_tree «module».now.globals ty.0)) }
    ensures within { OnOk result (IsWithin «module».now.globals ty.0) }
    ensures passes { OnOk result (find (type_breaks decor.now «module».now.globals kind ty.0) type_rules ≡ None) }
    ensures refused { IfErr result (IsRightOfType decor.now «module».now.globals kind variable.0 ty.0) }
{
    let Some(shape) = shape(alloc, module, ty)? else {
        return Ok(zeros(alloc));
    };
    let ruler = Ruler::new(module, decor, kind);
    match first_broken(&ruler, ty.0, &shape) {
        Some(rule) => Err(Fault::Refused(Refusal {
            rule,
            at: place_of(module, variable),
        })),
        None => Ok(layout_of(alloc, &ruler, ty.0, &shape)?),
    }
}
