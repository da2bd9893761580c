// The declarations of blocks (GLSL 4.60, section 4.3.9).
ghost use Rattle.std.specs.Prelude.{◌≡◌, ◌<◌, ◌^◌, IfOk, length, map};
ghost use Rattle.std.specs.List.{enumerate_from};
ghost use Rattle.layout_rules.specs.Blocks.{kind_at};
ghost use Rattle.glsl_ast.specs.View.{decl_of, member_of, type_of};
ghost use Rattle.text_rules.specs.Declarations.{type_at as type_at_of, is_buffer as is_buffer_variable, place_of as place_of_variable, rules_by as rules_by_kind, member_decl, block_decl};
ghost use Rattle.few_law.specs.Short.{HasFewArgs};
ghost use Rattle.text_items.specs.Names.{item_names};

use crate::Written;
use crate::constants::type_at;
use crate::numbers::counted;
use crate::qualifiers::{member_qualifiers, variable_qualifiers};
use crate::wording::Wording;
use buffer_layout::{Kind, kind_of};
use constant_text::name;
use glsl_ast::{BlockPlace, BlockRules, Decl, Member, TypeName};
use name_alloc::{Key, Names};
use spv_decor::Decor;
use spv_index::is_storage_struct;
use spv_module::{Id, Inst, Module};
use spv_ops::{Decoration, StorageClass};
use spv_words::Memory;
use std::alloc::Global;

/// Whether a variable with this struct is a storage block.
fn is_buffer(written: &Written, variable: &Inst, block: &Inst) -> bool
    ensures { result ≡ is_buffer_variable written.now.source variable.now block.now }
{
    is_storage_struct(written.decor(), variable.operand(0), Id(block.result))
}

fn place_of(written: &Written, inst: &Inst) -> BlockPlace
    ensures { result ≡ place_of_variable written.now.source inst.now }
{
    if inst.operand(0) == StorageClass::PushConstant.number() {
        return BlockPlace::Push;
    }
    let id = Id(inst.result);
    let decor = written.decor();
    BlockPlace::Set {
        set: decor
            .value(id, Decoration::DescriptorSet.number())
            .unwrap_or(0),
        binding: decor.value(id, Decoration::Binding.number()).unwrap_or(0),
    }
}

fn rules_by(kind: Option<Kind>) -> BlockRules
    ensures { result ≡ rules_by_kind kind }
{
    match kind {
        Some(Kind::Std140) => BlockRules::Std140,
        Some(Kind::Std430) | None => BlockRules::Std430,
    }
}

/// The rules by which the block of a variable is laid out, std430 where none fits.
fn rules_of(
    alloc: Global,
    module: &Module,
    decor: &Decor,
    variable: &Inst,
    block: &Inst,
) -> Result<BlockRules, Memory>
    ensures { IfOk result (λ rules. rules ≡ rules_by_kind (kind_at decor.now «module».now.globals variable.now block.now)) }
{
    let kind = kind_of(alloc, module, decor, variable, block)?;
    Ok(rules_by(kind))
}

/// The name of the type of a member.
fn type_in(alloc: Global, written: &Written, names: &Names, ty: u32) -> Result<TypeName, Memory>
    ensures { IfOk result (λ t. type_of t ≡ type_at_of written.now.source (item_names written.now.source names.now) ty) }
{
    let wording = Wording {
        alloc,
        readings: written.readings(),
        names,
    };
    type_at(&wording, ty)
}

/// A member of a block, by its number and the id of its type.
fn member(
    alloc: Global,
    written: &Written,
    names: &Names,
    variable: &Inst,
    block: &Inst,
    k: usize,
    part: u32,
) -> Result<Member, Memory>
    requires { k < 2 ^ 32 }
    ensures { IfOk result (λ m. member_of m ≡ member_decl written.now.source (item_names written.now.source names.now) variable.now block.now (k, part)) }
{
    let decor = written.decor();
    let id = Id(block.result);
    let number = counted(k);
    let buffer = is_buffer(written, variable, block);
    let quals = member_qualifiers(alloc, decor, buffer, id, number)?;
    let value = decor.member_value(id, number, Decoration::Offset.number());
    let offset = value.unwrap_or(0);
    let ty = type_in(alloc, written, names, part)?;
    let name = name(alloc, names, Key::Member(id, number))?;
    Ok(Member {
        offset,
        quals,
        ty,
        name,
    })
}

fn members(
    alloc: Global,
    written: &Written,
    names: &Names,
    variable: &Inst,
    block: &Inst,
    types: &[u32],
) -> Result<Vec<Member>, Memory>
    requires { length types.now < 2 ^ 32 }
    ensures { IfOk result (λ members. map member_of members.items ≡ map (member_decl written.now.source (item_names written.now.source names.now) variable.now block.now) (enumerate_from 0 types.now)) }
{
    let mut members = Vec::new(alloc);
    for (k, ty) in types.iter().enumerate() {
        let member = member(alloc, written, names, variable, block, k, *ty)?;
        members.push(member)?;
    }
    Ok(members)
}

/// The declaration of the block of a variable.
pub fn declare_block(
    alloc: Global,
    written: &Written,
    names: &Names,
    variable: &Inst,
    block: &Inst,
) -> Result<Decl, Memory>
    requires { HasFewArgs block.now }
    ensures { IfOk result (λ d. decl_of d ≡ block_decl written.now.source (item_names written.now.source names.now) variable.now block.now) }
{
    let id = Id(variable.result);
    let buffer = is_buffer(written, variable, block);
    let rules = rules_of(alloc, written.module(), written.decor(), variable, block)?;
    Ok(Decl::Block {
        place: place_of(written, variable),
        rules,
        quals: variable_qualifiers(alloc, written.decor(), buffer, id)?,
        buffer,
        name: name(alloc, names, Key::Block(id, Id(block.result)))?,
        members: members(
            alloc,
            written,
            names,
            variable,
            block,
            block.args.as_slice(),
        )?,
        instance: name(alloc, names, Key::Id(id))?,
    })
}
