// Blocks and shared variables.
ghost use Rattle.std.specs.Prelude.{◌≡◌, map, option_map, IfOk};
ghost use Rattle.std.specs.List.{filter_map};
ghost use Rattle.glsl_ast.specs.View.{decl_of, member_of};
ghost use Rattle.text_report.specs.Blocks.{set_number, binding_number, kind_text, qualifier_text, member_data, qualifier_data, block_data, shared_data, item_data};
ghost use Rattle.serde_json.specs.View.{view};
ghost use Rattle.glsl_grammar.specs.Token.{rules_word};

use crate::sizes::optional;
use crate::types::type_name;
use glsl_ast::{BlockPlace, BlockRules, Decl, Member, Qual};
use serde_json::{Value, json};
use std::alloc::{AllocError, Global};

fn set_of(place: BlockPlace) -> Option<u32>
    ensures { result ≡ set_number place }
{
    match place {
        BlockPlace::Set { set, binding: _ } => Some(set),
        BlockPlace::Push => None,
    }
}

fn binding_of(place: BlockPlace) -> Option<u32>
    ensures { result ≡ binding_number place }
{
    match place {
        BlockPlace::Set { set: _, binding } => Some(binding),
        BlockPlace::Push => None,
    }
}

fn kind_of(place: BlockPlace, buffer: bool) -> &'static str
    ensures { result.now ≡ kind_text place buffer }
{
    match (place, buffer) {
        (BlockPlace::Push, _) => "push",
        (_, true) => "buffer",
        (_, false) => "uniform",
    }
}

fn rules_of(rules: BlockRules) -> &'static str
    ensures { result.now ≡ rules_word rules }
{
    match rules {
        BlockRules::Std430 => "std430",
        BlockRules::Std140 => "std140",
    }
}

fn qualifier_of(qual: Qual) -> &'static str
    ensures { result.now ≡ qualifier_text qual }
{
    match qual {
        Qual::Coherent => "coherent",
        Qual::Volatile => "volatile",
        Qual::Restrict => "restrict",
        Qual::Readonly => "readonly",
        Qual::Writeonly => "writeonly",
    }
}

fn qualifiers(alloc: Global, quals: &[Qual]) -> Result<Vec<Value>, AllocError>
    ensures { IfOk result (λ list. map view list.items ≡ map qualifier_data quals.now) }
{
    let mut list = Vec::new(alloc);
    for qual in quals {
        list.push(Value::try_from_str(alloc, qualifier_of(*qual))?)?;
    }
    Ok(list)
}

fn member_value(alloc: Global, member: &Member) -> Result<Value, AllocError>
    ensures { IfOk result (λ v. view v ≡ member_data (member_of member.now)) }
{
    let ty = type_name(alloc, &member.ty)?;
    json!(in alloc; {"name": member.name.as_str(), "offset": member.offset, "type": ty})
}

fn members(alloc: Global, members: &[Member]) -> Result<Vec<Value>, AllocError>
    ensures { IfOk result (λ list. map view list.items ≡ map member_data (map member_of members.now)) }
{
    let mut list = Vec::new(alloc);
    for member in members {
        list.push(member_value(alloc, member)?)?;
    }
    Ok(list)
}

/// What is told of an item that is a block.
fn block_value(alloc: Global, item: &Decl) -> Result<Option<Value>, AllocError>
    ensures { IfOk result (λ v. option_map view v ≡ block_data (decl_of item.now)) }
{
    match item {
        Decl::Block {
            place,
            rules,
            quals,
            buffer,
            name,
            members: parts,
            instance: _,
        } => Ok(Some(json!(in alloc; {
            "binding": optional(binding_of(*place)),
            "kind": kind_of(*place, *buffer),
            "layout": rules_of(*rules),
            "members": members(alloc, parts)?,
            "name": name.as_str(),
            "qualifiers": qualifiers(alloc, quals)?,
            "set": optional(set_of(*place)),
        })?)),
        _ => Ok(None),
    }
}

/// What is told of an item that is a shared variable.
fn shared_value(alloc: Global, item: &Decl) -> Result<Option<Value>, AllocError>
    ensures { IfOk result (λ v. option_map view v ≡ shared_data (decl_of item.now)) }
{
    match item {
        Decl::Shared { ty, name } => {
            let ty = type_name(alloc, ty)?;
            Ok(Some(json!(in alloc; {"name": name.as_str(), "type": ty})?))
        }
        _ => Ok(None),
    }
}

/// The items of which a list tells.
#[derive(Clone, Copy)]
pub enum Told {
    Blocks,
    SharedVariables,
}

fn item_value(alloc: Global, told: Told, item: &Decl) -> Result<Option<Value>, AllocError>
    ensures { IfOk result (λ v. option_map view v ≡ item_data told (decl_of item.now)) }
{
    match told {
        Told::Blocks => block_value(alloc, item),
        Told::SharedVariables => shared_value(alloc, item),
    }
}

/// What is told of the blocks, or of the shared variables, among the items.
pub fn items_told(alloc: Global, told: Told, items: &[Decl]) -> Result<Vec<Value>, AllocError>
    ensures { IfOk result (λ list. map view list.items ≡ filter_map (item_data told) (map decl_of items.now)) }
{
    let mut list = Vec::new(alloc);
    for item in items {
        if let Some(value) = item_value(alloc, told, item)? {
            list.push(value)?;
        }
    }
    Ok(list)
}
