// Items.
ghost use Rattle.std.specs.Prelude.{◌≡◌, map, option_map, IfOk};
ghost use Rattle.std.specs.List.{list_all};
ghost use Rattle.glsl_ast.specs.Tree as tree;
ghost use Rattle.glsl_ast.specs.View.{name_text, type_of, expr_of, stmts_of, field_of, member_of, param_of, decl_of};
ghost use Rattle.text_check.specs.Items as test;
ghost use Rattle.text_check.specs.Words.{declares};

use crate::expressions::is_expr;
use crate::names::{Structs, declare, is_name};
use crate::statements::are_stmts;
use crate::types::{is_spelled, is_type};
use glsl_ast::{BlockPlace, Decl, Expr, Field, Member, Name, Param, Stmt, TypeName};
use spv_words::Memory;
use std::alloc::Global;

/// Whether the type and the name are in the grammar.
#[inline(always)]
fn is_named(structs: &Structs, ty: &TypeName, name: &Name) -> bool
    ensures { result ≡ test.is_named (declares structs.now) (type_of ty.now) (name_text name.now) }
{
    is_type(structs, ty) && is_name(name)
}

fn each_field(structs: &Structs, fields: &[Field]) -> bool
    ensures { result ≡ list_all (λ f. test.is_field (declares structs.now) (field_of f)) fields.now }
{
    fields
        .iter()
        .all(|field| is_named(structs, &field.ty, &field.name))
}

/// Whether there are fields, and each is in the grammar.
fn are_fields(structs: &Structs, fields: &[Field]) -> bool
    ensures { result ≡ test.are_fields (declares structs.now) (map field_of fields.now) }
{
    !fields.is_empty() && each_field(structs, fields)
}

fn each_member(structs: &Structs, members: &[Member]) -> bool
    ensures { result ≡ list_all (λ m. test.is_member (declares structs.now) (member_of m)) members.now }
{
    members.iter().all(|member| is_member(structs, member))
}

/// Whether there are members, and each is in the grammar.
fn are_members(structs: &Structs, members: &[Member]) -> bool
    ensures { result ≡ test.are_members (declares structs.now) (map member_of members.now) }
{
    !members.is_empty() && each_member(structs, members)
}

fn is_member(structs: &Structs, member: &Member) -> bool
    ensures { result ≡ test.is_member (declares structs.now) (member_of member.now) }
{
    is_spelled(member.offset) && is_named(structs, &member.ty, &member.name)
}

fn are_params(structs: &Structs, params: &[Param]) -> bool
    ensures { result ≡ list_all (λ p. test.is_param (declares structs.now) (param_of p)) params.now }
{
    params
        .iter()
        .all(|param| is_named(structs, &param.ty, &param.name))
}

fn is_place(place: BlockPlace) -> bool
    ensures { result ≡ test.is_place place }
{
    match place {
        BlockPlace::Set { set, binding } => is_spelled(set) && is_spelled(binding),
        BlockPlace::Push => true,
    }
}

fn is_result(structs: &Structs, ty: &Option<TypeName>) -> bool
    ensures { result ≡ test.is_result (declares structs.now) (option_map type_of ty.now) }
{
    match ty {
        None => true,
        Some(ty) => is_type(structs, ty),
    }
}

fn is_id(id: Option<u32>) -> bool
    ensures { result ≡ test.is_id id }
{
    match id {
        None => true,
        Some(id) => is_spelled(id),
    }
}

/// Whether the parts of a variable or a constant that has a value are in the grammar.
fn is_valued(structs: &Structs, ty: &TypeName, name: &Name, value: &Expr) -> bool
    ensures { result ≡ test.is_valued (declares structs.now) (type_of ty.now) (name_text name.now) (expr_of value.now) }
{
    is_named(structs, ty, name) && is_expr(structs, value)
}

fn is_block(structs: &Structs, name: &Name, members: &[Member], instance: &Name) -> bool
    ensures { result ≡ test.is_block (declares structs.now) (name_text name.now) (map member_of members.now) (name_text instance.now) }
{
    is_name(name) && is_name(instance) && are_members(structs, members)
}

#[tactic(auto, using(crate::proofs::Lists::list_rules))]
fn is_function(
    structs: &Structs,
    ty: &Option<TypeName>,
    name: &Name,
    params: &[Param],
    body: &[Stmt],
) -> bool
    ensures { result ≡ test.is_item (declares structs.now) (tree.function (option_map type_of ty.now) (name_text name.now) (map param_of params.now) (stmts_of body.now)) }
{
    is_result(structs, ty)
        && is_name(name)
        && are_params(structs, params)
        && are_stmts(structs, body)
}

/// Whether the item is in the grammar, where these structs are declared.
fn is_item(structs: &Structs, item: &Decl) -> bool
    ensures { result ≡ test.is_item (declares structs.now) (decl_of item.now) }
{
    match item {
        Decl::Struct { name, fields } => is_name(name) && are_fields(structs, fields),
        Decl::Const {
            id,
            ty,
            name,
            value,
        } => is_id(*id) && is_valued(structs, ty, name, value),
        Decl::Shared { ty, name } => is_named(structs, ty, name),
        Decl::Global { ty, name, value } => is_valued(structs, ty, name, value),
        Decl::Block {
            place,
            name,
            members,
            instance,
            ..
        } => is_place(*place) && is_block(structs, name, members, instance),
        Decl::Function {
            result: ty,
            name,
            params,
            body,
        } => is_function(structs, ty, name, params, body),
    }
}

/// Whether each of the items is in the grammar, where a struct is declared from the next item on.
pub fn are_items(alloc: Global, items: &[Decl]) -> Result<bool, Memory>
    ensures { IfOk result (λ b. b ≡ test.are_items test.none (map decl_of items.now)) }
{
    let mut structs = Structs::new(alloc);
    for item in items {
        if !is_item(&structs, item) {
            return Ok(false);
        }
        declare(alloc, &mut structs, item)?;
    }
    Ok(true)
}
