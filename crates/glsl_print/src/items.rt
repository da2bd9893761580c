// Items.
ghost use Rattle.std.specs.Prelude.{◌≡◌, ◌++◌, map, option_map};
ghost use Rattle.glsl_ast.specs.Tree as tree;
ghost use Rattle.glsl_ast.specs.View.{name_text, type_of, expr_of, field_of, member_of, param_of, stmts_of, decl_of};
ghost use Rattle.glsl_grammar.specs.Layout.{rules_mark as mark_of_rules, kind_mark as mark_of_kind, inout_text, qual_mark as mark_of_qual, place_text, quals_text, field_text, fields_text, member_text, members_text, param_text, params_text, more_params_text, result_type_text, const_text, body_text, decl_text, decls_text};
ghost use Rattle.glsl_grammar.specs.Marks.{mark_text};
ghost use Rattle.glsl_print.specs.Parts.{named_text, line_text, memory_text, instance_text, block_text, head_text, offset_text};
ghost use Rattle.glsl_print.specs.Printed.{Goes};

use crate::expressions::print_value;
use crate::level::Level;
use crate::page::Page;
use crate::statements::print_body;
use crate::types::{print_number, print_type};
use cc_outside::Sink;
use glsl_ast::{
    BlockPlace, BlockRules, Decl, Expr, Field, Member, Name, Param, Qual, Stmt, TypeName,
};
use glsl_grammar::Mark;

// Prints a type and a name.
fn print_named<K: Sink>(ty: &TypeName, name: &Name, sink: &mut K, page: &mut Page)
    ensures { Goes K.written K.faults K.wants sink.old page.old (named_text (type_of ty.now) (name_text name.now)) sink.new page.new }
{
    print_type(ty, sink, page);
    page.put_mark(Mark::Space, sink);
    page.put(name.as_bytes(), sink);
}

// Prints a type and a name, and the end of the line.
fn print_line<K: Sink>(ty: &TypeName, name: &Name, sink: &mut K, page: &mut Page)
    ensures { Goes K.written K.faults K.wants sink.old page.old (line_text (type_of ty.now) (name_text name.now)) sink.new page.new }
{
    print_named(ty, name, sink, page);
    page.put_mark(Mark::End, sink);
}

fn print_field<K: Sink>(field: &Field, sink: &mut K, page: &mut Page)
    ensures { Goes K.written K.faults K.wants sink.old page.old (field_text (field_of field.now)) sink.new page.new }
{
    page.put_mark(Mark::Indent, sink);
    print_line(&field.ty, &field.name, sink, page);
}

fn print_fields<K: Sink>(fields: &[Field], sink: &mut K, page: &mut Page)
    ensures { Goes K.written K.faults K.wants sink.old page.old (fields_text (map field_of fields.now)) sink.new page.new }
{
    for field in fields {
        print_field(field, sink, page);
    }
}

fn qual_mark(qual: Qual) -> Mark
    ensures { result ≡ mark_of_qual qual }
{
    match qual {
        Qual::Coherent => Mark::Coherent,
        Qual::Volatile => Mark::Volatile,
        Qual::Restrict => Mark::Restrict,
        Qual::Readonly => Mark::Readonly,
        Qual::Writeonly => Mark::Writeonly,
    }
}

fn print_quals<K: Sink>(quals: &[Qual], sink: &mut K, page: &mut Page)
    ensures { Goes K.written K.faults K.wants sink.old page.old (quals_text quals.now) sink.new page.new }
{
    for qual in quals {
        page.put_mark(qual_mark(*qual), sink);
    }
}

fn print_offset<K: Sink>(offset: u32, sink: &mut K, page: &mut Page)
    ensures { Goes K.written K.faults K.wants sink.old page.old (offset_text offset) sink.new page.new }
{
    page.put_mark(Mark::Indent, sink);
    page.put_mark(Mark::Offset, sink);
    print_number(offset, sink, page);
    page.put_mark(Mark::OffsetClose, sink);
}

fn print_member<K: Sink>(member: &Member, sink: &mut K, page: &mut Page)
    ensures { Goes K.written K.faults K.wants sink.old page.old (member_text (member_of member.now)) sink.new page.new }
{
    print_offset(member.offset, sink, page);
    print_quals(&member.quals, sink, page);
    print_line(&member.ty, &member.name, sink, page);
}

fn print_members<K: Sink>(members: &[Member], sink: &mut K, page: &mut Page)
    ensures { Goes K.written K.faults K.wants sink.old page.old (members_text (map member_of members.now)) sink.new page.new }
{
    for member in members {
        print_member(member, sink, page);
    }
}

fn print_place<K: Sink>(place: BlockPlace, sink: &mut K, page: &mut Page)
    ensures { Goes K.written K.faults K.wants sink.old page.old (place_text place) sink.new page.new }
{
    match place {
        BlockPlace::Set { set, binding } => {
            page.put_mark(Mark::Set, sink);
            print_number(set, sink, page);
            page.put_mark(Mark::Binding, sink);
            print_number(binding, sink, page);
        }
        BlockPlace::Push => page.put_mark(Mark::PushConstant, sink),
    }
}

fn rules_mark(rules: BlockRules) -> Mark
    ensures { result ≡ mark_of_rules rules }
{
    match rules {
        BlockRules::Std430 => Mark::Std430,
        BlockRules::Std140 => Mark::Std140,
    }
}

// Prints the memory of a block: where it is bound, its rules, its qualifiers, and its kind.
fn print_memory<K: Sink>(
    place: BlockPlace,
    rules: BlockRules,
    quals: &[Qual],
    buffer: bool,
    sink: &mut K,
    page: &mut Page,
)
    ensures { Goes K.written K.faults K.wants sink.old page.old (memory_text place rules quals.now buffer) sink.new page.new }
{
    print_place(place, sink, page);
    page.put_mark(rules_mark(rules), sink);
    print_quals(quals, sink, page);
    page.put_mark(kind_mark(buffer), sink);
}

fn kind_mark(buffer: bool) -> Mark
    ensures { result ≡ mark_of_kind buffer }
{
    if buffer { Mark::Buffer } else { Mark::Uniform }
}

// Prints a block from its name on.
fn print_block<K: Sink>(
    name: &Name,
    members: &[Member],
    instance: &Name,
    sink: &mut K,
    page: &mut Page,
)
    ensures { Goes K.written K.faults K.wants sink.old page.old (block_text (name_text name.now) (map member_of members.now) (name_text instance.now)) sink.new page.new }
{
    page.put(name.as_bytes(), sink);
    page.put_mark(Mark::FieldsOpen, sink);
    print_members(members, sink, page);
    print_instance(instance, sink, page);
}

fn print_instance<K: Sink>(instance: &Name, sink: &mut K, page: &mut Page)
    ensures { Goes K.written K.faults K.wants sink.old page.old (instance_text (name_text instance.now)) sink.new page.new }
{
    page.put_mark(Mark::InstanceOpen, sink);
    page.put(instance.as_bytes(), sink);
    page.put_mark(Mark::End, sink);
}

fn print_inout<K: Sink>(inout: bool, sink: &mut K, page: &mut Page)
    ensures { Goes K.written K.faults K.wants sink.old page.old (inout_text inout) sink.new page.new }
{
    if inout {
        page.put_mark(Mark::Inout, sink);
    }
}

#[inline(always)]
fn print_param<K: Sink>(param: &Param, sink: &mut K, page: &mut Page)
    ensures { Goes K.written K.faults K.wants sink.old page.old (param_text (param_of param.now)) sink.new page.new }
{
    print_inout(param.inout, sink, page);
    print_named(&param.ty, &param.name, sink, page);
}

fn print_params<K: Sink>(params: &[Param], sink: &mut K, page: &mut Page)
    ensures { Goes K.written K.faults K.wants sink.old page.old (params_text (map param_of params.now)) sink.new page.new }
{
    if let [first, more @ ..] = params {
        print_param(first, sink, page);
        print_more_params(more, sink, page);
    }
}

// Prints the parameters behind the first one.
fn print_more_params<K: Sink>(params: &[Param], sink: &mut K, page: &mut Page)
    ensures { Goes K.written K.faults K.wants sink.old page.old (more_params_text (map param_of params.now)) sink.new page.new }
{
    for param in params {
        page.put_mark(Mark::Comma, sink);
        print_param(param, sink, page);
    }
}

fn print_result<K: Sink>(ty: &Option<TypeName>, sink: &mut K, page: &mut Page)
    ensures { Goes K.written K.faults K.wants sink.old page.old (result_type_text (option_map type_of ty.now)) sink.new page.new }
{
    match ty {
        None => page.put_mark(Mark::Void, sink),
        Some(ty) => {
            print_type(ty, sink, page);
            page.put_mark(Mark::Space, sink);
        }
    }
}

// Prints a function's name and parameters, up to its body.
fn print_head<K: Sink>(name: &Name, params: &[Param], sink: &mut K, page: &mut Page)
    ensures { Goes K.written K.faults K.wants sink.old page.old (head_text (name_text name.now) (map param_of params.now)) sink.new page.new }
{
    page.put(name.as_bytes(), sink);
    page.put_mark(Mark::Open, sink);
    print_params(params, sink, page);
    page.put_mark(Mark::BodyOpen, sink);
}

#[tactic(auto, using(crate::proofs::Levels::level_rows))]
fn print_function_body<K: Sink>(body: &[Stmt], sink: &mut K, page: &mut Page)
    ensures { Goes K.written K.faults K.wants sink.old page.old (body_text 1 (stmts_of body.now) ++ mark_text Mark.BodyClose) sink.new page.new }
{
    print_body(body, &Level::Top(1), sink, page);
    page.put_mark(Mark::BodyClose, sink);
}

// Prints what stands before a constant's type.
fn print_const_start<K: Sink>(id: Option<u32>, sink: &mut K, page: &mut Page)
    ensures { Goes K.written K.faults K.wants sink.old page.old (const_text id) sink.new page.new }
{
    match id {
        None => page.put_mark(Mark::Const, sink),
        Some(id) => {
            page.put_mark(Mark::ConstantId, sink);
            print_number(id, sink, page);
            page.put_mark(Mark::ConstAfterId, sink);
        }
    }
}

fn print_const<K: Sink>(
    id: Option<u32>,
    ty: &TypeName,
    name: &Name,
    value: &Expr,
    sink: &mut K,
    page: &mut Page,
)
    ensures { Goes K.written K.faults K.wants sink.old page.old (decl_text (tree.constant id (type_of ty.now) (name_text name.now) (expr_of value.now))) sink.new page.new }
{
    print_const_start(id, sink, page);
    print_named(ty, name, sink, page);
    print_value(Mark::Equals, value, sink, page);
}

fn print_function<K: Sink>(
    ty: &Option<TypeName>,
    name: &Name,
    params: &[Param],
    body: &[Stmt],
    sink: &mut K,
    page: &mut Page,
)
    ensures { Goes K.written K.faults K.wants sink.old page.old (decl_text (tree.function (option_map type_of ty.now) (name_text name.now) (map param_of params.now) (stmts_of body.now))) sink.new page.new }
{
    print_result(ty, sink, page);
    print_head(name, params, sink, page);
    print_function_body(body, sink, page);
}

fn print_struct<K: Sink>(name: &Name, fields: &[Field], sink: &mut K, page: &mut Page)
    ensures { Goes K.written K.faults K.wants sink.old page.old (decl_text (tree.Decl.struct (name_text name.now) (map field_of fields.now))) sink.new page.new }
{
    page.put_mark(Mark::Struct, sink);
    page.put(name.as_bytes(), sink);
    page.put_mark(Mark::FieldsOpen, sink);
    print_fields(fields, sink, page);
    page.put_mark(Mark::FieldsClose, sink);
}

fn print_decl<K: Sink>(decl: &Decl, sink: &mut K, page: &mut Page)
    ensures { Goes K.written K.faults K.wants sink.old page.old (decl_text (decl_of decl.now)) sink.new page.new }
{
    match decl {
        Decl::Struct { name, fields } => print_struct(name, fields, sink, page),
        Decl::Const {
            id,
            ty,
            name,
            value,
        } => print_const(*id, ty, name, value, sink, page),
        Decl::Shared { ty, name } => {
            page.put_mark(Mark::Shared, sink);
            print_line(ty, name, sink, page);
        }
        Decl::Global { ty, name, value } => {
            print_named(ty, name, sink, page);
            print_value(Mark::Equals, value, sink, page);
        }
        Decl::Block {
            place,
            rules,
            quals,
            buffer,
            name,
            members,
            instance,
        } => {
            print_memory(*place, *rules, quals, *buffer, sink, page);
            print_block(name, members, instance, sink, page);
        }
        Decl::Function {
            result: ty,
            name,
            params,
            body,
        } => print_function(ty, name, params, body, sink, page),
    }
}

/// Prints items.
pub fn print_decls<K: Sink>(decls: &[Decl], sink: &mut K, page: &mut Page)
    ensures { Goes K.written K.faults K.wants sink.old page.old (decls_text (map decl_of decls.now)) sink.new page.new }
{
    for decl in decls {
        print_decl(decl, sink, page);
    }
}
