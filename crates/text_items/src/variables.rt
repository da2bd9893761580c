// The declarations of variables.
ghost use Rattle.std.specs.Prelude.{◌≡◌, ◌∷◌, [], IfOk};
ghost use Rattle.std.specs.List.{All};
ghost use Rattle.glsl_ast.specs.View.{decl_of, expr_of, type_of};
ghost use Rattle.layout_rules.specs.Blocks.{block_of as block_of_variable};
ghost use Rattle.text_rules.specs.Declarations.{type_at as type_at_of, zero_at as zero_at_of, pointee_at as pointee_at_of, initial as initial_of, variable_decl};
ghost use Rattle.few_law.specs.Short.{HasFewArgs};
ghost use Rattle.text_items.specs.Names.{item_names};
ghost use Rattle.text_items.specs.Wording.{source_of, names_of};
ghost use Rattle.text_items.specs.Plain.{shared_decl, private_decl, plain_decl};

use crate::Written;
use crate::blocks::declare_block;
use crate::constants::{expr_at, type_at, zero_at};
use crate::needed::is_private;
use crate::shapes::pointee_at;
use crate::wording::Wording;
use buffer_layout::block_of;
use constant_text::{Readings, name};
use glsl_ast::{Decl, Expr, TypeName};
use name_alloc::{Key, Names};
use spv_module::{Id, Inst};
use spv_words::Memory;
use std::alloc::Global;

/// The name of the type that a pointer type points to.
fn type_behind(wording: &Wording, ty: u32) -> Result<TypeName, Memory>
    ensures { IfOk result (λ t. type_of t ≡ type_at_of (source_of wording.now) (names_of wording.now) (pointee_at_of (source_of wording.now) ty)) }
{
    let pointee = pointee_at(wording.readings.module(), ty);
    type_at(wording, pointee)
}

/// The zero of the type that a pointer type points to.
fn zero_behind(wording: &Wording, ty: u32) -> Result<Expr, Memory>
    ensures { IfOk result (λ e. expr_of e ≡ zero_at_of (source_of wording.now) (names_of wording.now) (pointee_at_of (source_of wording.now) ty)) }
{
    let pointee = pointee_at(wording.readings.module(), ty);
    zero_at(wording, pointee)
}

fn begin(wording: &Wording, inst: &Inst) -> Result<Expr, Memory>
    ensures { IfOk result (λ e. expr_of e ≡ initial_of (source_of wording.now) (names_of wording.now) inst.now) }
{
    match inst.args.as_slice().get(1) {
        None => zero_behind(wording, inst.ty),
        Some(id) => expr_at(wording, *id),
    }
}

/// What a variable begins with: its initializer, or zero. There is an error only for want of memory.
pub fn initial(
    alloc: Global,
    readings: &Readings,
    names: &Names,
    inst: &Inst,
) -> Result<Expr, Memory>
    ensures { IfOk result (λ e. expr_of e ≡ initial_of readings.now (item_names readings.now names.now) inst.now) }
{
    let wording = Wording {
        alloc,
        readings,
        names,
    };
    begin(&wording, inst)
}

/// The declaration of a Workgroup variable (GLSL 4.60, section 4.3.8).
fn declare_shared(wording: &Wording, inst: &Inst) -> Result<Decl, Memory>
    ensures { IfOk result (λ d. decl_of d ≡ shared_decl (source_of wording.now) (names_of wording.now) inst.now) }
{
    Ok(Decl::Shared {
        ty: type_behind(wording, inst.ty)?,
        name: name(wording.alloc, wording.names, Key::Id(Id(inst.result)))?,
    })
}

/// The declaration of a Private variable (GLSL 4.60, section 4.3).
fn declare_private(wording: &Wording, inst: &Inst) -> Result<Decl, Memory>
    ensures { IfOk result (λ d. decl_of d ≡ private_decl (source_of wording.now) (names_of wording.now) inst.now) }
{
    Ok(Decl::Global {
        ty: type_behind(wording, inst.ty)?,
        name: name(wording.alloc, wording.names, Key::Id(Id(inst.result)))?,
        value: begin(wording, inst)?,
    })
}

/// The declaration of a variable that is no block.
fn declare_plain(wording: &Wording, inst: &Inst) -> Result<Decl, Memory>
    ensures { IfOk result (λ d. decl_of d ≡ plain_decl (source_of wording.now) (names_of wording.now) inst.now) }
{
    if is_private(inst) {
        declare_private(wording, inst)
    } else {
        declare_shared(wording, inst)
    }
}

/// The declaration of a variable.
pub fn declare_variable(
    alloc: Global,
    written: &Written,
    names: &Names,
    inst: &Inst,
) -> Result<Decl, Memory>
    requires { All HasFewArgs written.now.source.of.globals }
    ensures { IfOk result (λ d. decl_of d ∷ [] ≡ variable_decl written.now.source (item_names written.now.source names.now) inst.now (block_of_variable written.now.source.of.globals inst.now)) }
{
    let wording = Wording {
        alloc,
        readings: written.readings(),
        names,
    };
    match block_of(written.module(), inst) {
        Some(block) => declare_block(alloc, written, names, inst, block),
        None => declare_plain(&wording, inst),
    }
}
