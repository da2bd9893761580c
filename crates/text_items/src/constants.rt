// The declarations of constants and of structs.
ghost use Rattle.std.specs.Prelude.{◌≡◌, ◌<◌, ◌^◌, IfOk, length, map};
ghost use Rattle.std.specs.List.{All, enumerate_from};
ghost use Rattle.std.specs.Option.{option_copied};
ghost use Rattle.glsl_ast.specs.View.{decl_of, expr_of, field_of, type_of};
ghost use Rattle.profile_rules.specs.Constants.{constant_kind};
ghost use Rattle.profile_rules.specs.declared.constant.ConstantKind.TheVariants.{Composite};
ghost use Rattle.text_rules.specs.Declarations.{type_at as type_at_of, zero_at as zero_at_of, expr_at as expr_at_of, value_by, constant_decl, struct_decl};
ghost use Rattle.constant_text.specs.Named.{id_names};
ghost use Rattle.few_law.specs.Short.{HasFewArgs};
ghost use Rattle.text_items.specs.Names.{field_at, expr_if_any};
ghost use Rattle.text_items.specs.Wording.{source_of, names_of};

use crate::calculated::calculated;
use crate::numbers::counted;
use crate::shapes::shape_at;
use crate::wording::Wording;
use constant_text::name;
use glsl_ast::{Decl, Expr, Field, Literal, TypeName};
use name_alloc::Key;
use profile_rules::ConstantKind;
use spv_module::{Id, Inst};
use spv_words::Memory;

/// The name of a type (GLSL 4.60, section 4.1). There is an error only for want of memory.
pub fn type_at(wording: &Wording, ty: u32) -> Result<TypeName, Memory>
    ensures { IfOk result (λ t. type_of t ≡ type_at_of (source_of wording.now) (names_of wording.now) ty) }
{
    wording
        .readings
        .type_name_of(wording.alloc, wording.names, ty)
}

/// The zero of a type.
pub fn zero_at(wording: &Wording, ty: u32) -> Result<Expr, Memory>
    ensures { IfOk result (λ e. expr_of e ≡ zero_at_of (source_of wording.now) (names_of wording.now) ty) }
{
    let shape = shape_at(wording.alloc, wording.readings.module(), ty)?;
    wording
        .readings
        .zero_expr(wording.alloc, wording.names, &shape)
}

/// The expression of a constant, `0u` where there is none.
#[tactic(auto, using(glsl_ast::proofs::Views::expr_rows))]
fn expr_by(wording: &Wording, inst: Option<&Inst>) -> Result<Expr, Memory>
    ensures { IfOk result (λ e. expr_of e ≡ expr_if_any (source_of wording.now) (id_names wording.now.names.now) (option_copied inst.entry)) }
{
    match inst {
        None => Ok(Expr::Literal(Literal::Uint(0))),
        Some(inst) => wording
            .readings
            .constant_expr(wording.alloc, wording.names, inst),
    }
}

/// The expression of the constant with an id, `0u` where there is none.
pub fn expr_at(wording: &Wording, id: u32) -> Result<Expr, Memory>
    ensures { IfOk result (λ e. expr_of e ≡ expr_at_of (source_of wording.now) (names_of wording.now) id) }
{
    let inst = wording.readings.module().global(Id(id));
    expr_by(wording, inst)
}

fn exprs_at(wording: &Wording, ids: &[u32]) -> Result<Vec<Expr>, Memory>
    ensures { IfOk result (λ exprs. map expr_of exprs.items ≡ map (expr_at_of (source_of wording.now) (names_of wording.now)) ids.now) }
{
    let mut exprs = Vec::new(wording.alloc);
    for id in ids {
        exprs.push(expr_at(wording, *id)?)?;
    }
    Ok(exprs)
}

/// A constructor of the parts of a composite.
#[tactic(auto, using(glsl_ast::proofs::Views::expr_rows))]
fn composite(wording: &Wording, inst: &Inst) -> Result<Expr, Memory>
    ensures { IfOk result (λ e. expr_of e ≡ value_by (source_of wording.now) (names_of wording.now) inst.now Composite) }
{
    let ty = type_at(wording, inst.ty)?;
    let parts = exprs_at(wording, inst.args.as_slice())?;
    Expr::build(wording.alloc, ty, parts)
}

/// What a constant is declared with.
#[tactic(auto, using(glsl_ast::proofs::Views::expr_rows))]
fn value(wording: &Wording, inst: &Inst) -> Result<Expr, Memory>
    requires { All HasFewArgs (source_of wording.now).of.globals }
    ensures { IfOk result (λ e. expr_of e ≡ value_by (source_of wording.now) (names_of wording.now) inst.now (constant_kind inst.now.op)) }
{
    match ConstantKind::of(inst.op) {
        ConstantKind::Composite => composite(wording, inst),
        ConstantKind::Zero => zero_at(wording, inst.ty),
        ConstantKind::Operation => {
            calculated(wording.alloc, wording.readings, wording.names, inst)
        }
        ConstantKind::True
        | ConstantKind::False
        | ConstantKind::Word
        | ConstantKind::SpecTrue
        | ConstantKind::SpecFalse
        | ConstantKind::SpecWord
        | ConstantKind::Other => Ok(Expr::Literal(wording.readings.literal(inst))),
    }
}

/// The declaration of a constant, with its SpecId where it has one that is not overridden (GLSL 4.60, section 4.4.1.2).
pub fn declare_constant(wording: &Wording, inst: &Inst) -> Result<Decl, Memory>
    requires { All HasFewArgs (source_of wording.now).of.globals }
    ensures { IfOk result (λ d. decl_of d ≡ constant_decl (source_of wording.now) (names_of wording.now) inst.now) }
{
    Ok(Decl::Const {
        id: wording.readings.free_spec_id(Id(inst.result)),
        ty: type_at(wording, inst.ty)?,
        name: name(wording.alloc, wording.names, Key::Id(Id(inst.result)))?,
        value: value(wording, inst)?,
    })
}

/// A member of a struct, by its number and the id of its type.
fn field(wording: &Wording, inst: &Inst, k: usize, ty: u32) -> Result<Field, Memory>
    requires { k < 2 ^ 32 }
    ensures { IfOk result (λ field. field_of field ≡ field_at (source_of wording.now) (names_of wording.now) inst.now (k, ty)) }
{
    let number = counted(k);
    Ok(Field {
        ty: type_at(wording, ty)?,
        name: name(
            wording.alloc,
            wording.names,
            Key::Member(Id(inst.result), number),
        )?,
    })
}

fn fields(wording: &Wording, inst: &Inst, types: &[u32]) -> Result<Vec<Field>, Memory>
    requires { length types.now < 2 ^ 32 }
    ensures { IfOk result (λ fields. map field_of fields.items ≡ map (field_at (source_of wording.now) (names_of wording.now) inst.now) (enumerate_from 0 types.now)) }
{
    let mut fields = Vec::new(wording.alloc);
    for (k, ty) in types.iter().enumerate() {
        let field = field(wording, inst, k, *ty)?;
        fields.push(field)?;
    }
    Ok(fields)
}

/// The declaration of a struct (GLSL 4.60, section 4.1.8).
pub fn declare_struct(wording: &Wording, inst: &Inst) -> Result<Decl, Memory>
    requires { HasFewArgs inst.now }
    ensures { IfOk result (λ d. decl_of d ≡ struct_decl (source_of wording.now) (names_of wording.now) inst.now) }
{
    Ok(Decl::Struct {
        name: name(wording.alloc, wording.names, Key::Id(Id(inst.result)))?,
        fields: fields(wording, inst, inst.args.as_slice())?,
    })
}
