// How constants and built-in variables are read.
ghost use Rattle.std.specs.Prelude.{◌≡◌, IfOk, option_map};
ghost use Rattle.glsl_ast.specs.View.{expr_of};
ghost use Rattle.constant_text.specs.Named.{id_names};
ghost use Rattle.text_items.specs.Globals.{built_in_text, is_input as is_input_variable, global_by};

use constant_text::Readings;
use glsl_ast::{Expr, Name};
use name_alloc::Names;
use spv_module::{Id, Inst};
use spv_ops::{BuiltIn, Decoration, Op, StorageClass};
use spv_words::Memory;
use std::alloc::Global;

/// The name of a built-in variable, by the literal of its decoration.
fn built_in(number: u32) -> &'static str
    ensures { result.now ≡ built_in_text number }
{
    match BuiltIn::of(number) {
        Some(BuiltIn::NumWorkgroups) => "gl_NumWorkGroups",
        Some(BuiltIn::WorkgroupId) => "gl_WorkGroupID",
        Some(BuiltIn::LocalInvocationId) => "gl_LocalInvocationID",
        Some(BuiltIn::GlobalInvocationId) => "gl_GlobalInvocationID",
        // WorkgroupSize is of constants alone
        Some(BuiltIn::LocalInvocationIndex | BuiltIn::WorkgroupSize) | None => {
            "gl_LocalInvocationIndex"
        }
    }
}

fn is_input(inst: &Inst) -> bool
    ensures { result ≡ is_input_variable inst.now }
{
    inst.op == Op::Variable && inst.operand(0) == StorageClass::Input.number()
}

/// The expression by which a global is read: a constant by its literal, its name or as the size of workgroups, and a variable of
/// class Input by the name of what is built in (SPIR-V 1.6, section 3.21; GLSL 4.60, section 7.1.3). None of another global. There
/// is an error only for want of memory.
#[tactic(auto, using(glsl_ast::proofs::Views::expr_rows))]
pub fn global_expr(
    alloc: Global,
    readings: &Readings,
    names: &Names,
    inst: &Inst,
) -> Result<Option<Expr>, Memory>
    ensures { IfOk result (λ e. option_map expr_of e ≡ global_by readings.now (id_names names.now) inst.now) }
{
    if inst.op.is_constant() {
        return Ok(Some(readings.constant_expr(alloc, names, inst)?));
    }
    if !is_input(inst) {
        return Ok(None);
    }
    let number = readings
        .decor()
        .value(Id(inst.result), Decoration::BuiltIn.number())
        .unwrap_or(0);
    Ok(Some(Expr::Name(Name::from_str(alloc, built_in(number))?)))
}
