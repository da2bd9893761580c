// The expressions by which constants and built-in variables are read.
ghost use Rattle.std.specs.Prelude.{◌≡◌, ◌==◌, ℕ, None, IfOk, OnOk, option_map, if◌then◌else◌};
ghost use Rattle.glsl_ast.specs.View.{expr_of};
ghost use Rattle.constant_text.specs.Named.{id_names};
ghost use Rattle.expr_forward.specs.Globals.{global_in};
ghost use Rattle.unit_text.specs.Reached.{AreGlobals, or_before, expr_among};
ghost use Rattle.unit_rules.specs.Translation.{global_expr as expr_of_global};

use constant_text::Readings;
use expr_forward::Globals;
use glsl_ast::Expr;
use name_alloc::Names;
use spv_module::{Id, Inst};
use spv_words::Memory;
use std::alloc::Global;
use text_items::global_expr;

/// The expression by which the global with an id is read: of a constant, or of a built-in variable.
fn global_of(
    alloc: Global,
    readings: &Readings,
    names: &Names,
    id: Id,
) -> Result<Option<Expr>, Memory>
    ensures { IfOk result (λ e. option_map expr_of e ≡ expr_of_global readings.now (id_names names.now) id.0) }
{
    match readings.module().global(id) {
        None => Ok(None),
        Some(inst) => global_expr(alloc, readings, names, inst),
    }
}

/// Puts the expression of an id, where there is one.
fn put_if_any(globals: &mut Globals, id: Id, expr: Option<Expr>) -> Result<(), Memory>
    ensures { OnOk result ((n : ℕ) → global_in globals.new n ≡ or_before (global_in globals.old n) (if id.0 == n then option_map expr_of expr else None)) }
{
    match expr {
        None => Ok(()),
        Some(expr) => globals.put(id, expr),
    }
}

/// One more than the greatest result of instructions, or the greatest word.
fn end_of(insts: &[Inst]) -> u32 {
    let mut end = 0u32;
    for inst in insts {
        end = end.max(inst.result.saturating_add(1));
    }
    end
}

/// The expressions by which the globals are read whose ids are results of these instructions.
fn globals_among(
    alloc: Global,
    readings: &Readings,
    names: &Names,
    insts: &[Inst],
) -> Result<Globals, Memory>
    ensures { IfOk result (λ globals. (n : ℕ) → global_in globals n ≡ expr_among readings.now names.now insts.now n) }
{
    let mut globals = Globals::new(alloc, end_of(insts), insts.len());
    for inst in insts {
        let id = Id(inst.result);
        let expr = global_of(alloc, readings, names, id)?;
        put_if_any(&mut globals, id, expr)?;
    }
    Ok(globals)
}

/// The expressions by which constants and built-in variables are read.
pub fn globals_of(alloc: Global, readings: &Readings, names: &Names) -> Result<Globals, Memory>
    ensures { IfOk result (AreGlobals readings.now names.now) }
{
    globals_among(alloc, readings, names, readings.module().globals())
}
