// The form of each result.
ghost use Rattle.std.specs.Prelude.{◌≡◌, ◌==◌, ◌&&◌, not, ℕ, IfOk, OnOk, [], None, fold, length};
ghost use Rattle.std.specs.List.{list_any};
ghost use Rattle.id_map.specs.Entries.{entry_in};
ghost use Rattle.hoist_plan.specs.Plan.{is_elsewhere as is_elsewhere_in, wants_variable as wants_variable_in, is_live as is_live_result, is_named_by_use as is_named_by_use_in, is_named as is_named_in, is_hoisted as is_hoisted_in, own_height as own_height_of, form_by, form_with as form_with_of, with_told, with_operand, raised, operand_if, is_value as is_value_in};
ghost use Rattle.hoist_plan.specs.Kept.{placed};

use crate::Form;
use crate::mention::{is_always_named, is_elsewhere, is_value, user, wants_variable};
use crate::row::Row;
use id_map::{IdMap, Span};
use spv_index::Locals;
use spv_module::{Function, Module};
use spv_ops::Op;
use std::alloc::{AllocError, Global};
use use_chains::SlotPlace;

/// The forms of some results, and the height of the highest operand of each instruction, among these.
#[derive(Drop)]
pub struct Forms {
    pub operands: IdMap<u8>,
    pub forms: IdMap<Form>,
}

impl Forms {
    /// No forms, with room for those of the ids of a span.
    pub fn spanning(alloc: Global, ids: Span) -> Result<Forms, AllocError>
        ensures operands { IfOk result (λ told. (id : ℕ) → entry_in told.operands id ≡ None) }
        ensures forms { IfOk result (λ told. (id : ℕ) → entry_in told.forms id ≡ None) }
    {
        Ok(Forms {
            operands: IdMap::spanning(alloc, ids)?,
            forms: IdMap::spanning(alloc, ids)?,
        })
    }
}

#[inline(always)]
fn is_live(row: &Row, mentions: &[SlotPlace]) -> bool
    ensures { result ≡ is_live_result (placed mentions.now row.now) }
{
    mentions.len() > 0 || !row.op.is_pure()
}

fn some_wants(module: &Module, locals: &Locals, block: usize, places: &[SlotPlace]) -> bool
    ensures { result ≡ list_any (wants_variable_in «module».now.globals locals.now block) places.now }
{
    places
        .iter()
        .any(|at| wants_variable(module, locals, block, *at))
}

/// Whether a block is the only one: then nothing is mentioned elsewhere.
fn is_alone(locals: &Locals, block: usize) -> bool
    ensures { result ≡ ((block == 0) && (length locals.now.blocks == 1)) }
{
    block == 0 && locals.function().blocks.len() == 1
}

fn some_elsewhere(locals: &Locals, block: usize, places: &[SlotPlace]) -> bool
    ensures { result ≡ list_any (is_elsewhere_in locals.now block) places.now }
{
    if is_alone(locals, block) {
        return false;
    }
    places.iter().any(|at| is_elsewhere(locals, block, *at))
}

/// Whether a result has a variable whatever its height is, if it is a live value.
fn is_named_by_use(module: &Module, locals: &Locals, row: &Row, mentions: &[SlotPlace]) -> bool
    ensures { result ≡ is_named_by_use_in «module».now.globals locals.now (placed mentions.now row.now) }
{
    is_always_named(row.op)
        || mentions.len() >= 2
        || some_wants(module, locals, row.block, mentions)
}

/// The height of the expression of a result, where the height of its highest operand is known; it is
/// counted up to 17.
fn own_height(operands: &IdMap<u8>, row: &Row) -> u8
    ensures { result ≡ own_height_of (entry_in operands.now) (placed [] row.now) }
{
    if row.op == Op::Undef {
        0
    } else {
        operands.get(row.result).unwrap_or(0).min(16) + 1
    }
}

/// Whether a result has a variable, where it is known whether it is a value.
fn is_named(
    module: &Module,
    locals: &Locals,
    operands: &IdMap<u8>,
    row: &Row,
    mentions: &[SlotPlace],
    value: bool,
) -> bool
    requires { value ≡ is_value_in «module».now.globals row.now.ty }
    ensures { result ≡ is_named_in «module».now.globals locals.now (entry_in operands.now) (placed mentions.now row.now) }
{
    value
        && is_live(row, mentions)
        && (is_named_by_use(module, locals, row, mentions) || own_height(operands, row) == 17)
}

fn is_hoisted(locals: &Locals, row: &Row, mentions: &[SlotPlace]) -> bool
    ensures { result ≡ is_hoisted_in locals.now (placed mentions.now row.now) }
{
    row.op == Op::Phi || some_elsewhere(locals, row.block, mentions)
}

/// The form of a result, where it is known whether it has a variable.
fn form_with(locals: &Locals, row: &Row, mentions: &[SlotPlace], named: bool) -> Form
    ensures { result ≡ form_by locals.now named (placed mentions.now row.now) }
{
    if !is_live(row, mentions) {
        Form::Gone
    } else if !named {
        Form::Forwarded
    } else if is_hoisted(locals, row, mentions) {
        Form::Hoisted
    } else {
        Form::Local
    }
}

/// Tells the form of a result.
fn tell(forms: &mut IdMap<Form>, id: u32, form: Form) -> Result<(), AllocError>
    ensures { OnOk result ((n : ℕ) → entry_in forms.new n ≡ with_told (entry_in forms.old) id form n) }
{
    forms.insert(id, form)?;
    Ok(())
}

/// The highest operand of the instruction at a place is at least this high.
fn raise(
    operands: &mut IdMap<u8>,
    f: &Function,
    at: SlotPlace,
    height: u8,
) -> Result<(), AllocError>
    ensures { OnOk result ((n : ℕ) → entry_in operands.new n ≡ raised f.now height (entry_in operands.old) at n) }
{
    if let Some(inst) = user(f, at) {
        let before = operands.get(inst.result).unwrap_or(0);
        operands.insert(inst.result, before.max(height))?;
    }
    Ok(())
}

fn raise_all(
    operands: &mut IdMap<u8>,
    f: &Function,
    places: &[SlotPlace],
    height: u8,
) -> Result<(), AllocError>
    ensures { OnOk result ((n : ℕ) → entry_in operands.new n ≡ fold (raised f.now height) (entry_in operands.old) places.now n) }
{
    for at in places {
        raise(operands, f, *at, height)?;
    }
    Ok(())
}

/// A result is an operand of its height wherever it is mentioned, where it is a value without a
/// variable.
fn add_operand(
    locals: &Locals,
    operands: &mut IdMap<u8>,
    row: &Row,
    mentions: &[SlotPlace],
    value: bool,
    named: bool,
) -> Result<(), AllocError>
    ensures { OnOk result ((n : ℕ) → entry_in operands.new n ≡ operand_if (value && not named) locals.now (entry_in operands.old) (placed mentions.now row.now) n) }
{
    if value && !named {
        let height = own_height(operands, row);
        raise_all(operands, locals.function(), mentions, height)?;
    }
    Ok(())
}

/// Adds the form of a result, where those before it in text order are told.
pub fn add_form(
    forms: &mut Forms,
    module: &Module,
    locals: &Locals,
    row: &Row,
    mentions: &[SlotPlace],
) -> Result<(), AllocError>
    ensures operands { OnOk result ((n : ℕ) → entry_in forms.new.operands n ≡ with_operand «module».now.globals locals.now (entry_in forms.old.operands) (placed mentions.now row.now) n) }
    ensures forms { OnOk result ((n : ℕ) → entry_in forms.new.forms n ≡ with_told (entry_in forms.old.forms) row.now.result (form_with_of «module».now.globals locals.now (entry_in forms.old.operands) (placed mentions.now row.now)) n) }
{
    let value = is_value(module, row.ty);
    let named = is_named(module, locals, &forms.operands, row, mentions, value);
    let form = form_with(locals, row, mentions, named);
    tell(&mut forms.forms, row.result, form)?;
    add_operand(locals, &mut forms.operands, row, mentions, value, named)?;
    Ok(())
}
