// Which variables and constants are written.
ghost use Rattle.std.specs.Prelude.{◌≡◌, ◌&&◌, ◌||◌, ℕ, IfOk, OnOk};
ghost use Rattle.std.specs.List.{list_any};
ghost use Rattle.id_map.specs.Entries.{is_in};
ghost use Rattle.text_rules.specs.Printed.{has_operand, is_private as is_private_variable, is_length_of, declares as declares_constant, needed_with, needed_from};
ghost use Rattle.text_items.specs.State.{is_written_class as is_written_class_number, is_written_by, needed_first};

use crate::operands::{add_ids, add_ids_of, no_ids};
use constant_text::{Reading, Readings};
use id_map::IdSet;
use spv_module::{Id, Inst};
use spv_ops::{Op, StorageClass};
use spv_words::Memory;
use std::alloc::{AllocError, Global};

/// Whether this is a variable of class Private (SPIR-V 1.6, section 3.7).
pub fn is_private(inst: &Inst) -> bool
    ensures { result ≡ is_private_variable inst.now }
{
    inst.op == Op::Variable && inst.operand(0) == StorageClass::Private.number()
}

fn is_written_class(class: u32) -> bool
    ensures { result ≡ is_written_class_number class }
{
    class == StorageClass::Private.number()
        || class == StorageClass::Workgroup.number()
        || class == StorageClass::Uniform.number()
        || class == StorageClass::PushConstant.number()
        || class == StorageClass::StorageBuffer.number()
}

/// Whether this is a variable that is written, where these are the operands in functions: one of class Uniform, Workgroup,
/// Private, PushConstant or StorageBuffer.
pub fn is_written(operand_ids: &IdSet, inst: &Inst) -> bool
    ensures { result ≡ is_written_by (is_in operand_ids.now) inst.now }
{
    inst.op == Op::Variable && is_written_class(inst.operand(0)) && operand_ids.has(inst.result)
}

/// Adds the constants that are lengths of arrays.
fn add_lengths(needed: &mut IdSet, globals: &[Inst]) -> Result<(), AllocError>
    ensures { OnOk result ((id : ℕ) → is_in needed.new id ≡ (is_in needed.old id || list_any (is_length_of id) globals.now)) }
{
    for inst in globals {
        if inst.op == Op::TypeArray {
            needed.insert(inst.operand(1))?;
        }
    }
    Ok(())
}

/// Adds what a Private variable that is written begins with.
#[inline(never)]
fn add_initializers(
    needed: &mut IdSet,
    operand_ids: &IdSet,
    globals: &[Inst],
) -> Result<(), AllocError>
    ensures { OnOk result ((id : ℕ) → is_in needed.new id ≡ (is_in needed.old id || list_any (λ g. is_private_variable g && (is_written_by (is_in operand_ids.now) g && has_operand g id)) globals.now)) }
{
    for inst in globals {
        if is_private(inst) && is_written(operand_ids, inst) {
            add_ids_of(needed, inst)?;
        }
    }
    Ok(())
}

/// Whether a constant is declared, where the text needs these.
#[inline(always)]
pub fn declares(readings: &Readings, needed: &IdSet, inst: &Inst) -> bool
    ensures { result ≡ declares_constant readings.now (is_in needed.now) inst.now }
{
    inst.op.is_constant()
        && matches!(readings.reading(inst), Reading::Named)
        && (readings.free_spec_id(Id(inst.result)).is_some() || needed.has(inst.result))
}

/// Adds the operands of a constant, where it is declared.
#[inline(never)]
#[tactic(auto, using(crate::proofs::Built::needed_is))]
fn add_operands(readings: &Readings, needed: &mut IdSet, inst: &Inst) -> Result<(), AllocError>
    ensures { OnOk result ((id : ℕ) → is_in needed.new id ≡ needed_with readings.now (is_in needed.old) inst.now id) }
{
    if declares(readings, needed, inst) {
        add_ids_of(needed, inst)?;
    }
    Ok(())
}

/// Adds the operands of declared constants. They stand before these.
#[tactic(auto, using(crate::proofs::Built::needed_rules))]
fn add_earlier(readings: &Readings, needed: &mut IdSet, globals: &[Inst]) -> Result<(), AllocError>
    ensures { OnOk result ((id : ℕ) → is_in needed.new id ≡ needed_from readings.now (is_in needed.old) globals.now id) }
{
    for k in (0..globals.len()).rev() {
        add_operands(readings, needed, &globals[k])?;
    }
    Ok(())
}

/// The ids that the text needs, where these are the operands in functions, and live instructions mention those.
pub fn needed(
    alloc: Global,
    readings: &Readings,
    operand_ids: &IdSet,
    mentions: &[u32],
) -> Result<IdSet, Memory>
    ensures { IfOk result (λ needed. (id : ℕ) → is_in needed id ≡ needed_from readings.now (needed_first readings.now (is_in operand_ids.now) mentions.now) readings.now.of.globals id) }
{
    let globals = readings.module().globals();
    let mut needed = no_ids(alloc, readings, mentions.len())?;
    add_ids(&mut needed, mentions)?;
    add_lengths(&mut needed, globals)?;
    add_initializers(&mut needed, operand_ids, globals)?;
    add_earlier(readings, &mut needed, globals)?;
    Ok(needed)
}
