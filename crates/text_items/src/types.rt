// The types of what is written.
ghost use Rattle.std.specs.Prelude.{◌≡◌, ◌++◌, ◌||◌, IfOk, OnOk, filter, flat_map, map};
ghost use Rattle.id_map.specs.Entries.{is_in};
ghost use Rattle.text_rules.specs.Printed.{declares as declares_constant};
ghost use Rattle.profile_rules.specs.TypeForm.{signature};
ghost use Rattle.text_items.specs.State.{functions_at, is_written_by, types_by};

use crate::needed::{declares, is_written};
use constant_text::Readings;
use id_map::IdSet;
use spv_module::{Function, Inst};
use spv_words::Memory;
use std::alloc::{AllocError, Global};

/// Adds the types of the variables and constants that are written.
fn add_globals(
    types: &mut Vec<u32>,
    readings: &Readings,
    operand_ids: &IdSet,
    needed: &IdSet,
    globals: &[Inst],
) -> Result<(), AllocError>
    ensures { OnOk result (types.new.items ≡ types.old.items ++ map (λ g. g.ty) (filter (λ g. is_written_by (is_in operand_ids.now) g || declares_constant readings.now (is_in needed.now) g) globals.now)) }
{
    for inst in globals {
        if is_written(operand_ids, inst) || declares(readings, needed, inst) {
            types.push(inst.ty)?;
        }
    }
    Ok(())
}

/// Adds those of a function's result and parameters.
fn add_signature(types: &mut Vec<u32>, function: &Function) -> Result<(), AllocError>
    ensures { OnOk result (types.new.items ≡ types.old.items ++ signature function.now) }
{
    types.push(function.result.0)?;
    for (_, ty) in function.params.as_slice() {
        types.push(ty.0)?;
    }
    Ok(())
}

fn add_signatures(types: &mut Vec<u32>, functions: &[&Function]) -> Result<(), AllocError>
    ensures { OnOk result (types.new.items ≡ types.old.items ++ flat_map signature (functions_at functions.now)) }
{
    for function in functions {
        add_signature(types, *function)?;
    }
    Ok(())
}

/// The types of what is written, where these are the operands in functions, the text needs these constants, and live instructions
/// have results of those types.
pub fn written_types(
    alloc: Global,
    readings: &Readings,
    operand_ids: &IdSet,
    needed: &IdSet,
    functions: &[&Function],
    live: &[u32],
) -> Result<Vec<u32>, Memory>
    ensures { IfOk result (λ types. types.items ≡ types_by readings.now (is_in operand_ids.now) (is_in needed.now) (functions_at functions.now) live.now) }
{
    let mut types = Vec::with_capacity(alloc, live.len())?;
    let globals = readings.module().globals();
    add_globals(&mut types, readings, operand_ids, needed, globals)?;
    add_signatures(&mut types, functions)?;
    types.extend_from_slice(live)?;
    Ok(types)
}
