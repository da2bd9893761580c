// The variables of a module, and the types of its other values.
ghost use Rattle.std.specs.Prelude.{◌≡◌, ◌==◌, ◌||◌, ◌++◌, ◌∷◌, [], ◌≤◌, true, ℕ, length, drop, map, flat_map, filter_map, OnOk, IfOk};
ghost use Rattle.id_map.specs.Entries.{is_in};
ghost use Rattle.profile_rules.specs.Places.{is_among};
ghost use Rattle.profile_rules.specs.TypeForm.{value_type};
ghost use Rattle.declaration_check.specs.Kept.{outer_variables, variables_in, AreKept, AreValues, WithMore};

use crate::variables::is_variable;
use id_map::IdSet;
use spv_module::{Block, Function, Inst, Module};
use std::alloc::{AllocError, Global};

/// The variables among some instructions, and the types of the others, each once.
#[derive(Drop)]
pub struct Rows<'a> {
    pub variables: Vec<&'a Inst>,
    pub types: Vec<u32>,
    // the same types
    pub known: IdSet,
}

fn add_variable<'a>(variables: &mut Vec<&'a Inst>, inst: &'a Inst) -> Result<(), AllocError>
    ensures { OnOk result (map (λ i. i.now) variables.new.items ≡ map (λ i. i.now) variables.old.items ++ inst.now ∷ []) }
{
    variables.push(inst)?;
    Ok(())
}

/// Adds a type, where it is not there.
fn add_type(types: &mut Vec<u32>, known: &mut IdSet, ty: u32) -> Result<(), AllocError>
    requires { (id : ℕ) → is_in known.old id ≡ true → is_among types.old.items id ≡ true }
    ensures types { OnOk result ((id : ℕ) → is_among types.new.items id ≡ (is_among types.old.items id || (ty == id))) }
    ensures kept { OnOk result ((id : ℕ) → is_in known.new id ≡ true → is_among types.new.items id ≡ true) }
{
    if known.has(ty) {
        return Ok(());
    }
    types.push(ty)?;
    known.insert(ty)
}

#[inline(always)]
fn add_inst<'a>(rows: &mut Rows<'a>, inst: &'a Inst) -> Result<(), AllocError>
    requires { AreKept rows.old }
    ensures { OnOk result (WithMore (inst.now ∷ []) rows.old rows.new) }
{
    if is_variable(inst) {
        add_variable(&mut rows.variables, inst)
    } else {
        add_type(&mut rows.types, &mut rows.known, inst.ty)
    }
}

#[inline(always)]
fn add_insts<'a>(rows: &mut Rows<'a>, insts: &'a [Inst]) -> Result<(), AllocError>
    requires { AreKept rows.old }
    ensures { OnOk result (WithMore insts.now rows.old rows.new) }
{
    for inst in insts {
        add_inst(rows, inst)?;
    }
    Ok(())
}

fn add_blocks<'a>(rows: &mut Rows<'a>, blocks: &'a [Block]) -> Result<(), AllocError>
    requires { AreKept rows.old }
    ensures { OnOk result (WithMore (flat_map (λ b. b.insts) blocks.now) rows.old rows.new) }
{
    for block in blocks {
        add_insts(rows, block.insts.as_slice())?;
    }
    Ok(())
}

fn add_functions<'a>(rows: &mut Rows<'a>, functions: &'a [Function]) -> Result<(), AllocError>
    requires { AreKept rows.old }
    ensures { OnOk result (WithMore (flat_map (λ f. flat_map (λ b. b.insts) f.blocks) functions.now) rows.old rows.new) }
{
    for function in functions {
        add_blocks(rows, function.blocks.as_slice())?;
    }
    Ok(())
}

/// What stands outside functions.
fn outer_rows(alloc: Global, module: &Module) -> Result<Rows<'_>, AllocError>
    ensures kept { IfOk result AreKept }
    ensures variables { IfOk result (λ rows. variables_in rows ≡ outer_variables «module».now) }
    ensures types { IfOk result (λ rows. (id : ℕ) → is_among rows.types.items id ≡ is_among (filter_map value_type «module».now.globals) id) }
{
    let mut rows = Rows {
        variables: Vec::new(alloc),
        types: Vec::new(alloc),
        known: IdSet::below(alloc, module.bound(), module.globals().len())?,
    };
    add_insts(&mut rows, module.globals())?;
    Ok(rows)
}

/// The variables of a module, how many of them stand outside functions, and the types of its constants
/// and of the values that are computed in functions, each once.
#[derive(Drop)]
pub struct Values<'a> {
    pub variables: Vec<&'a Inst>,
    pub outer: usize,
    pub types: Vec<u32>,
}

/// The variables of a module and the types of its other values.
pub fn values_of(alloc: Global, module: &Module) -> Result<Values<'_>, AllocError>
    ensures { IfOk result (λ values. AreValues «module».now (map (λ i. i.now) values.variables.items) values.outer values.types.items) }
{
    let mut rows = outer_rows(alloc, module)?;
    let outer = rows.variables.len();
    add_functions(&mut rows, module.functions())?;
    Ok(Values {
        variables: rows.variables,
        outer,
        types: rows.types,
    })
}

/// What stands behind the first n of these.
pub fn behind<'a, 'b>(list: &'b [&'a Inst], n: usize) -> &'b [&'a Inst]
    requires { n ≤ length list.now }
    ensures { result.now ≡ drop n list.now }
{
    &list[n..]
}
