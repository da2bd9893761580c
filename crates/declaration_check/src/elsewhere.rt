// The ids that are the results of instructions that are no global ones.
ghost use Rattle.std.specs.Prelude.{◌≡◌, ◌==◌, ◌||◌, ℕ, OnOk, IfOk};
ghost use Rattle.std.specs.List.{list_any};
ghost use Rattle.id_map.specs.Entries.{is_in};
ghost use Rattle.profile_rules.specs.Places.{defines, is_defined_elsewhere};

use id_map::IdSet;
use spv_index::count_of;
use spv_module::{Block, Function, Id, Inst, Module};
use std::alloc::{AllocError, Global};

fn add_results(ids: &mut IdSet, insts: &[Inst]) -> Result<(), AllocError>
    ensures { OnOk result ((id : ℕ) → is_in ids.new id ≡ (is_in ids.old id || list_any (λ i. i.result == id) insts.now)) }
{
    for inst in insts {
        ids.insert(inst.result)?;
    }
    Ok(())
}

fn add_params(ids: &mut IdSet, params: &[(Id, Id)]) -> Result<(), AllocError>
    ensures { OnOk result ((id : ℕ) → is_in ids.new id ≡ (is_in ids.old id || list_any (λ p. p.0.0 == id) params.now)) }
{
    for param in params {
        let (id, _) = *param;
        ids.insert(id.0)?;
    }
    Ok(())
}

fn add_blocks(ids: &mut IdSet, blocks: &[Block]) -> Result<(), AllocError>
    ensures { OnOk result ((id : ℕ) → is_in ids.new id ≡ (is_in ids.old id || list_any (λ b. (b.label.0 == id) || list_any (λ i. i.result == id) b.insts) blocks.now)) }
{
    for block in blocks {
        ids.insert(block.label.0)?;
        add_results(ids, block.insts.as_slice())?;
    }
    Ok(())
}

fn add_function(ids: &mut IdSet, function: &Function) -> Result<(), AllocError>
    ensures { OnOk result ((id : ℕ) → is_in ids.new id ≡ (is_in ids.old id || defines id function.now)) }
{
    ids.insert(function.id.0)?;
    add_params(ids, function.params.as_slice())?;
    add_blocks(ids, function.blocks.as_slice())?;
    Ok(())
}

/// The ids of imports, functions, parameters and labels, and the results of the functions'
/// instructions.
pub fn defined_elsewhere(alloc: Global, module: &Module) -> Result<IdSet, AllocError>
    ensures { IfOk result (λ ids. (id : ℕ) → is_in ids id ≡ is_defined_elsewhere «module».now id) }
{
    let mut ids = IdSet::below(alloc, module.bound(), count_of(module.functions()))?;
    add_results(&mut ids, module.heads())?;
    for function in module.functions() {
        add_function(&mut ids, function)?;
    }
    Ok(ids)
}
