// Which results of a function have names, and which instructions are live.
ghost use Rattle.std.specs.Prelude.{◌≡◌, ◌||◌, ℕ, IfOk, OnOk};
ghost use Rattle.std.specs.List.{list_any};
ghost use Rattle.id_map.specs.Entries.{is_in};
ghost use Rattle.hoist_plan.specs.Kept.{form_in, is_carried_in};
ghost use Rattle.function_plan.specs.Planned.{has_name_by, has_name as has_name_in, names_id, is_named_in, is_live as is_live_in, is_captured as is_captured_in};

use crate::moves::is_gone;
use crate::nodes::is_reached;
use hoist_plan::{Form, Naming};
use id_map::{IdSet, Span};
use spv_module::{Block, Function, Id, Inst};
use spv_ops::Op;
use spv_words::Memory;
use std::alloc::{AllocError, Global};
use structure_rules::Node;

/// Whether a result of a form has a name, where it stands in a block that is reached, or is that of an OpVariable.
fn has_name_of(form: Form, reached: bool, variable: bool) -> bool
    ensures { result ≡ has_name_by form reached variable }
{
    match form {
        Form::Hoisted => true,
        Form::Local => reached || variable,
        Form::Forwarded | Form::Gone => variable,
    }
}

/// Whether the result of an instruction has a name: that of an OpVariable, of a value that is declared at the top of the
/// function, and of one that is declared in a block that is reached.
fn has_name(naming: &Naming, reached: bool, inst: &Inst) -> bool
    ensures { result ≡ has_name_in (form_in naming.now) reached inst.now }
{
    has_name_of(naming.of(Id(inst.result)), reached, inst.op == Op::Variable)
}

/// The span of the results of blocks.
fn results_of(blocks: &[Block]) -> Span {
    let mut span = Span::new();
    for block in blocks {
        for inst in block.insts.as_slice() {
            span.add(inst.result);
        }
    }
    span
}

/// Adds the results of a block that have names.
fn add_named(
    ids: &mut IdSet,
    naming: &Naming,
    reached: bool,
    block: &Block,
) -> Result<(), AllocError>
    ensures { OnOk result ((id : ℕ) → is_in ids.new id ≡ (is_in ids.old id || list_any (names_id (form_in naming.now) reached id) block.now.insts)) }
{
    for inst in block.insts.as_slice() {
        if has_name(naming, reached, inst) {
            ids.insert(inst.result)?;
        }
    }
    Ok(())
}

/// The results of blocks that have names.
fn named_in(
    alloc: Global,
    blocks: &[Block],
    nodes: &[Node],
    naming: &Naming,
) -> Result<IdSet, AllocError>
    ensures { IfOk result (λ ids. (id : ℕ) → is_in ids id ≡ is_named_in (form_in naming.now) nodes.now blocks.now id) }
{
    let mut ids = IdSet::spanning(alloc, results_of(blocks))?;
    for (index, block) in blocks.iter().enumerate() {
        add_named(&mut ids, naming, is_reached(nodes, index), block)?;
    }
    Ok(ids)
}

/// The results of a function that have names.
pub fn named(
    alloc: Global,
    function: &Function,
    nodes: &[Node],
    naming: &Naming,
) -> Result<IdSet, Memory>
    ensures { IfOk result (λ ids. (id : ℕ) → is_in ids id ≡ is_named_in (form_in naming.now) nodes.now function.now.blocks id) }
{
    Ok(named_in(alloc, function.blocks.as_slice(), nodes, naming)?)
}

/// Whether an instruction is live: it has an effect, or a linked slot mentions its result.
pub fn is_live(naming: &Naming, inst: &Inst) -> bool
    ensures { result ≡ is_live_in (form_in naming.now) inst.now }
{
    if inst.op.is_pure() {
        !is_gone(naming.of(Id(inst.result)))
    } else {
        true
    }
}

/// Whether an instruction is a chain whose indexes that are no constants have variables.
pub fn is_captured(naming: &Naming, inst: &Inst) -> bool
    ensures { result ≡ is_captured_in (is_carried_in naming.now) inst.now }
{
    inst.op.is_chain() && naming.carried(Id(inst.result))
}
