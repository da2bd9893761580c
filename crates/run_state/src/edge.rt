// Edges between blocks.
ghost use Rattle.std.specs.Prelude.{◌≡◌, ℕ, ◌≤◌, List, Some, OnOk, OnErr, length, map, slice_get, take_while};
ghost use Rattle.spv_module.specs.declared.inst.Function.{Function};
ghost use Rattle.spv_types.specs.View.{value_of};
ghost use Rattle.module_semantics.specs.Steps as steps;
ghost use Rattle.run_state.specs.Ids.{ids_of, HavePlaces};
ghost use Rattle.run_state.specs.Confs.{conf_of, function_at};

use crate::conf::{Conf, Ids, make_place, put_in_place};
use crate::held::Held;
use spv_module::{Block, Inst, Value};
use spv_ops::Op;
use spv_words::Memory;

/// The label to which a switch leads: that behind the first literal that equals the selector, or the default.
pub fn case_label(selector: u32, default: u32, cases: &[u32]) -> u32
    ensures { result ≡ steps.case_label selector default cases.now }
{
    let mut rest = cases;
    while let [literal, label, more @ ..] = rest {
        if *literal == selector {
            return *label;
        }
        rest = more;
    }
    default
}

/// What a phi takes from the block with this label.
pub fn source_from(from: u32, pairs: &[u32]) -> Option<u32>
    ensures { result ≡ steps.source_from from pairs.now }
{
    let mut rest = pairs;
    while let [id, label, more @ ..] = rest {
        if *label == from {
            return Some(*id);
        }
        rest = more;
    }
    None
}

/// How many phis a block begins with.
#[tactic(auto, using(crate::proofs::Phis::while_rules))]
fn count_phis(insts: &[Inst]) -> usize
    ensures count { result ≡ length (take_while steps.is_phi insts.now) }
    ensures within { result ≤ length insts.now }
{
    let mut count = 0;
    for inst in insts {
        if inst.op != Op::Phi {
            return count;
        }
        count += 1;
    }
    count
}

/// The phis of a block.
pub fn phis_of(block: &Block) -> &[Inst]
    ensures { result.now ≡ steps.phis block.now }
{
    let insts = block.insts.as_slice();
    &insts[..count_phis(insts)]
}

/// The label of a block, or 0 where there is none.
pub fn present_label(blocks: &[Block], block: usize) -> u32
    ensures { result ≡ steps.label_of (slice_get blocks.now block) }
{
    match blocks.get(block) {
        None => 0,
        Some(block) => block.label.0,
    }
}

/// Makes places for the results of phis.
fn make_places(ids: &mut Ids, phis: &[Inst]) -> Result<(), Memory>
    ensures same { (q : ℕ) → ids_of ids.new q ≡ ids_of ids.old q }
    ensures places { OnOk result (HavePlaces ids.new phis.now) }
{
    for phi in phis {
        make_place(ids, phi.result)?;
    }
    Ok(())
}

/// Gives all phis their values. It takes no memory.
fn set_phis(ids: &mut Ids, phis: &[Inst], values: Vec<Value>)
    requires places { HavePlaces ids.old phis.now }
    requires all { length values.items ≡ length phis.now }
    ensures { (q : ℕ) → ids_of ids.new q ≡ steps.with_phis phis.now (map value_of values.items) (ids_of ids.old) q }
{
    let mut left = values;
    while let Some(value) = left.pop() {
        put_in_place(ids, phis[left.len()].result, Held::Value(value));
    }
}

/// Control goes to a block, whose phis take these values.
pub fn go_to(conf: &mut Conf, place: usize, block: &Block, values: Vec<Value>) -> Result<(), Memory>
    ghost fs: { List Function }
    requires block { slice_get (function_at fs conf.old.top.function).blocks place ≡ Some block.now }
    requires all { length values.items ≡ length (steps.phis block.now) }
    ensures gone { OnOk result (conf_of fs conf.new ≡ steps.gone_to (conf_of fs conf.old) place block.now (map value_of values.items)) }
    ensures err { OnErr result (conf_of fs conf.new ≡ conf_of fs conf.old) }
{
    let phis = phis_of(block);
    make_places(&mut conf.top.ids, phis)?;
    set_phis(&mut conf.top.ids, phis, values);
    conf.top.block = place;
    conf.top.at = phis.len();
    Ok(())
}
