// The labels to which control goes.
ghost use Rattle.std.specs.Prelude.{◌≡◌, List, option_map, drop, if◌then◌else◌};
ghost use Rattle.spv_module.specs.declared.inst.Function.{Function};
ghost use Rattle.module_semantics.specs.Operands.{arg};
ghost use Rattle.module_semantics.specs.Steps as steps;
ghost use Rattle.run_acts.specs.About.{ForEach, frame_of};

use memory_places::MemoryMap;
use run_operands::{truth, word};
use run_state::{Frame, case_label};
use spv_module::Inst;
use spv_ops::Terminator;

/// The label for a condition.
fn chosen(condition: Option<bool>, first: u32, other: u32) -> Option<u32>
    ensures { result ≡ option_map (λ b. if b then first else other) condition }
{
    match condition {
        None => None,
        Some(true) => Some(first),
        Some(false) => Some(other),
    }
}

/// The literals of a switch with their labels.
fn cases_of(inst: &Inst) -> &[u32]
    ensures { result.now ≡ drop 2 inst.now.args }
{
    inst.args.as_slice().get(2..).unwrap_or(&[])
}

/// The label for a selector.
fn switched(selector: Option<u32>, inst: &Inst) -> Option<u32>
    ensures { result ≡ option_map (λ w. steps.case_label w (arg inst.now 1) (drop 2 inst.now.args)) selector }
{
    match selector {
        None => None,
        Some(selector) => Some(case_label(selector, inst.operand(1), cases_of(inst))),
    }
}

/// The label to which the end of a block leads, where it leads to one.
pub fn target_label(map: &MemoryMap<'_>, frame: &Frame, end: Terminator, inst: &Inst) -> Option<u32>
    ensures { ForEach map.now (λ s. (fs : List Function) → result ≡ steps.target_label end s (frame_of fs frame.now) inst.now) }
{
    match end {
        Terminator::Branch => Some(inst.operand(0)),
        Terminator::BranchConditional => {
            let condition = truth(map, &frame.ids, inst.operand(0));
            chosen(condition, inst.operand(1), inst.operand(2))
        }
        Terminator::Switch => switched(word(map, &frame.ids, inst.operand(0)), inst),
        Terminator::Return | Terminator::ReturnValue | Terminator::Unreachable => None,
    }
}
