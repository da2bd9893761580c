// The targets of a switch.
ghost use Rattle.std.specs.Prelude.{◌≡◌, ◌==◌, ◌∷◌, map, ℕ, [], Option, IfOk, OnOk, drop, slice_get, true};
ghost use Rattle.std.specs.List.{list_any, zip};
ghost use Rattle.std.specs.List.Sorted.{IsStrictlyIncreasing};
ghost use Rattle.structure_rules.specs.Graph.{nth};
ghost use Rattle.structure_recover.specs.Follows.{firsts, literals_by, last_inst};
ghost use Rattle.structure_recover.specs.Arms.{AreArms, AreTargets, AreLabelled, Adds, first_literal as first_of_cases, target_of};

use crate::edges::node;
use block_graph::terminator;
use nest_place::Places;
use spv_module::Function;
use spv_words::Memory;
use std::alloc::{AllocError, Global};

/// A target of OpSwitch, the literals with this target in the order of the operands, and whether it is
/// the default.
#[derive(Drop)]
pub struct Arm {
    pub target: usize,
    pub labels: Vec<u32>,
    pub default: bool,
}

/// The cases among the operands of OpSwitch, behind its selector and default.
fn cases_in(args: &[u32]) -> &[u32]
    ensures { result.now ≡ drop 2 args.now }
{
    match args {
        [_, _, cases @ ..] => cases,
        _ => &[],
    }
}

/// The cases of an OpSwitch, each a literal with a label, in the order of the operands.
fn cases_of(f: &Function, head: usize) -> &[u32]
    ensures { firsts result.now ≡ literals_by (last_inst (slice_get f.now.blocks head)) }
{
    match f
        .blocks
        .as_slice()
        .get(head)
        .and_then(|block| terminator(block))
    {
        None => &[],
        Some(inst) => cases_in(inst.args.as_slice()),
    }
}

/// The targets behind the first, which is the default.
fn case_targets(targets: &[usize]) -> &[usize]
    ensures { result.now ≡ drop 1 targets.now }
{
    match targets {
        [] => targets,
        [_, cases @ ..] => cases,
    }
}

/// The first target, which is the default.
fn default_target(targets: &[usize]) -> Option<usize>
    ensures { result ≡ slice_get targets.now 0 }
{
    targets.first().copied()
}

/// These blocks in the order in which they stand in the function, each once.
fn in_function(alloc: Global, targets: &[usize]) -> Result<Vec<usize>, AllocError>
    ensures up { IfOk result (λ order. IsStrictlyIncreasing order.items) }
    ensures same { IfOk result (λ order. (q : ℕ) → list_any (λ t. t == q) order.items ≡ list_any (λ t. t == q) targets.now) }
{
    let mut order = Vec::from_slice(alloc, targets)?;
    order.sort_unstable();
    order.dedup();
    Ok(order)
}

/// The targets, one of which is the default, without literals.
fn bare_arms(alloc: Global, order: &[usize], default: Option<usize>) -> Result<Vec<Arm>, AllocError>
    ensures targets { IfOk result (λ arms. map target_of arms.items ≡ order.now) }
    ensures bare { IfOk result (λ arms. AreLabelled default [] arms.items) }
{
    let mut arms = Vec::with_capacity(alloc, order.len())?;
    for target in order {
        arms.push(Arm {
            target: *target,
            labels: Vec::new(alloc),
            default: default == Some(*target),
        })?;
    }
    Ok(arms)
}

/// Adds a literal to those with its target.
fn add_literal(
    arms: &mut Vec<Arm>,
    order: &[usize],
    target: usize,
    literal: u32,
) -> Result<(), AllocError>
    requires order { map target_of arms.old.items ≡ order.now }
    requires up { IsStrictlyIncreasing order.now }
    ensures { OnOk result (Adds ((target, literal) ∷ []) arms.old.items arms.new.items) }
{
    match order.binary_search(&target) {
        Ok(place) => {
            arms[place].labels.push(literal)?;
            Ok(())
        }
        Err(_) => Ok(()),
    }
}

/// The literal of the first case.
fn first_literal(cases: &[u32]) -> Option<u32>
    ensures { result ≡ first_of_cases cases.now }
{
    match cases {
        [literal, _, ..] => Some(*literal),
        _ => None,
    }
}

/// The cases behind the first.
fn later_cases(cases: &[u32]) -> &[u32]
    ensures { result.now ≡ drop 2 cases.now }
{
    cases.get(2..).unwrap_or(&[])
}

/// Adds the literals of cases, which lead to these targets, each to those with its target.
fn add_literals(
    arms: &mut Vec<Arm>,
    order: &[usize],
    targets: &[usize],
    cases: &[u32],
) -> Result<(), AllocError>
    requires order { map target_of arms.old.items ≡ order.now }
    requires up { IsStrictlyIncreasing order.now }
    ensures { OnOk result (Adds (zip targets.now (firsts cases.now)) arms.old.items arms.new.items) }
{
    let mut rest = cases;
    for target in targets {
        match first_literal(rest) {
            None => return Ok(()),
            Some(literal) => {
                add_literal(arms, order, *target, literal)?;
                rest = later_cases(rest);
            }
        }
    }
    Ok(())
}

/// The blocks to which a switch leads, in the order in which they stand in the function.
pub fn targets_of(alloc: Global, places: &Places, head: usize) -> Result<Vec<usize>, Memory>
    requires { (nth places.now head).reached ≡ true }
    ensures { IfOk result (λ targets. AreTargets places.now head targets.items) }
{
    Ok(in_function(alloc, node(places, head).targets.as_slice())?)
}

/// The targets of a switch with their literals, in the order in which they stand in the function.
pub fn arms_of(
    alloc: Global,
    f: &Function,
    places: &Places,
    head: usize,
) -> Result<Vec<Arm>, Memory>
    requires { (nth places.now head).reached ≡ true }
    ensures { IfOk result (λ arms. AreArms f.now places.now head arms.items) }
{
    let targets = node(places, head).targets.as_slice();
    let order = in_function(alloc, targets)?;
    let mut arms = bare_arms(alloc, &order, default_target(targets))?;
    add_literals(&mut arms, &order, case_targets(targets), cases_of(f, head))?;
    Ok(arms)
}
