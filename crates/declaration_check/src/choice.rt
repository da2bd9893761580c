// The entry point that is chosen.
ghost use Rattle.std.specs.Prelude.{◌≡◌, map, option_map, Some, IfOk, IfErr, OnOk, []};
ghost use Rattle.profile_rules.specs.Entry.{is_meant as is_meant_row, meant, chosen, x1, x2};
ghost use Rattle.profile_rules.specs.DataRules.{IsRight};

use crate::context::Context;
use spv_decor::text_of;
use spv_module::Inst;
use spv_ops::Op;
use spv_words::{Fault, Refusal, Rule};
use std::alloc::{AllocError, Global};

/// OpEntryPoint, of a name where one is given.
fn is_meant(alloc: Global, name: Option<&str>, inst: &Inst) -> Result<bool, AllocError>
    ensures { IfOk result (λ is. is ≡ is_meant_row (option_map (λ n. n.now) name.entry) inst.now) }
{
    if inst.op != Op::EntryPoint {
        return Ok(false);
    }
    let Some(name) = name else {
        return Ok(true);
    };
    let own = text_of(alloc, inst.args.as_slice().get(2..).unwrap_or(&[]))?;
    Ok(own.as_slice() == name.as_bytes())
}

/// The entry points, of a name where one is given.
#[tactic(auto, using(crate::proofs::Finds::filter_rules))]
fn meant_entries<'a>(
    alloc: Global,
    context: &Context<'a>,
    name: Option<&str>,
) -> Result<Vec<&'a Inst>, AllocError>
    ensures { IfOk result (λ list. map (λ i. i.now) list.items ≡ meant (option_map (λ n. n.now) name.entry) context.now.heads) }
{
    let mut list = Vec::new(alloc);
    for inst in context.heads() {
        if is_meant(alloc, name, inst)? {
            list.push(inst)?;
        }
    }
    Ok(list)
}

/// The entry point of a name where one is given, else the only one.
///
/// It refuses by X1 where not exactly one entry point has the name, and by X2 where none is given and
/// there is not exactly one entry point (SPIR-V 1.6, "Mode-Setting Instructions", OpEntryPoint).
pub fn chosen_entry<'a>(
    alloc: Global,
    context: &Context<'a>,
    name: Option<&str>,
) -> Result<&'a Inst, Fault>
    ensures chosen { IfOk result (λ entry. chosen (option_map (λ n. n.now) name.entry) context.now.heads ≡ Some entry.now) }
    ensures x1 { OnOk result (x1 (option_map (λ n. n.now) name.entry) context.now.heads ≡ []) }
    ensures x2 { OnOk result (x2 (option_map (λ n. n.now) name.entry) context.now.heads ≡ []) }
    ensures refused { IfErr result (IsRight context.now (option_map (λ n. n.now) name.entry)) }
{
    let list = meant_entries(alloc, context, name)?;
    match list.as_slice() {
        [entry] => Ok(*entry),
        _ => Err(Fault::Refused(Refusal {
            rule: if name.is_some() { Rule::X1 } else { Rule::X2 },
            at: 0,
        })),
    }
}
