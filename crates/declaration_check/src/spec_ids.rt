// The rule on SpecIds.
ghost use Rattle.std.specs.Prelude.{◌≡◌, ◌==◌, ◌||◌, ℕ, OnOk};
ghost use Rattle.std.specs.BTreeSet.{contains};
ghost use Rattle.std.specs.Ordering.{nat_cmp};
ghost use Rattle.spv_words.specs.declared.rule.Rule.TheVariants.{P20};
ghost use Rattle.profile_rules.specs.TypeForm.{p20};
ghost use Rattle.declaration_check.specs.Checked.{IsChecked};

use crate::context::Context;
use spv_ops::Decoration;
use spv_words::{Fault, Refusal, Rule};
use std::alloc::{AllocError, Global};
use std::collections::BTreeSet;

/// Adds a SpecId.
fn add_id(ids: &mut BTreeSet<u32>, id: u32) -> Result<(), AllocError>
    ensures { OnOk result ((other : ℕ) → contains nat_cmp ids.new other ≡ (contains nat_cmp ids.old other || (id == other))) }
{
    ids.insert(id)?;
    Ok(())
}

/// P20: two constants have the same SpecId (SPIR-V 1.6, section 3.20).
pub fn check_spec_ids(alloc: Global, context: &Context) -> Result<(), Fault>
    ensures { IsChecked P20 (p20 context.now) result }
{
    let mut seen = BTreeSet::new(alloc);
    for inst in context.globals() {
        match context.value(inst.result, Decoration::SpecId.number()) {
            None => {}
            Some(id) => {
                if seen.contains(&id) {
                    return Err(Fault::Refused(Refusal {
                        rule: Rule::P20,
                        at: inst.at,
                    }));
                }
                add_id(&mut seen, id)?;
            }
        }
    }
    Ok(())
}
