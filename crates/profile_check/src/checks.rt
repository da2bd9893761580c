// The rules on the data of a module.
ghost use Rattle.std.specs.Prelude.{◌≡◌, ◌≤◌, ℕ, false, option_map, string_bytes, IfOk, IfErr, OnOk, IsSomeAnd};
ghost use Rattle.spv_words.specs.Limit.{limit_number};
ghost use Rattle.spv_words.specs.Breaks.{NoRuleBroken};
ghost use Rattle.spv_words.specs.declared.rule.Rule.{Rule};
ghost use Rattle.spv_words.specs.declared.rule.Limit.TheVariants.{Leaves};
ghost use Rattle.spv_decor.specs.Rows.{word as word_of};
ghost use Rattle.spv_types.specs.Limits.{AreWithin};
ghost use Rattle.layout_rules.specs.Blocks.{Broken as BreaksLayout};
ghost use Rattle.profile_rules.specs.Entry.{chosen, group_size};
ghost use Rattle.profile_rules.specs.DataRules.{Broken as BreaksDeclaration, data_rules};
ghost use Rattle.profile_rules.specs.AccessRules.{Broken as BreaksAccess, access_rules};
ghost use Rattle.profile_rules.specs.Leaves.{leaves_of_module};
ghost use Rattle.profile_rules.specs.Constants.{breaks_x3, breaks_x4};
ghost use Rattle.profile_check.specs.Data.{block_variables, ArePlans, IsRestRight, IsRight};

use crate::blocks::plans;
use crate::functions::locals_of;
use crate::layouts::check_layouts;
use access_check::check_accesses;
use buffer_layout::BlockPlan;
use declaration_check::{Entry, check_declarations};
use profile_rules::SizePart;
use spec_constants::{Overrides, check_leaves, check_overrides};
use spv_decor::Decor;
use spv_index::Locals;
use spv_module::{Id, Module};
use spv_types::check_limits;
use spv_words::Fault;
use std::alloc::Global;

/// What is asked besides the command: the name of an entry point, and the values of specialization
/// constants.
#[derive(Drop)]
pub struct Options {
    pub entry: Option<String>,
    pub overrides: Overrides,
}

impl Options {
    /// The name of the entry point that is asked for, where one is.
    pub fn entry_name(&self) -> Option<&str>
        ensures { option_map (λ n. n.now) result ≡ option_map string_bytes self.now.entry }
    {
        match &self.entry {
            Some(name) => Some(name.as_str()),
            None => None,
        }
    }
}

/// What is known of a module whose data break no rule: the function of its entry point, the parts of
/// the size of its workgroups in x, y and z, and the plans of its block variables in the order of the
/// module.
#[derive(Drop)]
pub struct Profile {
    pub entry: Id,
    pub size: Vec<SizePart>,
    pub blocks: Vec<BlockPlan>,
}

/// Judges what the rules on declarations leave open; a block that many variables have is laid out once.
///
/// It refuses by the limits on leaves and on types; by L1 to L7, the layout of blocks (SPIR-V 1.6,
/// section 2.16.2); by M1 to M5 and A1 to A5, memory, atomics and barriers ("Memory Instructions",
/// "Atomic Instructions", "Barrier Instructions"); and by X3 and X4, overrides that name no
/// specialization constant or do not fit theirs. A rule is named only where it is broken at that word,
/// and a limit only where it is passed. The only other error is want of memory. `functions` has what
/// each function of the module defines.
#[tactic(auto, using(crate::proofs::Causes::rest_causes))]
pub fn check_rest(
    alloc: Global,
    module: &Module,
    decor: &Decor,
    functions: &[Locals],
    overrides: &Overrides,
) -> Result<(), Fault>
    requires heads { decor.now ≡ «module».now.heads }
    requires functions { functions.now ≡ «module».now.functions }
    ensures within { OnOk result (leaves_of_module «module».now ≤ limit_number Leaves) }
    ensures laid_out { OnOk result ((rule : Rule) (at : ℕ) → BreaksLayout «module».now rule at → ⊥) }
    ensures accessed { OnOk result (NoRuleBroken (BreaksAccess «module».now) access_rules) }
    ensures known { OnOk result (breaks_x3 «module».now overrides.now.pairs.items ≡ false) }
    ensures fits { OnOk result (breaks_x4 «module».now overrides.now.pairs.items ≡ false) }
    ensures refused { IfErr result (IsRestRight «module».now overrides.now.pairs.items) }
{
    check_leaves(alloc, module)?;
    check_accesses(alloc, module, decor, functions)?;
    check_overrides(alloc, module, decor, &overrides.pairs)?;
    check_layouts(alloc, module, decor)?;
    Ok(())
}

/// Judges the data of a module, and finds its entry point, the size of its workgroups and the plans
/// of its block variables.
///
/// First come the rules on what it declares, X1 and X2, P5 to P10 and P13 to P20 (SPIR-V 1.6, sections
/// 2.4 and 3); where none of these is broken, the limits on types (`Limit::Types`, `Limit::Parts`), each
/// type of the module, used or not, and on leaves, and the rules L1 to L7, M1 to M5, A1 to A5, X3 and X4.
/// A rule is named only where it is broken at that word, and a limit only where it is passed. The only
/// other error is want of memory.
#[tactic(auto, using(crate::proofs::Causes::causes))]
pub fn check_data(
    alloc: Global,
    module: &Module,
    decor: &Decor,
    options: &Options,
) -> Result<Profile, Fault>
    requires { decor.now ≡ «module».now.heads }
    ensures declared { OnOk result (NoRuleBroken (BreaksDeclaration «module».now (option_map string_bytes options.now.entry)) data_rules) }
    ensures types { OnOk result (AreWithin «module».now.globals) }
    ensures within { OnOk result (leaves_of_module «module».now ≤ limit_number Leaves) }
    ensures laid_out { OnOk result ((rule : Rule) (at : ℕ) → BreaksLayout «module».now rule at → ⊥) }
    ensures accessed { OnOk result (NoRuleBroken (BreaksAccess «module».now) access_rules) }
    ensures known { OnOk result (breaks_x3 «module».now options.now.overrides.pairs.items ≡ false) }
    ensures fits { OnOk result (breaks_x4 «module».now options.now.overrides.pairs.items ≡ false) }
    ensures entry { IfOk result (λ p. IsSomeAnd (chosen (option_map string_bytes options.now.entry) «module».now.heads) (λ i. p.entry.0 ≡ word_of i 1)) }
    ensures size { IfOk result (λ p. p.size.items ≡ group_size «module».now p.entry.0) }
    ensures blocks { IfOk result (λ p. ArePlans «module».now (block_variables «module».now.globals) p.blocks.items) }
    ensures refused { IfErr result (IsRight «module».now (option_map string_bytes options.now.entry) options.now.overrides.pairs.items) }
{
    let Entry { function, size } = check_declarations(alloc, module, decor, options.entry_name())?;
    check_limits(alloc, module)?;
    let functions = locals_of(alloc, module.functions())?;
    check_leaves(alloc, module)?;
    check_accesses(alloc, module, decor, functions.as_slice())?;
    check_overrides(alloc, module, decor, &options.overrides.pairs)?;
    let blocks = plans(alloc, module, decor)?;
    Ok(Profile {
        entry: function,
        size,
        blocks,
    })
}
