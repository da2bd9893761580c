// Refusals by a rule.
ghost use Rattle.std.specs.Prelude.{[], ◌∷◌};
ghost use Rattle.std.specs.Option.{option_copied};
ghost use Rattle.profile_rules.specs.Places.{when};
ghost use Rattle.declaration_check.specs.Checked.{IsChecked, word_of};

use spv_module::Inst;
use spv_words::{Fault, Refusal, Rule};

/// Refuses by a rule at an instruction, where there is one.
pub fn refuse_at(rule: Rule, found: Option<&Inst>) -> Result<(), Fault>
    ensures { IsChecked rule (word_of (option_copied found.entry)) result }
{
    match found {
        None => Ok(()),
        Some(inst) => Err(Fault::Refused(Refusal { rule, at: inst.at })),
    }
}

/// Refuses by a rule at a word, where the rule is broken there.
pub fn refuse_if(rule: Rule, broken: bool, at: u32) -> Result<(), Fault>
    ensures { IsChecked rule (when broken (at ∷ [])) result }
{
    if broken {
        return Err(Fault::Refused(Refusal { rule, at }));
    }
    Ok(())
}
