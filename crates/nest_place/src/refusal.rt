// What the check of a rule answers where the rule is broken.
ghost use Rattle.std.specs.Prelude.{◌≡◌};

use spv_words::{Fault, Refusal, Rule};

/// The refusal by a rule at a word.
pub fn refused(rule: Rule, at: u32) -> Fault
    ensures { result ≡ Fault.Refused (record { rule = rule; at = at }) }
{
    Fault::Refused(Refusal { rule, at })
}
