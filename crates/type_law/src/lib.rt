// What the rules on types say of the shapes of operands and results. Definitions and laws alone.
#![tactic(auto)]
