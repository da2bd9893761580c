// The expressions of operations say the operations' values. Definitions and laws alone.
#![tactic(auto)]
