// When a state of a module and a state of its text agree, and what keeps them so. Definitions and laws alone.
#![tactic(auto)]
