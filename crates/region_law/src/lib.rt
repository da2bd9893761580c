// A machine of blocks does what the statements of its tree of regions do. Definitions and laws alone.
#![tactic(auto)]
