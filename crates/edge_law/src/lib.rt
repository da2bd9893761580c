// The copies of an edge do what the phis of its block do. Definitions and laws alone.
#![tactic(auto)]
