// What machines do that get their words from outside, step by step. Definitions and laws alone.
#![tactic(auto)]
