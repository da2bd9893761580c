// The types of a module whose instructions have few operands have structs with few members. Definitions and laws alone.
#![tactic(auto)]
