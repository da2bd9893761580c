// Values keep the shapes of their types: of each operation, and of each step of a module. Definitions and laws alone.
#![tactic(auto)]
