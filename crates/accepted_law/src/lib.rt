// A module that is accepted keeps its values in the shapes of their types: laws alone.
#![tactic(auto)]
