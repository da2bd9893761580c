// Values of a module that conforms keep the shapes of their types. Definitions and laws alone.
#![tactic(auto)]
