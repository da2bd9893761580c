// What stands in the expressions of a function's text says what the module's operations give. Definitions and laws alone.
#![tactic(auto)]
