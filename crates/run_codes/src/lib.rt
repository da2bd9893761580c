// Events and runs as codes: what is said of them by an equation has one proof. Definitions and laws alone.
#![tactic(auto)]
