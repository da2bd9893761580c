// What the plan of a function promises of the values that stand in other expressions: how high they are. Definitions and laws alone.
#![tactic(auto)]
