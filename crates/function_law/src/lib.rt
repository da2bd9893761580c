// The text of each function does what its blocks do, and so a whole text; and a plan of a function meets what the laws of its edges ask. Definitions and laws alone.
#![tactic(auto)]
