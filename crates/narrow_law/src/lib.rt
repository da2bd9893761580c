// The bytes at which parts of blocks lie, as far as the types of a conforming module allow indexes, are below 2 ^ 64. Definitions and laws alone.
#![tactic(auto)]
