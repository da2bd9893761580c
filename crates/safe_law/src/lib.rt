// Which names the statements of blocks and the copies of edges write: none that is a flag. Definitions and laws alone.
#![tactic(auto)]
