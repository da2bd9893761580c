// When a tree is the text of a module: definitions alone.
#![tactic(auto)]
