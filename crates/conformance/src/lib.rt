// Which rules of the profile the bytes of a module break, which of these are considered, and which limits are exceeded: definitions.
#![tactic(auto)]
