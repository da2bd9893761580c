// The items of a text have names apart, and so have members of structs: what the laws of its constants ask of names. Laws alone.
#![tactic(auto)]
