// The text of a pointer's path stands for the place to which the pointer leads. What a text says of its module's constants and built-in variables. What the constants of a module are in its text, by the order of its items. Laws alone.
#![tactic(auto)]
