// What a module does, invocation by invocation: the meaning of each instruction. Definitions and laws alone.
#![tactic(auto)]
