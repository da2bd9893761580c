// What a text of GLSL does, invocation by invocation: the meaning of its tree. Definitions and laws alone.
#![tactic(auto)]
