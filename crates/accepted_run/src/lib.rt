// The law that the run of a module which was read and is not refused is the same with places by the numbers that a program has for them. Laws alone.
#![tactic(auto)]
