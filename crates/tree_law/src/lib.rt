// The recovered tree of a function leads where its blocks lead: edges by what stands round them, and the chains of a switch. Definitions and laws alone.
#![tactic(auto)]
