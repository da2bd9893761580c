// The run of a conforming module has the places that a program has numbers for. Definitions and lemmas alone.
#![tactic(auto)]
