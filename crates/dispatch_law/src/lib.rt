// What a dispatch comes to is one, where the runs of its invocations are steady; so are those of machines.
#![tactic(auto)]
