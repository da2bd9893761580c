// What can be seen of a run: places in memory, events, answers. When a text keeps what a machine does. Definitions and laws alone.
#![tactic(auto)]
