// What is promised of a text and its module: the events of each invocation, and of each dispatch. Definitions and laws alone.
#![tactic(auto)]
