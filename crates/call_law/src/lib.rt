// Inside a call of a module the calls that wait stay as they were, but for what was lent. Definitions and laws alone.
#![tactic(auto)]
