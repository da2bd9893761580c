// Many invocations on one memory: dispatches, schedules, and the events that come of them. Definitions and laws alone.
#![tactic(auto)]
