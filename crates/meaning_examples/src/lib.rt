// Modules and their texts, run side by side: they make the same events. Examples alone.
#![tactic(auto)]
