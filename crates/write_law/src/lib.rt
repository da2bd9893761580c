// Statements change no variable but those whose names they write. Definitions and laws alone.
#![tactic(auto)]
