// The scalars of a value, one after another: the words by which it is read and written, and where they lie in it. Definitions alone.
#![tactic(auto)]
