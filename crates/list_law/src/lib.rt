// What is so of any tests, numbers, options and lists, which laws of all parts cite. Lemmas alone.
#![tactic(auto)]
