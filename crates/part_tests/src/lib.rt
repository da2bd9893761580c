// Each part of the way, called by itself: modules as words, lists, names, shapes, ids and graphs, and the values of operations; what is judged of them; what is planned of a function; and how values, statements, items and names are written.
#![tactic(auto)]

#[cfg(test)]
mod tests;
