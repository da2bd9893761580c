// Modules as words, lists, names, shapes, ids and graphs, and the values of operations.
mod decorations;
mod generated;
mod graph;
mod ids;
mod lists;
mod opcodes;
mod operations;
mod shapes;
mod streams;
mod values;
mod words;
