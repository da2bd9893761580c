// How values, statements, items and names are written.
mod composites;
mod grammar;
mod names;
mod operations;
mod printed;
mod readings;
