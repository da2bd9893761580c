// What modules, types, layouts, accesses, constants, structure and calls are judged to be.
mod accesses;
mod calls;
mod constants;
mod data;
mod declarations;
mod ladders;
mod layouts;
mod overrides;
mod structure;
mod types;
