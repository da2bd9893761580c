// What items are written by.
use constant_text::Readings;
use name_alloc::Names;
use std::alloc::Global;

/// How the constants of a module are read, and the names of its ids, members and blocks.
#[derive(Clone, Copy)]
pub struct Wording<'a, 'b> {
    pub alloc: Global,
    pub readings: &'a Readings<'b>,
    pub names: &'a Names,
}
