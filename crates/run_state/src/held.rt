// What ids have while an invocation runs.
use spv_module::Value;

/// The variable into which a pointer leads: one of the module; a variable of the present call; one of a call under way, by the
/// number of calls below that one.
#[derive(Clone, Copy, Debug, PartialEq, Eq)]
pub enum Root {
    Global(u32),
    Own(u32),
    Lent(usize, u32),
}

/// What an id has: a value, or a pointer with the indexes that lead from the variable to the part.
#[derive(Drop)]
pub enum Held {
    Value(Value),
    Pointer(Root, Vec<u32>),
}

/// What an id has, where it stands.
#[derive(Clone, Copy)]
pub enum Found<'a> {
    Value(&'a Value),
    Pointer(Root, &'a [u32]),
}
