// The calls of a module, from place to place.

/// A call: the places of the function that makes it and of the one that it calls, and the word of
/// its OpFunctionCall.
#[derive(Clone, Copy)]
pub struct Call {
    pub caller: usize,
    pub callee: usize,
    pub at: u32,
}
