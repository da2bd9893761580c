// Why not all of a text was printed.

/// Why not all of a text was printed: the sink failed, or had no memory.
#[derive(Clone, Copy, Debug, PartialEq, Eq)]
pub enum PrintEnd {
    Fault,
    Memory,
}
