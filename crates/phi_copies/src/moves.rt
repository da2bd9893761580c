// Variables, sources and moves.

use spv_module::Id;

/// A variable, by its number.
#[derive(Clone, Copy, Debug, PartialEq, Eq)]
pub struct Var(pub u32);

/// What a variable is given: the value of another, or of a constant.
#[derive(Clone, Copy, Debug, PartialEq, Eq)]
pub enum Src {
    Var(Var),
    Constant(Id),
}

/// One assignment. A spare is a variable beside the others; spares are numbered from 0, in the
/// order in which they are needed.
#[derive(Clone, Copy, Debug, PartialEq, Eq)]
pub enum Move {
    /// The variable gets the value of the source.
    Set(Var, Src),
    /// The spare gets the value of the variable.
    Save(u32, Var),
    /// The variable gets the value of the spare.
    Restore(Var, u32),
}
