// What the rules on types ask of operands.

/// What an operand has to be.
#[derive(Clone, Copy, Debug, PartialEq, Eq)]
pub enum Need {
    AnyType,
    PointerType,
    FunctionType,
    /// A constant, or an undefined value outside functions.
    Constant,
    Value,
    /// A value that a phi takes, which may stand after it.
    PhiValue,
    Label,
    /// A function of the module.
    Callee,
    /// An imported set of instructions.
    Import,
}

/// What an index leads to in a type.
#[derive(Clone, Copy, Debug, PartialEq, Eq)]
pub enum Reached {
    /// A part, of the type with this id.
    Part(u32),
    /// There is no such part.
    Nothing,
    /// An id on the way is not defined.
    Unknown,
}
