// Forms.

/// How the result of an instruction is written: not at all; in the expression that mentions it; as a
/// variable that is declared where it is computed; or as one that is declared at the top of the function.
#[derive(Clone, Copy, Debug, PartialEq, Eq)]
pub enum Form {
    Gone,
    Forwarded,
    Local,
    Hoisted,
}
