// How constants are read.

/// How an expression reads a constant: by its literal; by the name of its declaration; as
/// `gl_WorkGroupSize`; or as the component of `gl_WorkGroupSize` with this number.
#[derive(Clone, Copy, Debug, PartialEq, Eq)]
pub enum Reading {
    Plain,
    Named,
    GroupSize,
    GroupSizePart(usize),
}
